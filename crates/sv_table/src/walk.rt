ghost use Rattle.std.specs.Prelude.{MatchOption};
ghost use Rattle.sv_table.specs.Places.{HasNone, IsLast};
ghost use Rattle.sv_table.specs.Chains.{LeadsDown};

/// The last place below `start` that has the code, down the chain that begins there.
pub(crate) fn walk(codes: &[usize], links: &[usize], start: usize, code: usize) -> Option<usize>
    requires { LeadsDown codes.now links.now start code }
    ensures { MatchOption result (HasNone codes.now code start) (IsLast codes.now code start) }
{
    let mut at = start;
    while at != 0 {
        if codes[at - 1] == code {
            return Some(at - 1);
        }
        at = links[at - 1];
    }
    None
}
