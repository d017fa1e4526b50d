ghost use Rattle.std.specs.Prelude.{◌↔◌, ◌<◌, ◌∷◌, [], map, IsTrue};
ghost use Rattle.std.specs.List.{All};
ghost use Rattle.sv_log.specs.LogEntries.{terms_among};
ghost use Rattle.sv_cert.specs.PlainNodes.{plain_part};

use sv_cert::Part;

/// Whether each term among the parts is there, where there are so many.
pub(crate) fn are_terms(parts: &[Part], terms: usize) -> bool
    ensures { IsTrue result ↔ All (λ n. n < terms) (terms_among (map plain_part parts.now)) }
{
    for part in parts {
        if !is_there(part, terms) {
            return false;
        }
    }
    true
}

fn is_there(part: &Part, terms: usize) -> bool
    ensures { IsTrue result ↔ All (λ n. n < terms) (terms_among (plain_part part.now ∷ [])) }
{
    match part {
        Part::Term(n) => *n < terms,
        Part::Sort(_) | Part::Number(_) | Part::Flag(_) => true,
    }
}
