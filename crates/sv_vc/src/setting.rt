ghost use Rattle.std.specs.Prelude.{◌≡◌, ◌<◌, IfOk, ℕ, length, map};
ghost use Rattle.sv_gcl.specs.CommandShapes.{shape, shaped};
ghost use Rattle.sv_vc.specs.CodeStates.{marked};
ghost use Rattle.sv_vc.specs.SetVariables.{shape_sets, some_shape_sets};

use sqlite_items::Items;
use std::alloc::Global;
use sv_gcl::Cmd;
use sv_text::NoMemory;

/// Whether the command sets or forgets the variable.
#[cycle(sets)]
fn sets(cmd: &Cmd, x: usize) -> bool
    ensures { result ≡ shape_sets (shape cmd.now) x }
{
    match cmd {
        Cmd::Assume(_) | Cmd::Check(_, _) => false,
        Cmd::Set(y, _) | Cmd::Forget(y) => *y == x,
        Cmd::Seq(cmds) | Cmd::Choice(cmds) => some_sets(cmds.as_slice(), x),
    }
}

/// Whether one of the commands does.
#[cycle(sets)]
fn some_sets(cmds: &[Cmd], x: usize) -> bool
    ensures { result ≡ some_shape_sets (shaped (map shape cmds.now)) x }
{
    for cmd in cmds {
        if sets(cmd, x) {
            return true;
        }
    }
    false
}

/// Which of so many variables the commands set or forget.
pub fn set_marks(alloc: Global, cmds: &[Cmd], count: usize) -> Result<Items<bool>, NoMemory>
    ensures size { IfOk result (λ marks. length marks ≡ count) }
    ensures marks { IfOk result (λ marks. (x : ℕ) → x < count → marked marks x ≡ some_shape_sets (shaped (map shape cmds.now)) x) }
{
    let mut marks = Items::new(alloc);
    for x in 0..count {
        marks.push(some_sets(cmds, x))?;
    }
    Ok(marks)
}
