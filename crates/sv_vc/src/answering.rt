ghost use Rattle.std.specs.Prelude.{◌≡◌, ◌≤◌, ◌+◌, ◌*◌, map, length, IfOk};
ghost use Rattle.sv_term.specs.Banks.{Keeps};
ghost use Rattle.sv_gcl.specs.CommandShapes.{shape};
ghost use Rattle.sv_gcl.specs.FormedCommands.{IsLowered};
ghost use Rattle.sv_vc.specs.AnsweredConditions.{AreExact, AreVersions, count};

use crate::answer::Conditions;
use crate::gathering::listed;
use crate::nodes::added;
use crate::preparing::{own_terms, widened};
use crate::state::{Scope, State};
use crate::walking::walk;
use sqlite_items::Items;
use std::alloc::Global;
use sv_gcl::Lowered;
use sv_term::Node;
use sv_text::NoMemory;

/// For each label of the command, in order, a condition that is valid exactly where no run of the command fails at the label.
/// So the condition of a label without a check is valid. A label that stands twice has two equal conditions.
pub fn conditions(alloc: Global, l: Lowered) -> Result<Conditions, NoMemory>
    requires { IsLowered l }
    ensures kept { IfOk result (λ r. Keeps l.bank r.bank) }
    ensures labels { IfOk result (λ r. map (λ c. c.label) r.list ≡ l.labels) }
    ensures exact { IfOk result (λ r. AreExact l r.bank r.list) }
    ensures vars { IfOk result (λ r. AreVersions l r.bank r.vars) }
    ensures size { IfOk result (λ r. length r.bank.nodes ≤ length l.bank.nodes + 16 * ((count (shape l.cmd) + length l.labels + 1) * (length l.vars + length l.bank.nodes + 1))) }
{
    let Lowered {
        mut bank,
        vars,
        cmd,
        labels,
    } = l;
    bank.is_sound();
    let joined = widened(alloc, &mut bank, vars.as_slice())?;
    let env = own_terms(alloc, &mut bank, vars.as_slice())?;
    let given = Items::from_slice(alloc, vars.as_slice())?;
    let scope = Scope { given, joined };
    let mut state = State {
        env,
        vars,
        found: Items::new(alloc),
    };
    let nothing = added(&mut bank, Node::Truth(true))?;
    walk(alloc, &mut bank, &scope, &cmd, nothing, &mut state)?;
    let list = listed(
        alloc,
        &mut bank,
        labels.as_slice(),
        state.found.as_slice(),
        nothing,
    )?;
    Ok(Conditions {
        bank,
        vars: state.vars,
        list,
    })
}
