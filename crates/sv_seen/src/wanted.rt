//! What a name has to be where it stands.
#![tactic(auto)]

ghost use Rattle.std.specs.Prelude.{◌≡◌, IfOk};
ghost use Rattle.sv_seen.specs.NameMeanings.{fits, fitting, is_type, looked_up, named, surroundings};

use crate::declared::in_text;
use crate::outlook::{Outlook, seen};
use std::alloc::Global;
use sv_target::Target;
use sv_text::{Name, NoMemory};

/// As what something is named.
#[derive(Clone, Copy, Debug, PartialEq, Eq)]
pub enum Wanted {
    /// An operand, which may be anything: what it can't be is a matter of types.
    Operand,
    Type,
    /// A base, in a list of bases or behind a constructor.
    Base,
    /// A contract whose declaration is overridden.
    Contract,
    Modifier,
    Event,
    Error,
}

fn is_type(t: &Target) -> bool
    ensures { result ≡ is_type t.now }
{
    matches!(t, Target::Contract(_) | Target::Named(_))
}

/// Whether what a name means is of the kind that is wanted.
pub fn fits(wanted: Wanted, t: &Target) -> bool
    ensures { result ≡ fits wanted t.now }
{
    match wanted {
        Wanted::Operand => true,
        Wanted::Type => is_type(t),
        Wanted::Base => matches!(t, Target::Contract(_)),
        Wanted::Contract => matches!(t, Target::Contract(_)),
        Wanted::Modifier => matches!(t, Target::Modifier(_)),
        Wanted::Event => matches!(t, Target::Event(_)),
        Wanted::Error => matches!(t, Target::Error(_)),
    }
}

/// What the name means, whatever is wanted; a base is looked for outside of contracts.
fn looked_up(
    alloc: Global,
    o: Outlook<'_>,
    wanted: Wanted,
    name: Name,
    spelling: &[u8],
) -> Result<Option<Target>, NoMemory>
    ensures { IfOk result (λ t. t ≡ looked_up (surroundings o.entry) wanted name spelling.now) }
{
    match wanted {
        Wanted::Base => in_text(o.text, name),
        _ => seen(alloc, o, name, spelling),
    }
}

fn fitting(wanted: Wanted, found: Option<Target>) -> Option<Target>
    ensures { result ≡ fitting wanted found }
{
    match found {
        None => None,
        Some(t) => { if fits(wanted, &t) { Some(t) } else { None } }
    }
}

/// What a name means that stands at a place as what is wanted; none where it is unknown there, or means something of another kind.
pub fn named(
    alloc: Global,
    o: Outlook<'_>,
    wanted: Wanted,
    name: Name,
    spelling: &[u8],
) -> Result<Option<Target>, NoMemory>
    ensures { IfOk result (λ t. t ≡ named (surroundings o.entry) wanted name spelling.now) }
{
    let found = looked_up(alloc, o, wanted, name, spelling)?;
    Ok(fitting(wanted, found))
}
