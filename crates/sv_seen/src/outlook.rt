//! What is seen from a place.
#![tactic(auto)]

ghost use Rattle.std.specs.Prelude.{◌≡◌, IfOk};
ghost use Rattle.sv_seen.specs.NameMeanings.{around, builtin, hides_results, is_annotation, outer, seen, surroundings};

use crate::builtins::is_builtin;
use crate::declared::{in_contract, in_text};
use std::alloc::Global;
use sv_decl::DeclaredText;
use sv_local_names::LocalNames;
use sv_target::Target;
use sv_text::{Name, NoMemory};

/// In what a name stands.
#[derive(Clone, Copy, Debug, PartialEq, Eq)]
pub enum Within {
    Code,
    /// An invariant or a postcondition.
    Annotation,
    /// A precondition, or what a postcondition says of the entry.
    Entry,
}

/// What is around a place.
#[derive(Clone, Copy)]
pub struct Outlook<'a> {
    pub text: &'a DeclaredText,
    /// None outside of all contracts.
    pub contract: Option<u32>,
    /// The contracts whose names the contract sees, the most derived last: its line, or all that it reaches where it has none.
    pub line: &'a [u32],
    pub locals: &'a LocalNames,
    pub within: Within,
}

fn is_annotation(within: Within) -> bool
    ensures { result ≡ is_annotation within }
{
    match within {
        Within::Code => false,
        Within::Annotation => true,
        Within::Entry => true,
    }
}

fn hides_results(within: Within) -> bool
    ensures { result ≡ hides_results within }
{
    match within {
        Within::Code => false,
        Within::Annotation => false,
        Within::Entry => true,
    }
}

fn builtin(within: Within, name: Name, spelling: &[u8]) -> Option<Target>
    ensures { result ≡ builtin within name spelling.now }
{
    if is_builtin(is_annotation(within), spelling) {
        Some(Target::Builtin(name))
    } else {
        None
    }
}

/// What the contract around means by a name.
fn around(alloc: Global, o: Outlook<'_>, name: Name) -> Result<Option<Target>, NoMemory>
    ensures { IfOk result (λ t. t ≡ around (surroundings o.entry) name) }
{
    match o.contract {
        None => Ok(None),
        Some(c) => in_contract(alloc, o.text, o.line, c, name),
    }
}

/// What a name means that no local has.
fn outer(
    alloc: Global,
    o: Outlook<'_>,
    name: Name,
    spelling: &[u8],
) -> Result<Option<Target>, NoMemory>
    ensures { IfOk result (λ t. t ≡ outer (surroundings o.entry) name spelling.now) }
{
    if let Some(t) = around(alloc, o, name)? {
        return Ok(Some(t));
    }
    if let Some(t) = in_text(o.text, name)? {
        return Ok(Some(t));
    }
    Ok(builtin(o.within, name, spelling))
}

/// What a name means at a place: a local, what the contract around sees, what the text declares, or what is built in; none where it is unknown. A result is
/// unknown at the entry, whatever else has its name.
pub fn seen(
    alloc: Global,
    o: Outlook<'_>,
    name: Name,
    spelling: &[u8],
) -> Result<Option<Target>, NoMemory>
    ensures { IfOk result (λ t. t ≡ seen (surroundings o.entry) name spelling.now) }
{
    match o.locals.find(name) {
        None => outer(alloc, o, name, spelling),
        Some(l) => {
            if l.is_result && hides_results(o.within) {
                Ok(None)
            } else {
                Ok(Some(Target::Local(l.number)))
            }
        }
    }
}
