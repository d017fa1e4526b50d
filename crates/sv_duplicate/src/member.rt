//! Members of enums, parameters, results and fields.
#![tactic(auto)]

ghost use Rattle.std.specs.Prelude.{◌≡◌};
ghost use Rattle.sv_duplicate.specs.DuplicateMembers.{has_member_twice, has_name, has_twice, names_one, repeats_member};

use sv_decl::{DeclarationKind, Member};
use sv_rival::same_name;
use sv_text::Name;

fn has_name(names: &[Name], n: Name) -> bool
    ensures { result ≡ has_name names.now n }
{
    names.iter().any(|m| m.position() == n.position())
}

fn has_twice(names: &[Name]) -> bool
    ensures { result ≡ has_twice names.now }
{
    let mut rest = names;
    while let Some((n, more)) = rest.split_first() {
        if has_name(more, *n) {
            return true;
        }
        rest = more;
    }
    false
}

/// Whether it is an enum with a member twice.
pub(crate) fn has_member_twice(k: &DeclarationKind) -> bool
    ensures { result ≡ has_member_twice k.now }
{
    match k {
        DeclarationKind::Enum(names) => has_twice(names.as_slice()),
        _ => false,
    }
}

fn names_one(members: &[Member], name: Option<Name>) -> bool
    ensures { result ≡ names_one members.now name }
{
    members.iter().any(|m| same_name(name, m.name))
}

/// Whether the member at this position has the name of an earlier one, or of one of those in `before`: of a result, these are the parameters.
pub fn repeats_member(before: &[Member], members: &[Member], at: usize) -> bool
    ensures { result ≡ repeats_member before.now members.now at }
{
    match members.get(at) {
        None => false,
        Some(m) => names_one(before, m.name) || names_one(&members[..at], m.name),
    }
}
