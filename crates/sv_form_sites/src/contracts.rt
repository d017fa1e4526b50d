//! What contracts are.
#![tactic(auto)]

ghost use Rattle.std.specs.Prelude.{◌≡◌};
ghost use Rattle.sv_form_book.specs.FormBases.{name_of, bases_of};
ghost use Rattle.sv_form_book.specs.FormKnown.{is_interface};
ghost use Rattle.sv_form_book.specs.FormRules.{is_whole_kind, is_whole, any_whole};

use sv_ast::{Base, ContractKind, UnitItem};
use sv_text::Name;

/// The name of a contract or an interface.
pub fn name_of(k: &ContractKind) -> Name
    ensures { result ≡ name_of k.now }
{
    match k {
        ContractKind::Contract {
            notes: _,
            is_abstract: _,
            name,
            bases: _,
            parts: _,
        } => *name,
        ContractKind::Interface {
            name,
            bases: _,
            parts: _,
        } => *name,
    }
}

/// The list of bases of a contract or an interface.
pub fn bases_of(k: &ContractKind) -> &[Base]
    ensures { result.now ≡ bases_of k.now }
{
    match k {
        ContractKind::Contract {
            notes: _,
            is_abstract: _,
            name: _,
            bases,
            parts: _,
        } => bases.bases.as_slice(),
        ContractKind::Interface {
            name: _,
            bases,
            parts: _,
        } => bases.bases.as_slice(),
    }
}

/// Whether it is an interface.
pub fn is_interface(k: &ContractKind) -> bool
    ensures { result ≡ is_interface k.now }
{
    match k {
        ContractKind::Contract {
            notes: _,
            is_abstract: _,
            name: _,
            bases: _,
            parts: _,
        } => false,
        ContractKind::Interface {
            name: _,
            bases: _,
            parts: _,
        } => true,
    }
}

fn is_whole_kind(k: &ContractKind) -> bool
    ensures { result ≡ is_whole_kind k.now }
{
    match k {
        ContractKind::Contract {
            notes: _,
            is_abstract,
            name: _,
            bases: _,
            parts: _,
        } => !*is_abstract,
        ContractKind::Interface {
            name: _,
            bases: _,
            parts: _,
        } => false,
    }
}

fn is_whole(i: &UnitItem) -> bool
    ensures { result ≡ is_whole i.now }
{
    match i {
        UnitItem::Contract(c) => is_whole_kind(&c.kind),
        _ => false,
    }
}

/// Whether some contract is neither abstract nor an interface.
pub fn any_whole(items: &[UnitItem]) -> bool
    ensures { result ≡ any_whole items.now }
{
    let mut left = items;
    'items: while let Some((i, more)) = left.split_first() {
        if is_whole(i) {
            return true;
        }
        left = more;
    }
    false
}
