//! Contracts and the whole text.
#![tactic(auto)]

ghost use Rattle.std.specs.Prelude.{◌≡◌, Some, IfOk};
ghost use Rattle.sv_decl.specs.Declarations.{contract_kind_of, contract_of, declared_text, outside_of, part_kind_of, part_of, standing_of};

use crate::data::{Declaration, DeclaredContract, DeclaredText, Standing};
use crate::gather::{Declares, gather};
use crate::parts::spot_of;
use crate::rows::{
    declare_constant, declare_constructor, declare_enum, declare_error, declare_event,
    declare_function, declare_modifier, declare_special, declare_struct, declare_variable,
};
use std::alloc::Global;
use sv_ast::{ContractKind, Part, PartKind, Unit, UnitItem};
use sv_plain::Spot;
use sv_text::NoMemory;

fn declare_part(alloc: Global, k: &PartKind) -> Result<Declaration, NoMemory>
    ensures { IfOk result (λ r. r ≡ part_kind_of k.now) }
{
    match k {
        PartKind::Variable(v) => declare_variable(alloc, v),
        PartKind::Function(f) => declare_function(alloc, f),
        PartKind::Ctor(f) => declare_constructor(alloc, f),
        PartKind::Special(f) => declare_special(alloc, f),
        PartKind::Modifier(m) => declare_modifier(alloc, m),
        PartKind::Struct(s) => declare_struct(alloc, s),
        PartKind::Enum(e) => declare_enum(alloc, e),
        PartKind::Event(e) => declare_event(alloc, e),
        PartKind::Error(e) => declare_error(alloc, e),
    }
}

impl Declares<Declaration> for Part {
    ghost declared = { part_of };

    fn declare(&self, alloc: Global) -> Result<Option<Declaration>, NoMemory> {
        Ok(Some(declare_part(alloc, &self.kind)?))
    }
}

fn standing_of(is_abstract: bool) -> Standing
    ensures { result ≡ standing_of is_abstract }
{
    if is_abstract {
        Standing::Abstract
    } else {
        Standing::Concrete
    }
}

fn declare_contract(
    alloc: Global,
    spot: Spot,
    k: &ContractKind,
) -> Result<DeclaredContract, NoMemory>
    ensures { IfOk result (λ r. r ≡ contract_kind_of spot k.now) }
{
    match k {
        ContractKind::Contract {
            notes: _,
            is_abstract,
            name,
            bases,
            parts,
        } => Ok(DeclaredContract {
            name: *name,
            standing: standing_of(*is_abstract),
            bases: gather(alloc, bases.bases.as_slice())?,
            declarations: gather(alloc, parts.as_slice())?,
            spot,
        }),
        ContractKind::Interface { name, bases, parts } => Ok(DeclaredContract {
            name: *name,
            standing: Standing::Interface,
            bases: gather(alloc, bases.bases.as_slice())?,
            declarations: gather(alloc, parts.as_slice())?,
            spot,
        }),
    }
}

impl Declares<DeclaredContract> for UnitItem {
    ghost declared = { contract_of };

    fn declare(&self, alloc: Global) -> Result<Option<DeclaredContract>, NoMemory> {
        match self {
            UnitItem::Contract(c) => {
                let spot = spot_of(c.span, c.place);
                Ok(Some(declare_contract(alloc, spot, &c.kind)?))
            }
            UnitItem::Pragma(_) => Ok(None),
            UnitItem::Struct(_) => Ok(None),
            UnitItem::Enum(_) => Ok(None),
            UnitItem::Event(_) => Ok(None),
            UnitItem::Error(_) => Ok(None),
            UnitItem::FileConst(_) => Ok(None),
        }
    }
}

impl Declares<Declaration> for UnitItem {
    ghost declared = { outside_of };

    fn declare(&self, alloc: Global) -> Result<Option<Declaration>, NoMemory> {
        match self {
            UnitItem::Contract(_) => Ok(None),
            UnitItem::Pragma(_) => Ok(None),
            UnitItem::Struct(s) => Ok(Some(declare_struct(alloc, s)?)),
            UnitItem::Enum(e) => Ok(Some(declare_enum(alloc, e)?)),
            UnitItem::Event(e) => Ok(Some(declare_event(alloc, e)?)),
            UnitItem::Error(e) => Ok(Some(declare_error(alloc, e)?)),
            UnitItem::FileConst(c) => Ok(Some(declare_constant(alloc, c)?)),
        }
    }
}

/// What a text declares.
pub fn declared_text(alloc: Global, u: &Unit) -> Result<DeclaredText, NoMemory>
    ensures { IfOk result (λ r. r ≡ declared_text u.now) }
{
    let items = u.items.as_slice();
    let contracts = gather(alloc, items)?;
    let outside = gather(alloc, items)?;
    Ok(DeclaredText { contracts, outside })
}
