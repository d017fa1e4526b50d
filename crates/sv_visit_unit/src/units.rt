//! The walk over contracts and over the whole text.
#![tactic(auto)]

ghost use Rattle.std.specs.Prelude.{◌≡◌, OnOk};
ghost use Rattle.sv_book.specs.Books.{Least, Orders, seen};
ghost use Rattle.sv_book.specs.Visits.{Walked, WalkedIn, begun};
ghost use Rattle.sv_visit_unit.specs.UnitSites.{base_walk, bases_parts, contract_parts, contract_walk, constant_walk, item_walk, items_parts, unit_walk};

use crate::judge::{UnitJudge, UnitNode};
use sv_ast::{Base, Contract, ContractKind, FileConst, Unit, UnitItem};
use sv_plain::view::Node;
use sv_visit::{Judge, Role, walk_expr, walk_type};
use sv_visit_decl::{
    walk_enum, walk_error, walk_event, walk_optional_args, walk_parts, walk_struct,
};
use sv_visit_simple::walk_notes;

fn walk_base<J: UnitJudge>(j: &mut J, b: &Base) -> Result<(), J::Stop>
    ensures { Walked J.book (base_walk b.now) result (J.state j.old) (J.state j.new) }
{
    let before = j.enter_unit(UnitNode::Base(b))?;
    walk_optional_args(j, &b.args)?;
    j.leave_unit(UnitNode::Base(b), before)
}

fn walk_bases<J: UnitJudge>(j: &mut J, list: &[Base]) -> Result<(), J::Stop>
    ensures { WalkedIn J.book (bases_parts list.now) result (J.state j.old) (J.state j.new) }
{
    for b in list {
        walk_base(j, b)?;
    }
    Ok(())
}

fn walk_contract_kind<J: UnitJudge>(j: &mut J, k: &ContractKind) -> Result<(), J::Stop>
    ensures { WalkedIn J.book (contract_parts k.now) result (J.state j.old) (J.state j.new) }
{
    match k {
        ContractKind::Contract {
            notes,
            is_abstract: _,
            name: _,
            bases,
            parts,
        } => {
            walk_notes(j, notes.as_slice())?;
            walk_bases(j, bases.bases.as_slice())?;
            walk_parts(j, parts.as_slice())
        }
        ContractKind::Interface {
            name: _,
            bases,
            parts,
        } => {
            walk_bases(j, bases.bases.as_slice())?;
            walk_parts(j, parts.as_slice())
        }
    }
}

fn walk_contract<J: UnitJudge>(j: &mut J, c: &Contract) -> Result<(), J::Stop>
    ensures { Walked J.book (contract_walk c.now) result (J.state j.old) (J.state j.new) }
{
    let before = j.enter_unit(UnitNode::Contract(c))?;
    walk_contract_kind(j, &c.kind)?;
    j.leave_unit(UnitNode::Contract(c), before)
}

fn walk_constant<J: UnitJudge>(j: &mut J, c: &FileConst) -> Result<(), J::Stop>
    ensures { Walked J.book (constant_walk c.now) result (J.state j.old) (J.state j.new) }
{
    let before = j.enter_unit(UnitNode::Constant(c))?;
    walk_type(j, &c.of_type)?;
    walk_expr(j, Role::Inner, Node::Expr(&c.value))?;
    j.leave_unit(UnitNode::Constant(c), before)
}

fn walk_item<J: UnitJudge>(j: &mut J, i: &UnitItem) -> Result<(), J::Stop>
    ensures { Walked J.book (item_walk i.now) result (J.state j.old) (J.state j.new) }
{
    match i {
        UnitItem::Pragma(_) => Ok(()),
        UnitItem::Contract(c) => walk_contract(j, c),
        UnitItem::Struct(s) => walk_struct(j, s),
        UnitItem::Enum(e) => walk_enum(j, e),
        UnitItem::Event(e) => walk_event(j, e),
        UnitItem::Error(e) => walk_error(j, e),
        UnitItem::FileConst(c) => walk_constant(j, c),
    }
}

fn walk_items<J: UnitJudge>(j: &mut J, list: &[UnitItem]) -> Result<(), J::Stop>
    ensures { WalkedIn J.book (items_parts list.now) result (J.state j.old) (J.state j.new) }
{
    for i in list {
        walk_item(j, i)?;
    }
    Ok(())
}

/// Walks over a text.
pub fn walk_unit<J: UnitJudge>(j: &mut J, u: &Unit) -> Result<(), J::Stop>
    ensures { Walked J.book (unit_walk u.now) result (J.state j.old) (J.state j.new) }
{
    let before = j.enter_unit(UnitNode::Text(u))?;
    walk_items(j, u.items.as_slice())?;
    j.leave_unit(UnitNode::Text(u), before)
}

/// Asks a group of rules of a text: whoever began before anything was broken has kept the fault that counts, or none.
pub fn ask_unit<J: UnitJudge>(j: &mut J, u: &Unit) -> Result<(), J::Stop>
    requires orders { Orders J.book.table.first }
    requires begins { J.state j.old ≡ begun (J.state j.old).known }
    ensures least { OnOk result (Least J.book.table (seen J.book (J.state j.old).known (unit_walk u.now)) (J.state j.new).least) }
    ensures walked { Walked J.book (unit_walk u.now) result (J.state j.old) (J.state j.new) }
{
    walk_unit(j, u)
}
