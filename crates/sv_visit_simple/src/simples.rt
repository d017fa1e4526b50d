//! The walk over annotations and over statements that end with `;`.
#![tactic(auto)]

ghost use Rattle.std.specs.Prelude.{[], ◌∷◌};
ghost use Rattle.sv_book.specs.Visits.{Walked, WalkedIn};
ghost use Rattle.sv_visit_simple.specs.SimpleSites.{inner_walk, optional_parts, all_parts, note_walk, notes_parts, decl_parts, decl_walk, assigned_parts, action_parts, action_walk, optional_action, start_walk, slot_parts, slot_walk, slots_parts, returned_parts, simple_parts, simple_walk, bare_walk};

use crate::judge::{SimpleJudge, SimpleNode};
use sv_ast::{
    Action, ActionKind, Assignment, Decl, Expr, ForStart, Note, Returned, Simple, SimpleKind, Slot,
    SlotKind,
};
use sv_plain::view::Node;
use sv_visit::{Judge, Role, walk_args, walk_expr, walk_type};

fn walk_inner<J: SimpleJudge>(j: &mut J, e: &Expr) -> Result<(), J::Stop>
    ensures { Walked J.book (inner_walk e.now) result (J.state j.old) (J.state j.new) }
{
    walk_expr(j, Role::Inner, Node::Expr(e))
}

pub fn walk_optional<J: SimpleJudge>(j: &mut J, e: &Option<Expr>) -> Result<(), J::Stop>
    ensures { WalkedIn J.book (optional_parts e.now) result (J.state j.old) (J.state j.new) }
{
    match e {
        None => Ok(()),
        Some(e) => walk_inner(j, e),
    }
}

fn walk_all<J: SimpleJudge>(j: &mut J, list: &[Expr]) -> Result<(), J::Stop>
    ensures { WalkedIn J.book (all_parts list.now) result (J.state j.old) (J.state j.new) }
{
    for e in list {
        walk_inner(j, e)?;
    }
    Ok(())
}

/// Walks over an annotation.
pub fn walk_note<J: SimpleJudge>(j: &mut J, n: &Note) -> Result<(), J::Stop>
    ensures { Walked J.book (note_walk n.now) result (J.state j.old) (J.state j.new) }
{
    let before = j.enter_simple(SimpleNode::Note(n))?;
    walk_inner(j, &n.expr)?;
    j.leave_simple(SimpleNode::Note(n), before)
}

pub fn walk_notes<J: SimpleJudge>(j: &mut J, list: &[Note]) -> Result<(), J::Stop>
    ensures { WalkedIn J.book (notes_parts list.now) result (J.state j.old) (J.state j.new) }
{
    for n in list {
        walk_note(j, n)?;
    }
    Ok(())
}

fn walk_decl<J: SimpleJudge>(j: &mut J, d: &Decl) -> Result<(), J::Stop>
    ensures { Walked J.book (decl_walk d.now) result (J.state j.old) (J.state j.new) }
{
    let before = j.enter_simple(SimpleNode::Decl(d))?;
    walk_type(j, &d.of_type)?;
    walk_optional(j, &d.value)?;
    j.leave_simple(SimpleNode::Decl(d), before)
}

fn walk_assigned<J: SimpleJudge>(j: &mut J, e: &Expr, a: &Option<Assignment>) -> Result<(), J::Stop>
    ensures { WalkedIn J.book (assigned_parts e.now a.now) result (J.state j.old) (J.state j.new) }
{
    match a {
        None => walk_expr(j, Role::Statement, Node::Expr(e)),
        Some(a) => walk_both(j, e, &a.value),
    }
}

fn walk_both<J: SimpleJudge>(j: &mut J, a: &Expr, b: &Expr) -> Result<(), J::Stop>
    ensures { WalkedIn J.book (all_parts (a.now ∷ b.now ∷ []))
        result (J.state j.old) (J.state j.new) }
{
    walk_inner(j, a)?;
    walk_inner(j, b)
}

fn walk_action_kind<J: SimpleJudge>(j: &mut J, a: &ActionKind) -> Result<(), J::Stop>
    ensures { WalkedIn J.book (action_parts a.now) result (J.state j.old) (J.state j.new) }
{
    match a {
        ActionKind::Delete(e) => walk_inner(j, e),
        ActionKind::Expr { target, assignment } => walk_assigned(j, target, assignment),
    }
}

fn walk_action<J: SimpleJudge>(j: &mut J, a: &Action) -> Result<(), J::Stop>
    ensures { Walked J.book (action_walk a.now) result (J.state j.old) (J.state j.new) }
{
    let before = j.enter_simple(SimpleNode::Action(a))?;
    walk_action_kind(j, &a.kind)?;
    j.leave_simple(SimpleNode::Action(a), before)
}

pub fn walk_step<J: SimpleJudge>(j: &mut J, a: &Option<Action>) -> Result<(), J::Stop>
    ensures { Walked J.book (optional_action a.now) result (J.state j.old) (J.state j.new) }
{
    match a {
        None => Ok(()),
        Some(a) => walk_action(j, a),
    }
}

pub fn walk_start<J: SimpleJudge>(j: &mut J, s: &Option<ForStart>) -> Result<(), J::Stop>
    ensures { Walked J.book (start_walk s.now) result (J.state j.old) (J.state j.new) }
{
    match s {
        None => Ok(()),
        Some(ForStart::Decl(d)) => walk_decl(j, d),
        Some(ForStart::Action(a)) => walk_action(j, a),
    }
}

fn walk_slot_kind<J: SimpleJudge>(j: &mut J, s: &Option<SlotKind>) -> Result<(), J::Stop>
    ensures { WalkedIn J.book (slot_parts s.now) result (J.state j.old) (J.state j.new) }
{
    match s {
        None => Ok(()),
        Some(
            SlotKind::Decl {
                of_type,
                location: _,
                name: _,
            },
        ) => walk_type(j, of_type),
        Some(SlotKind::Name(_)) => Ok(()),
    }
}

fn walk_slot<J: SimpleJudge>(j: &mut J, s: &Slot) -> Result<(), J::Stop>
    ensures { Walked J.book (slot_walk s.now) result (J.state j.old) (J.state j.new) }
{
    let before = j.enter_simple(SimpleNode::Slot(s))?;
    walk_slot_kind(j, &s.kind)?;
    j.leave_simple(SimpleNode::Slot(s), before)
}

fn walk_slots<J: SimpleJudge>(j: &mut J, list: &[Slot]) -> Result<(), J::Stop>
    ensures { WalkedIn J.book (slots_parts list.now) result (J.state j.old) (J.state j.new) }
{
    for s in list {
        walk_slot(j, s)?;
    }
    Ok(())
}

fn walk_returned<J: SimpleJudge>(j: &mut J, r: &Option<Returned>) -> Result<(), J::Stop>
    ensures { WalkedIn J.book (returned_parts r.now) result (J.state j.old) (J.state j.new) }
{
    match r {
        None => Ok(()),
        Some(Returned::One(e)) => walk_inner(j, e),
        Some(Returned::Many(es)) => walk_all(j, es.as_slice()),
    }
}

fn walk_simple_kind<J: SimpleJudge>(j: &mut J, s: &SimpleKind) -> Result<(), J::Stop>
    ensures { WalkedIn J.book (simple_parts s.now) result (J.state j.old) (J.state j.new) }
{
    match s {
        SimpleKind::Decl(d) => walk_decl(j, d),
        SimpleKind::Tuple(t) => {
            walk_inner(j, &t.value)?;
            walk_slots(j, t.slots.as_slice())
        }
        SimpleKind::Action(a) => walk_action(j, a),
        SimpleKind::Return(r) => walk_returned(j, &r.values),
        SimpleKind::Break => Ok(()),
        SimpleKind::Continue => Ok(()),
        SimpleKind::Rest => Ok(()),
        SimpleKind::Emit { event: _, args } => walk_args(j, args),
        SimpleKind::Revert { error: _, args } => walk_args(j, args),
    }
}

/// Walks over a statement that ends with `;`.
pub fn walk_simple<J: SimpleJudge>(j: &mut J, s: &Simple) -> Result<(), J::Stop>
    ensures { Walked J.book (simple_walk s.now) result (J.state j.old) (J.state j.new) }
{
    let before = j.enter_simple(SimpleNode::Simple(s))?;
    walk_simple_kind(j, &s.kind)?;
    j.leave_simple(SimpleNode::Simple(s), before)
}

pub fn walk_bare<J: SimpleJudge>(j: &mut J, s: &Simple) -> Result<(), J::Stop>
    ensures { Walked J.book (bare_walk s.now) result (J.state j.old) (J.state j.new) }
{
    let before = j.enter_simple(SimpleNode::Bare(s))?;
    walk_simple(j, s)?;
    j.leave_simple(SimpleNode::Bare(s), before)
}
