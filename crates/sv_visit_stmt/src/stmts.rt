//! The walk over statements.
#![tactic(auto)]

ghost use Rattle.sv_plain.specs.PlainStmts.{plain_stmt, plain_stmt_kind, plain_block, plain_body, plain_else, plain_else_if, plain_if, plain_while, plain_for};
ghost use Rattle.sv_book.specs.Visits.{Walked, WalkedIn};
ghost use Rattle.sv_visit_stmt.specs.StmtSites.{stmt_walk, stmt_parts, block_walk, stmt_list, body_walk, branch_walk, branch_list, otherwise_walk, guarded_parts};

use crate::judge::{StmtJudge, StmtNode};
use sv_ast::{Block, Body, BodyKind, Else, ElseIf, Expr, For, If, Stmt, StmtKind, While};
use sv_plain::view::Node;
use sv_visit::{Judge, Role, walk_expr};
use sv_visit_simple::{walk_bare, walk_notes, walk_optional, walk_simple, walk_start, walk_step};

/// Walks over a statement.
#[cycle(stating)]
pub fn walk_stmt<J: StmtJudge>(j: &mut J, s: &Stmt) -> Result<(), J::Stop>
    ensures { Walked J.book (stmt_walk (plain_stmt s.now)) result (J.state j.old) (J.state j.new) }
{
    let before = j.enter_stmt(StmtNode::Stmt(s))?;
    walk_stmt_kind(j, &s.kind)?;
    j.leave_stmt(StmtNode::Stmt(s), before)
}

#[cycle(stating)]
fn walk_stmt_kind<J: StmtJudge>(j: &mut J, k: &StmtKind) -> Result<(), J::Stop>
    ensures { WalkedIn J.book (stmt_parts (plain_stmt_kind k.now))
        result (J.state j.old) (J.state j.new) }
{
    match k {
        StmtKind::Block(b) => walk_block(j, b),
        StmtKind::Unchecked(b) => walk_block(j, b),
        StmtKind::Simple(s) => walk_simple(j, s),
        StmtKind::If(s) => walk_if(j, s),
        StmtKind::While(s) => walk_while(j, s),
        StmtKind::For(s) => walk_for(j, s),
    }
}

/// Walks over a block.
#[cycle(stating)]
pub fn walk_block<J: StmtJudge>(j: &mut J, b: &Block) -> Result<(), J::Stop>
    ensures { Walked J.book (block_walk (plain_block b.now))
        result (J.state j.old) (J.state j.new) }
{
    let before = j.enter_stmt(StmtNode::Block(b))?;
    walk_stmts(j, b.stmts.as_slice())?;
    j.leave_stmt(StmtNode::Block(b), before)
}

#[cycle(stating)]
fn walk_stmts<J: StmtJudge>(j: &mut J, list: &[Stmt]) -> Result<(), J::Stop>
    ensures { WalkedIn J.book (stmt_list list.now) result (J.state j.old) (J.state j.new) }
{
    for s in list {
        walk_stmt(j, s)?;
    }
    Ok(())
}

#[cycle(stating)]
fn walk_body<J: StmtJudge>(j: &mut J, b: &Body) -> Result<(), J::Stop>
    ensures { Walked J.book (body_walk (plain_body b.now)) result (J.state j.old) (J.state j.new) }
{
    match &b.kind {
        BodyKind::Block(b) => walk_block(j, b),
        BodyKind::Simple(s) => walk_bare(j, s),
    }
}

#[cycle(stating)]
fn walk_guarded<J: StmtJudge>(j: &mut J, b: &Body, e: &Expr) -> Result<(), J::Stop>
    ensures { WalkedIn J.book (guarded_parts e.now b.now) result (J.state j.old) (J.state j.new) }
{
    walk_expr(j, Role::Inner, Node::Expr(e))?;
    walk_body(j, b)
}

#[cycle(stating)]
fn walk_branch<J: StmtJudge>(j: &mut J, b: &ElseIf) -> Result<(), J::Stop>
    ensures { Walked J.book (branch_walk (plain_else_if b.now))
        result (J.state j.old) (J.state j.new) }
{
    walk_guarded(j, &b.body, &b.condition)
}

#[cycle(stating)]
fn walk_branches<J: StmtJudge>(j: &mut J, list: &[ElseIf]) -> Result<(), J::Stop>
    ensures { WalkedIn J.book (branch_list list.now) result (J.state j.old) (J.state j.new) }
{
    for b in list {
        walk_branch(j, b)?;
    }
    Ok(())
}

#[cycle(stating)]
fn walk_else<J: StmtJudge>(j: &mut J, b: &Else) -> Result<(), J::Stop>
    ensures { Walked J.book (otherwise_walk (plain_else b.now))
        result (J.state j.old) (J.state j.new) }
{
    walk_body(j, &b.body)
}

#[cycle(stating)]
fn walk_if<J: StmtJudge>(j: &mut J, s: &If) -> Result<(), J::Stop>
    ensures { WalkedIn J.book (stmt_parts (plain_if s.now)) result (J.state j.old) (J.state j.new) }
{
    walk_guarded(j, &s.body, &s.condition)?;
    walk_branches(j, s.else_ifs.as_slice())?;
    match &s.otherwise {
        None => Ok(()),
        Some(e) => walk_else(j, e),
    }
}

#[cycle(stating)]
fn walk_while<J: StmtJudge>(j: &mut J, s: &While) -> Result<(), J::Stop>
    ensures { WalkedIn J.book (stmt_parts (plain_while s.now))
        result (J.state j.old) (J.state j.new) }
{
    walk_notes(j, s.notes.as_slice())?;
    walk_guarded(j, &s.body, &s.condition)
}

#[cycle(stating)]
fn walk_for<J: StmtJudge>(j: &mut J, s: &For) -> Result<(), J::Stop>
    ensures { WalkedIn J.book (stmt_parts (plain_for s.now))
        result (J.state j.old) (J.state j.new) }
{
    walk_start(j, &s.start)?;
    walk_notes(j, s.notes.as_slice())?;
    walk_optional(j, &s.condition)?;
    walk_step(j, &s.step)?;
    walk_body(j, &s.body)
}
