//! The walk over functions, constructors and modifiers, and over all declarations of a contract.
#![tactic(auto)]

ghost use Rattle.sv_plain.specs.PlainStmts.{plain_block};
ghost use Rattle.sv_book.specs.Visits.{Walked, WalkedIn};
ghost use Rattle.sv_visit_stmt.specs.StmtSites.{block_walk};
ghost use Rattle.sv_visit_decl.specs.DeclSites.{optional_args, head_parts, head_walk, heads_parts, modifier_word_walk, modifier_words_parts, optional_block, function_parts, function_walk, constructor_parts, constructor_walk, special_parts, special_walk, modifier_parts, modifier_walk, part_walk, parts_parts};

use crate::decls::{
    walk_enum, walk_error, walk_event, walk_optional_params, walk_over, walk_params, walk_struct,
    walk_variable,
};
use crate::judge::{FunctionJudge, FunctionNode};
use sv_ast::{
    Args, Block, Ctor, Function, Head, HeadKind, Modifier, ModifierWord, Part, PartKind, Special,
};
use sv_visit::{Judge, walk_args};
use sv_visit_simple::walk_notes;
use sv_visit_stmt::walk_block;

/// Walks over the arguments of a modifier or of a base, if there are any.
pub fn walk_optional_args<J: FunctionJudge>(j: &mut J, a: &Option<Args>) -> Result<(), J::Stop>
    ensures { WalkedIn J.book (optional_args a.now) result (J.state j.old) (J.state j.new) }
{
    match a {
        None => Ok(()),
        Some(args) => walk_args(j, args),
    }
}

fn walk_head_kind<J: FunctionJudge>(j: &mut J, k: &HeadKind) -> Result<(), J::Stop>
    ensures { WalkedIn J.book (head_parts k.now) result (J.state j.old) (J.state j.new) }
{
    match k {
        HeadKind::Public => Ok(()),
        HeadKind::Private => Ok(()),
        HeadKind::Internal => Ok(()),
        HeadKind::External => Ok(()),
        HeadKind::Pure => Ok(()),
        HeadKind::View => Ok(()),
        HeadKind::Payable => Ok(()),
        HeadKind::Virtual => Ok(()),
        HeadKind::Over(o) => walk_over(j, o),
        HeadKind::Use { name: _, args } => walk_optional_args(j, args),
    }
}

fn walk_head<J: FunctionJudge>(j: &mut J, h: &Head) -> Result<(), J::Stop>
    ensures { Walked J.book (head_walk h.now) result (J.state j.old) (J.state j.new) }
{
    let before = j.enter_function(FunctionNode::Head(h))?;
    walk_head_kind(j, &h.kind)?;
    j.leave_function(FunctionNode::Head(h), before)
}

fn walk_heads<J: FunctionJudge>(j: &mut J, list: &[Head]) -> Result<(), J::Stop>
    ensures { WalkedIn J.book (heads_parts list.now) result (J.state j.old) (J.state j.new) }
{
    for h in list {
        walk_head(j, h)?;
    }
    Ok(())
}

fn walk_modifier_word<J: FunctionJudge>(j: &mut J, w: &ModifierWord) -> Result<(), J::Stop>
    ensures { Walked J.book (modifier_word_walk w.now) result (J.state j.old) (J.state j.new) }
{
    match w {
        ModifierWord::Virtual => Ok(()),
        ModifierWord::Over(o) => walk_over(j, o),
    }
}

fn walk_modifier_words<J: FunctionJudge>(j: &mut J, list: &[ModifierWord]) -> Result<(), J::Stop>
    ensures { WalkedIn J.book (modifier_words_parts list.now)
        result (J.state j.old) (J.state j.new) }
{
    for w in list {
        walk_modifier_word(j, w)?;
    }
    Ok(())
}

fn walk_optional_block<J: FunctionJudge>(j: &mut J, b: &Option<Block>) -> Result<(), J::Stop>
    ensures { WalkedIn J.book (optional_block b.now) result (J.state j.old) (J.state j.new) }
{
    match b {
        None => Ok(()),
        Some(b) => walk_block(j, b),
    }
}

fn walk_function_parts<J: FunctionJudge>(j: &mut J, f: &Function) -> Result<(), J::Stop>
    ensures { WalkedIn J.book (function_parts f.now) result (J.state j.old) (J.state j.new) }
{
    walk_params(j, f.params.params.as_slice())?;
    walk_optional_params(j, &f.results)?;
    walk_notes(j, f.notes.as_slice())?;
    walk_heads(j, f.heads.as_slice())?;
    walk_optional_block(j, &f.body)
}

fn walk_function<J: FunctionJudge>(j: &mut J, f: &Function) -> Result<(), J::Stop>
    ensures { Walked J.book (function_walk f.now) result (J.state j.old) (J.state j.new) }
{
    let before = j.enter_function(FunctionNode::Function(f))?;
    walk_function_parts(j, f)?;
    j.leave_function(FunctionNode::Function(f), before)
}

fn walk_constructor_parts<J: FunctionJudge>(j: &mut J, f: &Ctor) -> Result<(), J::Stop>
    ensures { WalkedIn J.book (constructor_parts f.now) result (J.state j.old) (J.state j.new) }
{
    walk_params(j, f.params.params.as_slice())?;
    walk_notes(j, f.notes.as_slice())?;
    walk_heads(j, f.heads.as_slice())?;
    walk_block(j, &f.body)
}

fn walk_constructor<J: FunctionJudge>(j: &mut J, f: &Ctor) -> Result<(), J::Stop>
    ensures { Walked J.book (constructor_walk f.now) result (J.state j.old) (J.state j.new) }
{
    let before = j.enter_function(FunctionNode::Constructor(f))?;
    walk_constructor_parts(j, f)?;
    j.leave_function(FunctionNode::Constructor(f), before)
}

fn walk_special_parts<J: FunctionJudge>(j: &mut J, f: &Special) -> Result<(), J::Stop>
    ensures { WalkedIn J.book (special_parts f.now) result (J.state j.old) (J.state j.new) }
{
    walk_notes(j, f.notes.as_slice())?;
    walk_heads(j, f.heads.as_slice())?;
    walk_block(j, &f.body)
}

fn walk_special<J: FunctionJudge>(j: &mut J, f: &Special) -> Result<(), J::Stop>
    ensures { Walked J.book (special_walk f.now) result (J.state j.old) (J.state j.new) }
{
    let before = j.enter_function(FunctionNode::Special(f))?;
    walk_special_parts(j, f)?;
    j.leave_function(FunctionNode::Special(f), before)
}

fn walk_modifier_parts<J: FunctionJudge>(j: &mut J, m: &Modifier) -> Result<(), J::Stop>
    ensures { WalkedIn J.book (modifier_parts m.now) result (J.state j.old) (J.state j.new) }
{
    walk_optional_params(j, &m.params)?;
    walk_modifier_words(j, m.words.as_slice())?;
    walk_block(j, &m.body)
}

fn walk_modifier<J: FunctionJudge>(j: &mut J, m: &Modifier) -> Result<(), J::Stop>
    ensures { Walked J.book (modifier_walk m.now) result (J.state j.old) (J.state j.new) }
{
    let before = j.enter_function(FunctionNode::Modifier(m))?;
    walk_modifier_parts(j, m)?;
    j.leave_function(FunctionNode::Modifier(m), before)
}

fn walk_part<J: FunctionJudge>(j: &mut J, k: &PartKind) -> Result<(), J::Stop>
    ensures { Walked J.book (part_walk k.now) result (J.state j.old) (J.state j.new) }
{
    match k {
        PartKind::Variable(v) => walk_variable(j, v),
        PartKind::Function(f) => walk_function(j, f),
        PartKind::Ctor(f) => walk_constructor(j, f),
        PartKind::Special(f) => walk_special(j, f),
        PartKind::Modifier(m) => walk_modifier(j, m),
        PartKind::Struct(s) => walk_struct(j, s),
        PartKind::Enum(e) => walk_enum(j, e),
        PartKind::Event(e) => walk_event(j, e),
        PartKind::Error(e) => walk_error(j, e),
    }
}

/// Walks over the declarations of a contract.
pub fn walk_parts<J: FunctionJudge>(j: &mut J, list: &[Part]) -> Result<(), J::Stop>
    ensures { WalkedIn J.book (parts_parts list.now) result (J.state j.old) (J.state j.new) }
{
    for p in list {
        walk_part(j, &p.kind)?;
    }
    Ok(())
}
