//! The walk over variables, structs, enums, events, errors and parameters.
#![tactic(auto)]

ghost use Rattle.sv_book.specs.Visits.{Walked, WalkedIn};
ghost use Rattle.sv_visit_decl.specs.DeclSites.{field_walk, fields_parts, struct_walk, enum_walk, event_param_walk, event_params_parts, event_walk, error_param_walk, error_params_parts, error_walk, plain_word_walk, word_walk, words_parts, over_walk, variable_walk, param_walk, params_parts, optional_params};

use crate::judge::{DeclJudge, DeclNode};
use sv_ast::{
    Enum, ErPar, Error, EvPar, Event, Field, Over, Param, Params, Struct, VarWord, Variable,
    VariableWord,
};
use sv_visit::{Judge, walk_type};
use sv_visit_simple::walk_optional;

fn walk_field<J: DeclJudge>(j: &mut J, f: &Field) -> Result<(), J::Stop>
    ensures { Walked J.book (field_walk f.now) result (J.state j.old) (J.state j.new) }
{
    let before = j.enter_decl(DeclNode::Field(f))?;
    walk_type(j, &f.of_type)?;
    j.leave_decl(DeclNode::Field(f), before)
}

fn walk_fields<J: DeclJudge>(j: &mut J, list: &[Field]) -> Result<(), J::Stop>
    ensures { WalkedIn J.book (fields_parts list.now) result (J.state j.old) (J.state j.new) }
{
    for f in list {
        walk_field(j, f)?;
    }
    Ok(())
}

/// Walks over a struct.
pub fn walk_struct<J: DeclJudge>(j: &mut J, s: &Struct) -> Result<(), J::Stop>
    ensures { Walked J.book (struct_walk s.now) result (J.state j.old) (J.state j.new) }
{
    let before = j.enter_decl(DeclNode::Struct(s))?;
    walk_fields(j, s.fields.as_slice())?;
    j.leave_decl(DeclNode::Struct(s), before)
}

/// Walks over an enum.
pub fn walk_enum<J: DeclJudge>(j: &mut J, e: &Enum) -> Result<(), J::Stop>
    ensures { Walked J.book (enum_walk e.now) result (J.state j.old) (J.state j.new) }
{
    let before = j.enter_decl(DeclNode::Enum(e))?;
    j.leave_decl(DeclNode::Enum(e), before)
}

fn walk_event_param<J: DeclJudge>(j: &mut J, p: &EvPar) -> Result<(), J::Stop>
    ensures { Walked J.book (event_param_walk p.now) result (J.state j.old) (J.state j.new) }
{
    let before = j.enter_decl(DeclNode::EventParam(p))?;
    walk_type(j, &p.of_type)?;
    j.leave_decl(DeclNode::EventParam(p), before)
}

fn walk_event_params<J: DeclJudge>(j: &mut J, list: &[EvPar]) -> Result<(), J::Stop>
    ensures { WalkedIn J.book (event_params_parts list.now)
        result (J.state j.old) (J.state j.new) }
{
    for p in list {
        walk_event_param(j, p)?;
    }
    Ok(())
}

/// Walks over an event.
pub fn walk_event<J: DeclJudge>(j: &mut J, e: &Event) -> Result<(), J::Stop>
    ensures { Walked J.book (event_walk e.now) result (J.state j.old) (J.state j.new) }
{
    let before = j.enter_decl(DeclNode::Event(e))?;
    walk_event_params(j, e.params.as_slice())?;
    j.leave_decl(DeclNode::Event(e), before)
}

fn walk_error_param<J: DeclJudge>(j: &mut J, p: &ErPar) -> Result<(), J::Stop>
    ensures { Walked J.book (error_param_walk p.now) result (J.state j.old) (J.state j.new) }
{
    let before = j.enter_decl(DeclNode::ErrorParam(p))?;
    walk_type(j, &p.of_type)?;
    j.leave_decl(DeclNode::ErrorParam(p), before)
}

fn walk_error_params<J: DeclJudge>(j: &mut J, list: &[ErPar]) -> Result<(), J::Stop>
    ensures { WalkedIn J.book (error_params_parts list.now)
        result (J.state j.old) (J.state j.new) }
{
    for p in list {
        walk_error_param(j, p)?;
    }
    Ok(())
}

/// Walks over an error.
pub fn walk_error<J: DeclJudge>(j: &mut J, e: &Error) -> Result<(), J::Stop>
    ensures { Walked J.book (error_walk e.now) result (J.state j.old) (J.state j.new) }
{
    let before = j.enter_decl(DeclNode::Error(e))?;
    walk_error_params(j, e.params.as_slice())?;
    j.leave_decl(DeclNode::Error(e), before)
}

pub fn walk_over<J: DeclJudge>(j: &mut J, o: &Over) -> Result<(), J::Stop>
    ensures { Walked J.book (over_walk o.now) result (J.state j.old) (J.state j.new) }
{
    let before = j.enter_decl(DeclNode::Over(o))?;
    j.leave_decl(DeclNode::Over(o), before)
}

fn walk_plain_word<J: DeclJudge>(j: &mut J, w: &VarWord) -> Result<(), J::Stop>
    ensures { Walked J.book (plain_word_walk w.now) result (J.state j.old) (J.state j.new) }
{
    let before = j.enter_decl(DeclNode::Word(w))?;
    j.leave_decl(DeclNode::Word(w), before)
}

fn walk_word<J: DeclJudge>(j: &mut J, w: &VariableWord) -> Result<(), J::Stop>
    ensures { Walked J.book (word_walk w.now) result (J.state j.old) (J.state j.new) }
{
    match w {
        VariableWord::Word(w) => walk_plain_word(j, w),
        VariableWord::Over(o) => walk_over(j, o),
    }
}

fn walk_words<J: DeclJudge>(j: &mut J, list: &[VariableWord]) -> Result<(), J::Stop>
    ensures { WalkedIn J.book (words_parts list.now) result (J.state j.old) (J.state j.new) }
{
    for w in list {
        walk_word(j, w)?;
    }
    Ok(())
}

/// Walks over a state variable or a constant of a contract.
pub fn walk_variable<J: DeclJudge>(j: &mut J, v: &Variable) -> Result<(), J::Stop>
    ensures { Walked J.book (variable_walk v.now) result (J.state j.old) (J.state j.new) }
{
    let before = j.enter_decl(DeclNode::Variable(v))?;
    walk_type(j, &v.of_type)?;
    walk_words(j, v.words.as_slice())?;
    walk_optional(j, &v.value)?;
    j.leave_decl(DeclNode::Variable(v), before)
}

fn walk_param<J: DeclJudge>(j: &mut J, p: &Param) -> Result<(), J::Stop>
    ensures { Walked J.book (param_walk p.now) result (J.state j.old) (J.state j.new) }
{
    let before = j.enter_decl(DeclNode::Param(p))?;
    walk_type(j, &p.of_type)?;
    j.leave_decl(DeclNode::Param(p), before)
}

pub fn walk_params<J: DeclJudge>(j: &mut J, list: &[Param]) -> Result<(), J::Stop>
    ensures { WalkedIn J.book (params_parts list.now) result (J.state j.old) (J.state j.new) }
{
    for p in list {
        walk_param(j, p)?;
    }
    Ok(())
}

pub fn walk_optional_params<J: DeclJudge>(j: &mut J, p: &Option<Params>) -> Result<(), J::Stop>
    ensures { WalkedIn J.book (optional_params p.now) result (J.state j.old) (J.state j.new) }
{
    match p {
        None => Ok(()),
        Some(p) => walk_params(j, p.params.as_slice()),
    }
}
