//! The tokens of a text.

ghost use Rattle.sv_lex.specs.Collecting.{IsReady, IsSlice, StandsAt, AddsContent, AddsLine, AddsLines, AddsPiece, AddsText, IsWhole};
ghost use Rattle.sv_lex.specs.Lexing.{Answers};
ghost use Rattle.sv_lex.specs.TextReading.{piece_of};

use crate::collector::Collector;
use crate::documentation::{Documentation, documentation_of, split_line, split_opening};
use crate::fault::{Flaw, LexFault};
use crate::piece::{Cut, Shape, read_piece};
use crate::stop::Stop;
use crate::tok::Tok;
use crate::tokens::Tokens;
use std::alloc::Global;
use sv_text::place_of;

/// The most bytes of a text.
pub const LIMIT: usize = 1_048_576;

/// Adds the tokens of the content of an annotation line, which begins at the offset.
fn add_content(collector: &mut Collector<'_>, at: usize, content: &[u8]) -> Result<(), Stop>
    requires ready { IsReady collector.old.source.now collector.old at }
    requires slice { IsSlice collector.old.source.now at content.now }
    ensures adds { AddsContent at content.now collector.old result collector.new }
{
    let end = at + content.len();
    let mut rest = content;
    while !rest.is_empty() {
        let here = end - rest.len();
        let Cut { shape, rest: after } = match read_piece(rest) {
            Ok(cut) => cut,
            Err(stuck) => return Err(Stop::Fault(stuck.flaw, here + stuck.behind)),
        };
        if let Shape::Token(kind, bytes) = shape {
            collector.push(kind, here, here + bytes.len())?;
        }
        rest = after;
    }
    Ok(())
}

/// Adds the tokens of a documentation line, which begins at the offset.
fn add_line(
    collector: &mut Collector<'_>,
    is_starred: bool,
    at: usize,
    line: &[u8],
) -> Result<(), Stop>
    requires ready { IsReady collector.old.source.now collector.old at }
    requires slice { IsSlice collector.old.source.now at line.now }
    ensures adds { AddsLine is_starred at line.now collector.old result collector.new }
{
    let Some(opening) = split_opening(is_starred, line) else {
        return Ok(());
    };
    let word_at = at + opening.before;
    let word_end = word_at + opening.word.len();
    collector.push(Tok::Note, word_at, word_end)?;
    add_content(collector, word_end + 1, opening.content)?;
    let end = at + line.len();
    collector.push(Tok::End, end, end)?;
    Ok(())
}

/// Adds the tokens of documentation, which begins at the offset.
fn add_lines(
    collector: &mut Collector<'_>,
    is_starred: bool,
    at: usize,
    text: &[u8],
) -> Result<(), Stop>
    requires ready { IsReady collector.old.source.now collector.old at }
    requires slice { IsSlice collector.old.source.now at text.now }
    ensures adds { AddsLines is_starred at text.now collector.old result collector.new }
{
    let end = at + text.len();
    let mut rest = Some(text);
    while let Some(lines) = rest {
        let (line, after) = split_line(lines);
        add_line(collector, is_starred, end - lines.len(), line)?;
        rest = after;
    }
    Ok(())
}

/// Adds the tokens of a piece, which begins at the offset.
fn add_piece(collector: &mut Collector<'_>, at: usize, shape: &Shape<'_>) -> Result<(), Stop>
    requires ready { IsReady collector.old.source.now collector.old at }
    requires stands { StandsAt collector.old.source.now at (piece_of shape.now) }
    ensures adds { AddsPiece at (piece_of shape.now) collector.old result collector.new }
{
    if let Shape::Token(kind, bytes) = shape {
        collector.push(*kind, at, at + bytes.len())?;
        return Ok(());
    }
    match documentation_of(shape) {
        Some(Documentation { text, is_starred }) => add_lines(collector, is_starred, at + 3, text),
        None => Ok(()),
    }
}

/// Adds the tokens of the whole text.
fn add_text(collector: &mut Collector<'_>, text: &[u8]) -> Result<(), Stop>
    requires ready { IsReady text.now collector.old 0 }
    ensures adds { AddsText text.now collector.old result collector.new }
{
    let mut rest = text;
    while !rest.is_empty() {
        let here = text.len() - rest.len();
        let Cut { shape, rest: after } = match read_piece(rest) {
            Ok(cut) => cut,
            Err(stuck) => return Err(Stop::Fault(stuck.flaw, here + stuck.behind)),
        };
        add_piece(collector, here, &shape)?;
        rest = after;
    }
    Ok(())
}

/// The list of the tokens that were collected, or the place of the first that is too many.
fn finished(collector: Collector<'_>) -> Result<Tokens<'_>, LexFault>
    requires { IsWhole collector }
    ensures { Answers collector.entry.source.now result }
{
    match collector.over {
        Some(place) => Err(LexFault::Many(place)),
        None => Ok(Tokens::of(collector.source, collector.tokens)),
    }
}

/// The tokens of a text.
pub fn lex<'a>(alloc: Global, text: &'a [u8]) -> Result<Tokens<'a>, LexFault>
    ensures { Answers text.now result }
{
    if text.len() > LIMIT {
        return Err(LexFault::Long);
    }
    let mut collector = Collector::new(alloc, text);
    match add_text(&mut collector, text) {
        Ok(()) => finished(collector),
        Err(Stop::Fault(Flaw::Char, at)) => Err(LexFault::Char(place_of(text, at as u32))),
        Err(Stop::Fault(Flaw::Unclosed, at)) => Err(LexFault::Unclosed(place_of(text, at as u32))),
        Err(Stop::NoMemory) => Err(LexFault::NoMemory),
    }
}
