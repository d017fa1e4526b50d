//! The annotation lines of a text's tokens as trees.

ghost use Rattle.std.specs.Prelude.{◌^◌, ◌<◌, ◌≤◌, length, map};
ghost use Rattle.sv_grammar.specs.Grammar.{side, star};
ghost use Rattle.sv_grammar.specs.Named.{Grows};
ghost use Rattle.sv_grammar.specs.ListTrees.{list_tree};
ghost use Rattle.sv_ast.specs.Syntax as g;
ghost use Rattle.sv_ast.specs.SimpleTrees.{note_tree};
ghost use Rattle.sv_lex.specs.Limits.{HasNo, IsDeep};
ghost use Rattle.sv_parse_expr.specs.Answers.{AddsTexts, Answers};

use crate::lines::note_lines;
use sqlite_items::Items;
use std::alloc::Global;
use sv_ast::Note;
use sv_lex::Tokens;
use sv_parse_expr::{ParseFault, parse_by};
use sv_text::Names;

/// The annotation lines of the tokens from a position on, as many as there are, and the position behind them. The fault is at
/// the first token with which no annotation line goes on.
pub fn read_notes(
    alloc: Global,
    tokens: &Tokens<'_>,
    from: usize,
    names: &mut Names,
) -> Result<(Items<Note>, usize), ParseFault>
    requires shallow { HasNo IsDeep tokens.now.list }
    requires within { from ≤ length tokens.now.list }
    requires room { length names.old < 2 ^ 31 }
    ensures answers { Answers (λ ns. list_tree (map note_tree ns)) (star (side g.note_line)) tokens.now from names.new result }
    ensures grows { Grows names.old names.new }
    ensures texts { AddsTexts tokens.now names.old names.new }
{
    parse_by(alloc, tokens, from, names, &note_lines)
}
