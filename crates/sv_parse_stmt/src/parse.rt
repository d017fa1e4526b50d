//! A statement of a text's tokens as a tree.
#![tactic(auto, using(sv_read::proofs::Reading::fails_memory))]

ghost use Rattle.std.specs.Prelude.{◌^◌, ◌<◌, ◌≤◌, length};
ghost use Rattle.sv_parse_stmt.specs.StmtWords.{side, Grows, stmt_tree, HasNo, IsDeep, AddsTexts, Answers};
ghost use Rattle.sv_ast.specs.Syntax as g;

use crate::reader::read_stmt;
use std::alloc::Global;
use sv_ast::Stmt;
use sv_lex::Tokens;
use sv_parse_expr::{ParseFault, parse_by};
use sv_text::Names;

/// A statement, as `a = b;`, of the tokens from a position on, and the position behind it. The fault is at the first token with
/// which no statement goes on.
pub fn parse_stmt(
    alloc: Global,
    tokens: &Tokens<'_>,
    from: usize,
    names: &mut Names,
) -> Result<(Stmt, usize), ParseFault>
    requires shallow { HasNo IsDeep tokens.now.list }
    requires within { from ≤ length tokens.now.list }
    requires room { length names.old < 2 ^ 31 }
    ensures answers { Answers stmt_tree (side g.stmt) tokens.now from names.new result }
    ensures grows { Grows names.old names.new }
    ensures texts { AddsTexts tokens.now names.old names.new }
{
    parse_by(alloc, tokens, from, names, &read_stmt)
}
