//! The parts of a text's tokens as trees.

ghost use Rattle.std.specs.Prelude.{◌≡◌, ◌^◌, ◌<◌, ◌≤◌, length};
ghost use Rattle.sv_parse_expr.specs.ExprWords.{side, Grows, args_tree, expr_tree, type_tree, HasNo, IsDeep, Here, AddsTexts, Answers, place_of_token, AnswersBy, Show, fault_of};
ghost use denote.Ref.{MutBor};
ghost use Rattle.sv_ast.specs.Syntax as g;

use crate::parse_fault::ParseFault;
use crate::reader::{read_args, read_expr, read_type};
use crate::symbols::symbols_of;
use std::alloc::Global;
use sv_ast::{Args, Expr, TypeExpr};
use sv_lex::Tokens;
use sv_read::{Cursor, ParseError, Symbol};
use sv_text::{Names, Place};

/// The place of the token at a position, and the end of the text where there is none.
fn place_of_token(tokens: &Tokens<'_>, at: usize) -> Place
    ensures { result ≡ place_of_token tokens.now at }
{
    if at < tokens.len() {
        tokens.get(at).place
    } else {
        tokens.end()
    }
}

/// The error, with its place.
fn fault_of(tokens: &Tokens<'_>, e: ParseError) -> ParseFault
    ensures { result ≡ fault_of tokens.now e }
{
    match e {
        ParseError::Syntax(at) => ParseFault::Syntax(place_of_token(tokens, at)),
        ParseError::NoMemory => ParseFault::NoMemory,
    }
}

/// What a function reads of the tokens from a position on, and the position behind it.
pub fn parse_by<X: Drop, F: Fn(&mut Cursor<'_>) -> Result<X, ParseError>>(
    alloc: Global,
    tokens: &Tokens<'_>,
    from: usize,
    names: &mut Names,
    read: &F,
) -> Result<(X, usize), ParseFault>
    requires within { from ≤ length tokens.now.list }
    requires room { length names.old < 2 ^ 31 }
    requires callable { (cursor : MutBor Here) → F.pre read.now cursor }
    ensures answers { AnswersBy (F.post read.now) tokens.now from names.new result }
    ensures grows { Grows names.old names.new }
    ensures texts { AddsTexts tokens.now names.old names.new }
{
    let symbols = symbols_of(alloc, tokens, names)?;
    parse_in(alloc, tokens, from, symbols.as_slice(), names, read)
}

fn parse_in<X: Drop, F: Fn(&mut Cursor<'_>) -> Result<X, ParseError>>(
    alloc: Global,
    tokens: &Tokens<'_>,
    from: usize,
    symbols: &[Symbol],
    names: &Names,
    read: &F,
) -> Result<(X, usize), ParseFault>
    requires shown { Show names.now symbols.now tokens.now × (from ≤ length symbols.now) }
    requires callable { (cursor : MutBor Here) → F.pre read.now cursor }
    ensures { AnswersBy (F.post read.now) tokens.now from names.now result }
{
    let mut cursor = Cursor::new(alloc, symbols, names, from);
    match read(&mut cursor) {
        Ok(node) => Ok((node, cursor.at())),
        Err(e) => Err(fault_of(tokens, e)),
    }
}

/// An expression, as `a + b`, of the tokens from a position on, and the position behind it. The fault is at the first token
/// that no expression has there.
pub fn parse_expr(
    alloc: Global,
    tokens: &Tokens<'_>,
    from: usize,
    names: &mut Names,
) -> Result<(Expr, usize), ParseFault>
    requires shallow { HasNo IsDeep tokens.now.list }
    requires within { from ≤ length tokens.now.list }
    requires room { length names.old < 2 ^ 31 }
    ensures answers { Answers expr_tree (side g.expr) tokens.now from names.new result }
    ensures grows { Grows names.old names.new }
    ensures texts { AddsTexts tokens.now names.old names.new }
{
    parse_by(alloc, tokens, from, names, &read_expr)
}

/// A type, as `uint256[3][]`, of the tokens from a position on, and the position behind it.
pub fn parse_type(
    alloc: Global,
    tokens: &Tokens<'_>,
    from: usize,
    names: &mut Names,
) -> Result<(TypeExpr, usize), ParseFault>
    requires shallow { HasNo IsDeep tokens.now.list }
    requires within { from ≤ length tokens.now.list }
    requires room { length names.old < 2 ^ 31 }
    ensures answers { Answers type_tree (side g.type) tokens.now from names.new result }
    ensures grows { Grows names.old names.new }
    ensures texts { AddsTexts tokens.now names.old names.new }
{
    parse_by(alloc, tokens, from, names, &read_type)
}

/// Arguments, as `(a, b)`, of the tokens from a position on, and the position behind them.
pub fn parse_args(
    alloc: Global,
    tokens: &Tokens<'_>,
    from: usize,
    names: &mut Names,
) -> Result<(Args, usize), ParseFault>
    requires shallow { HasNo IsDeep tokens.now.list }
    requires within { from ≤ length tokens.now.list }
    requires room { length names.old < 2 ^ 31 }
    ensures answers { Answers args_tree (side g.args) tokens.now from names.new result }
    ensures grows { Grows names.old names.new }
    ensures texts { AddsTexts tokens.now names.old names.new }
{
    parse_by(alloc, tokens, from, names, &read_args)
}
