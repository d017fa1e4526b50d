//! The tokens of a text as a tree.

ghost use Rattle.std.specs.Prelude.{◌≡◌, ◌^◌, ◌<◌, ◌≤◌, length, IfOk, IfErr};
ghost use Rattle.sv_parse_unit.specs.UnitWords.{side, Grows, unit_tree, HasNo, IsDeep, Reads, AddsTexts, place_of_token, Syntax, AnswersUnit};
ghost use Rattle.sv_ast.specs.Syntax as g;

use crate::reader::Units;
use std::alloc::Global;
use sv_ast::Unit;
use sv_lex::Tokens;
use sv_parse_expr::{ParseFault, parse_by};
use sv_read::{Cursor, Parse, ParseError};
use sv_text::Names;

/// The tree of all tokens. The fault is at the first token such that the tokens up to and including it begin no text that has a
/// tree, and at the end of the text where all of them begin one.
pub fn parse_unit(alloc: Global, tokens: &Tokens<'_>, names: &mut Names) -> Result<Unit, ParseFault>
    requires shallow { HasNo IsDeep tokens.now.list }
    requires room { length names.old < 2 ^ 31 }
    ensures answers { AnswersUnit tokens.now names.new result }
    ensures grows { Grows names.old names.new }
    ensures texts { AddsTexts tokens.now names.old names.new }
{
    match parse_by(alloc, tokens, 0, names, &read_unit) {
        Ok((unit, to)) => whole(tokens, unit, to),
        Err(fault) => Err(fault),
    }
}

/// As many contracts and other items as there are.
fn read_unit(cursor: &mut Cursor<'_>) -> Result<Unit, ParseError>
    ensures { Reads unit_tree (side g.unit) cursor.old result cursor.new }
{
    Parse::parse(&Units, cursor)
}

/// What was read up to a position, if no token is left there.
fn whole<X: Drop>(tokens: &Tokens<'_>, read: X, to: usize) -> Result<X, ParseFault>
    ensures ok { IfOk result (λ x. (x ≡ read) × (length tokens.now.list ≤ to)) }
    ensures left { IfErr result (λ _. to < length tokens.now.list) }
    ensures err { IfErr result (λ e. e ≡ Syntax (place_of_token tokens.now to)) }
{
    if to < tokens.len() {
        return Err(ParseFault::Syntax(tokens.get(to).place));
    }
    Ok(read)
}
