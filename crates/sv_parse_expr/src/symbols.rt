//! The symbols of a list of tokens.

ghost use Rattle.std.specs.Prelude.{◌^◌, ◌<◌, length, IfOk};
ghost use Rattle.sv_parse_expr.specs.ExprWords.{Grows, AddsTexts, Show};

use sqlite_items::Items;
use std::alloc::Global;
use sv_lex::Tokens;
use sv_read::{Symbol, class_of};
use sv_text::{Names, NoMemory};

/// The symbols of the tokens. Each text that has no name yet gets one.
pub fn symbols_of(
    alloc: Global,
    tokens: &Tokens<'_>,
    names: &mut Names,
) -> Result<Items<Symbol>, NoMemory>
    requires { length names.old < 2 ^ 31 }
    ensures shown { IfOk result (λ xs. Show names.new xs tokens.now) }
    ensures grows { Grows names.old names.new }
    ensures texts { AddsTexts tokens.now names.old names.new }
{
    let mut symbols = Items::new(alloc);
    for token in tokens.as_slice() {
        let name = names.intern(token.text)?;
        symbols.push(Symbol {
            class: class_of(token.kind, token.text),
            name,
            span: token.span,
            place: token.place,
        })?;
    }
    Ok(symbols)
}
