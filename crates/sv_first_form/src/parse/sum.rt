//! Variables, numbers, sums and equations.
#![tactic(auto, using(crate::proofs::Rules::reading))]

ghost use Rattle.std.specs.Prelude.{◌≡◌, ◌∷◌, ◌≤◌, IfOk, length};
ghost use Rattle.sv_first_form.specs.FormParts.{AreNames, variable_part, number_part, item_part, further_part, further_items, side_part, value_part, equation_part};
ghost use Rattle.sv_first_form.specs.FormReading.{ReadsPart};

use crate::contract::{Equation, Item, Sum};
use crate::form_error::FormError;
use crate::parse::cursor::Cursor;
use crate::parse::number::number_of;
use sqlite_items::Items;
use std::alloc::{AllocError, Global};
use sv_lex::Tok;
use sv_text::Names;

/// A variable, by its place among the names.
pub fn variable(cursor: &mut Cursor<'_, '_>, names: &Names) -> Result<usize, FormError>
    requires { AreNames names.now }
    ensures { ReadsPart (variable_part names.now) cursor.old result cursor.new }
{
    let text = cursor.text(Tok::Word)?;
    match names.find(text.bytes()) {
        Some(name) => Ok(name.position() as usize),
        None => Err(FormError::Unbuilt),
    }
}

fn number(cursor: &mut Cursor<'_, '_>) -> Result<u64, FormError>
    ensures { ReadsPart number_part cursor.old result cursor.new }
{
    let text = cursor.text(Tok::Number)?;
    match number_of(text.bytes()) {
        Some(number) => Ok(number),
        None => Err(FormError::Unbuilt),
    }
}

fn item(cursor: &mut Cursor<'_, '_>, names: &Names) -> Result<Item, FormError>
    requires { AreNames names.now }
    ensures { ReadsPart (item_part names.now) cursor.old result cursor.new }
{
    if cursor.sees_kind(Tok::Word) {
        Ok(Item::Variable(variable(cursor, names)?))
    } else {
        Ok(Item::Number(number(cursor)?))
    }
}

/// An item and the plus before it.
fn further(cursor: &mut Cursor<'_, '_>, names: &Names) -> Result<Item, FormError>
    requires { AreNames names.now }
    ensures { ReadsPart (further_part names.now) cursor.old result cursor.new }
{
    cursor.expect(Tok::Punct, b"+")?;
    item(cursor, names)
}

/// The items after the first, of which a sum has at most three.
fn further_items(
    alloc: Global,
    cursor: &mut Cursor<'_, '_>,
    names: &Names,
) -> Result<Sum, FormError>
    requires { AreNames names.now }
    ensures { ReadsPart (further_items names.now) cursor.old result cursor.new }
{
    let mut items = Items::new(alloc);
    'items: while cursor.sees(Tok::Punct, b"+") {
        let item = further(cursor, names)?;
        items.push(item)?;
    }
    if items.len() > 3 {
        return Err(FormError::Unbuilt);
    }
    Ok(items)
}

/// A sum of these items.
fn sum_of(alloc: Global, first: Item, further: Sum) -> Result<Sum, AllocError>
    ensures { IfOk result (λ sum. sum ≡ first ∷ further) }
{
    let mut sum = Items::new(alloc);
    sum.push(first)?;
    sum.append(further)?;
    Ok(sum)
}

/// A variable and what is added to it.
pub fn side(alloc: Global, cursor: &mut Cursor<'_, '_>, names: &Names) -> Result<Sum, FormError>
    requires { AreNames names.now }
    ensures { ReadsPart (side_part names.now) cursor.old result cursor.new }
{
    let first = variable(cursor, names)?;
    let further = further_items(alloc, cursor, names)?;
    let sum = sum_of(alloc, Item::Variable(first), further)?;
    Ok(sum)
}

/// A side, or a number alone.
pub fn value(alloc: Global, cursor: &mut Cursor<'_, '_>, names: &Names) -> Result<Sum, FormError>
    requires { AreNames names.now }
    ensures { ReadsPart (value_part names.now) cursor.old result cursor.new }
{
    if !cursor.sees_kind(Tok::Number) {
        return side(alloc, cursor, names);
    }
    let number = number(cursor)?;
    let sum = sum_of(alloc, Item::Number(number), Items::new(alloc))?;
    Ok(sum)
}

/// The claim that two sides are equal.
pub fn equation(
    alloc: Global,
    cursor: &mut Cursor<'_, '_>,
    names: &Names,
) -> Result<Equation, FormError>
    requires { AreNames names.now }
    ensures { ReadsPart (equation_part names.now) cursor.old result cursor.new }
{
    let left = side(alloc, cursor, names)?;
    cursor.expect(Tok::Punct, b"==")?;
    let right = side(alloc, cursor, names)?;
    Ok(Equation { left, right })
}
