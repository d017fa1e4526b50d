//! Types as lists of their pieces.
#![tactic(auto)]

ghost use Rattle.std.specs.Prelude.{◌≡◌, ◌++◌, map, IfOk, OnOk};
ghost use Rattle.sv_plain.specs.PlainExprs.{lengths};
ghost use Rattle.sv_plain.specs.ExprFolds.{plain_expr, plain_dimension, plain_plain_kind, plain_type_expr};
ghost use Rattle.sv_decl.specs.TypePieces.{bracket, brackets, expr_span, parts_pieces, last_piece, type_pieces};

use crate::data::TypePiece;
use sqlite_items::Items;
use std::alloc::Global;
use sv_ast::{Dimension, Expr, PlainKind, TypeExpr};
use sv_plain::view::Node;
use sv_text::{NoMemory, Span};

/// The bytes of an expression.
pub fn span_of(e: &Expr) -> Span
    ensures { result ≡ expr_span (plain_expr e.now) }
{
    Node::Expr(e).view().spot.span
}

/// The brackets of an array.
fn bracket(d: &Dimension) -> TypePiece
    ensures { result ≡ bracket (plain_dimension d.now) }
{
    match &d.length {
        None => TypePiece::Dynamic,
        Some(e) => TypePiece::Fixed(span_of(e)),
    }
}

/// All brackets, in order of the text.
fn add_brackets(pieces: &mut Items<TypePiece>, list: &[Dimension]) -> Result<(), NoMemory>
    ensures { OnOk result
        (pieces.new ≡ pieces.old ++ brackets (lengths (map plain_dimension list.now))) }
{
    for d in list {
        pieces.push(bracket(d))?;
    }
    Ok(())
}

#[cycle(types)]
fn add_type(pieces: &mut Items<TypePiece>, t: &TypeExpr) -> Result<(), NoMemory>
    ensures { OnOk result (pieces.new ≡ pieces.old ++ type_pieces (plain_type_expr t.now)) }
{
    add_parts(pieces, &t.plain.kind)?;
    pieces.push(last_piece(&t.plain.kind))?;
    add_brackets(pieces, t.dimensions.as_slice())
}

/// The key and the value of a mapping.
#[cycle(types)]
fn add_parts(pieces: &mut Items<TypePiece>, k: &PlainKind) -> Result<(), NoMemory>
    ensures { OnOk result (pieces.new ≡ pieces.old ++ parts_pieces (plain_plain_kind k.now)) }
{
    match k {
        PlainKind::Elementary(_) => Ok(()),
        PlainKind::Address { is_payable: _ } => Ok(()),
        PlainKind::String => Ok(()),
        PlainKind::Named { name: _, member: _ } => Ok(()),
        PlainKind::Mapping {
            key,
            key_name: _,
            value,
            value_name: _,
        } => {
            add_type(pieces, key.get())?;
            add_type(pieces, value.get())
        }
    }
}

/// The last piece of a type without brackets.
fn last_piece(k: &PlainKind) -> TypePiece
    ensures { result ≡ last_piece (plain_plain_kind k.now) }
{
    match k {
        PlainKind::Elementary(n) => TypePiece::Elementary(*n),
        PlainKind::Address { is_payable } => TypePiece::Address(*is_payable),
        PlainKind::String => TypePiece::String,
        PlainKind::Named { name, member } => match member {
            None => TypePiece::Named(*name),
            Some(m) => TypePiece::Member(*name, *m),
        },
        PlainKind::Mapping {
            key: _,
            key_name: _,
            value: _,
            value_name: _,
        } => TypePiece::Mapping,
    }
}

/// The pieces of a type.
pub fn pieces_of(alloc: Global, t: &TypeExpr) -> Result<Items<TypePiece>, NoMemory>
    ensures { IfOk result (λ r. r ≡ type_pieces (plain_type_expr t.now)) }
{
    let mut pieces = Items::new(alloc);
    add_type(&mut pieces, t)?;
    Ok(pieces)
}
