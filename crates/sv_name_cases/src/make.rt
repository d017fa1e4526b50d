//! Tables from plans.

use crate::plan::{Part, Piece, Plan, Use};
use sqlite_items::Items;
use std::alloc::Global;
use sv_decl::{
    Callable, Declaration, DeclarationKind, DeclaredContract, Given, Member, Named, Signature,
    TypePiece,
};
use sv_plain::Spot;
use sv_text::{Name, Names, NoMemory, Place, Span};

/// The name of a text.
pub fn name(names: &mut Names, text: &str) -> Result<Name, NoMemory> {
    if names.len() >= 1000 {
        return Err(NoMemory);
    }
    names.intern(text.as_bytes())
}

/// At a byte of a text of one line.
fn spot(byte: u32) -> Spot {
    Spot {
        span: Span {
            from: byte,
            to: byte,
        },
        place: Place { line: 1, col: 1 },
    }
}

fn given(plan: Option<(usize, u32)>) -> Option<Given> {
    let (count, byte) = plan?;
    Some(Given {
        count,
        spot: spot(byte),
    })
}

fn used(names: &mut Names, plan: Use<'_>) -> Result<Named, NoMemory> {
    let (title, args) = plan;
    Ok(Named {
        name: name(names, title)?,
        given: given(args),
        spot: spot(0),
    })
}

fn uses(alloc: Global, names: &mut Names, plans: &[Use<'_>]) -> Result<Items<Named>, NoMemory> {
    let mut list = Items::new(alloc);
    for plan in plans {
        list.push(used(names, *plan)?)?;
    }
    Ok(list)
}

fn piece(names: &mut Names, plan: Piece<'_>) -> Result<TypePiece, NoMemory> {
    match plan {
        Piece::Named(n) => Ok(TypePiece::Named(name(names, n)?)),
        Piece::Member(c, n) => {
            let c = name(names, c)?;
            Ok(TypePiece::Member(c, name(names, n)?))
        }
        Piece::Mapping => Ok(TypePiece::Mapping),
        Piece::Dynamic => Ok(TypePiece::Dynamic),
    }
}

fn pieces(
    alloc: Global,
    names: &mut Names,
    plans: &[Piece<'_>],
) -> Result<Items<TypePiece>, NoMemory> {
    let mut list = Items::new(alloc);
    for plan in plans {
        list.push(piece(names, *plan)?)?;
    }
    Ok(list)
}

/// One parameter or field of a type of these pieces, or none where there are none.
fn members(
    alloc: Global,
    names: &mut Names,
    plans: &[Piece<'_>],
) -> Result<Items<Member>, NoMemory> {
    let mut list = Items::new(alloc);
    let of_type = pieces(alloc, names, plans)?;
    if !of_type.is_empty() {
        list.push(Member {
            name: None,
            of_type,
            location: None,
            spot: spot(0),
        })?;
    }
    Ok(list)
}

fn signature(
    alloc: Global,
    callable: Callable,
    params: Items<Member>,
    uses: Items<Named>,
    has_body: bool,
) -> DeclarationKind {
    DeclarationKind::Callable(Signature {
        callable,
        params,
        results: Items::new(alloc),
        words: Items::new(alloc),
        uses,
        has_body,
    })
}

fn kind(alloc: Global, names: &mut Names, plan: Part<'_>) -> Result<DeclarationKind, NoMemory> {
    match plan {
        Part::Variable(words, from, to) => Ok(DeclarationKind::Variable {
            of_type: Items::new(alloc),
            words: Items::from_slice(alloc, words)?,
            value: Some(Span { from, to }),
        }),
        Part::Callable(callable, params, behind, has_body) => {
            let params = members(alloc, names, params)?;
            let behind = uses(alloc, names, behind)?;
            Ok(signature(alloc, callable, params, behind, has_body))
        }
        Part::Struct(fields) => Ok(DeclarationKind::Struct(members(alloc, names, fields)?)),
    }
}

fn declaration(
    alloc: Global,
    names: &mut Names,
    title: &str,
    plan: Part<'_>,
) -> Result<Declaration, NoMemory> {
    let title = name(names, title)?;
    Ok(Declaration {
        name: Some(title),
        kind: kind(alloc, names, plan)?,
        spot: spot(0),
    })
}

pub fn declarations(
    alloc: Global,
    names: &mut Names,
    plans: &[(&str, Part<'_>)],
) -> Result<Items<Declaration>, NoMemory> {
    let mut list = Items::new(alloc);
    for (title, plan) in plans {
        list.push(declaration(alloc, names, title, *plan)?)?;
    }
    Ok(list)
}

fn contract(
    alloc: Global,
    names: &mut Names,
    plan: &Plan<'_>,
) -> Result<DeclaredContract, NoMemory> {
    let title = name(names, plan.name)?;
    let bases = uses(alloc, names, plan.bases)?;
    Ok(DeclaredContract {
        name: title,
        standing: plan.standing,
        bases,
        declarations: declarations(alloc, names, plan.parts)?,
        spot: spot(0),
    })
}

pub fn contracts(
    alloc: Global,
    names: &mut Names,
    plans: &[Plan<'_>],
) -> Result<Items<DeclaredContract>, NoMemory> {
    let mut list = Items::new(alloc);
    for plan in plans {
        list.push(contract(alloc, names, plan)?)?;
    }
    Ok(list)
}

/// The line of a first contract, and that of a second which derives from it.
pub fn two_lines(alloc: Global) -> Result<Items<Option<Items<u32>>>, NoMemory> {
    let mut lines = Items::new(alloc);
    lines.push(Some(Items::from_slice(alloc, &[0u32])?))?;
    lines.push(Some(Items::from_slice(alloc, &[0u32, 1])?))?;
    Ok(lines)
}
