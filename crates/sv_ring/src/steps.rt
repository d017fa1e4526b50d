//! Steps, and the rings that they make.
#![tactic(auto)]

ghost use Rattle.std.specs.Prelude.{◌≡◌, ◌++◌, length, IfOk, OnOk};
ghost use Rattle.std.specs.List.{filter_map, list_any};
ghost use Rattle.sv_reach.specs.Paths.{AreMarks, IsOnRing};
ghost use Rattle.sv_ring.specs.RingSteps.{fields_reach, ground, is_constant_word, meant, stands_in, steps, steps_inside, steps_of, steps_of_kind, used_in, value_reaches};

use crate::meant::meant;
use crate::numbers::more;
use crate::scene::{ConstantUse, Scene};
use sqlite_items::Items;
use std::alloc::Global;
use sv_decl::{Declaration, DeclarationKind, DeclaredContract, Member, TypePiece, Word};
use sv_reach::on_a_ring;
use sv_text::{NoMemory, Span};

/// The structs that the pieces of a type name.
fn add_meant(
    reached: &mut Items<u32>,
    alloc: Global,
    scene: Scene<'_>,
    own: Option<u32>,
    pieces: &[TypePiece],
) -> Result<(), NoMemory>
    ensures { OnOk result
        (reached.new ≡ reached.old ++ filter_map (meant (ground scene.entry) own) pieces.now) }
{
    for p in pieces {
        if let Some(n) = meant(alloc, scene, own, *p)? {
            reached.push(n)?;
        }
    }
    Ok(())
}

/// The structs that the types of fields name.
fn fields_reach(
    alloc: Global,
    scene: Scene<'_>,
    own: Option<u32>,
    fields: &[Member],
) -> Result<Items<u32>, NoMemory>
    ensures { IfOk result (λ r. r ≡ fields_reach (ground scene.entry) own fields.now) }
{
    let mut reached = Items::new(alloc);
    for m in fields {
        add_meant(&mut reached, alloc, scene, own, m.of_type.as_slice())?;
    }
    Ok(reached)
}

fn is_constant_word(w: Word) -> bool
    ensures { result ≡ is_constant_word w }
{
    match w {
        Word::Constant => true,
        Word::Public => false,
        Word::Private => false,
        Word::Internal => false,
        Word::External => false,
        Word::Pure => false,
        Word::View => false,
        Word::Payable => false,
        Word::Virtual => false,
        Word::Override => false,
        Word::Immutable => false,
    }
}

fn is_constant(words: &[Word]) -> bool
    ensures { result ≡ list_any is_constant_word words.now }
{
    for w in words {
        if is_constant_word(*w) {
            return true;
        }
    }
    false
}

/// Whether a name stands within these bytes.
fn stands_in(u: &ConstantUse, span: Span) -> bool
    ensures { result ≡ stands_in span u.now }
{
    u.at >= span.from && u.at < span.to
}

/// The constants whose names stand within these bytes.
fn used_in(alloc: Global, uses: &[ConstantUse], span: Span) -> Result<Items<u32>, NoMemory>
    ensures { IfOk result (λ r. r ≡ filter_map (used_in span) uses.now) }
{
    let mut used = Items::new(alloc);
    for u in uses {
        if stands_in(u, span) {
            used.push(u.constant)?;
        }
    }
    Ok(used)
}

fn value_reaches(
    alloc: Global,
    scene: Scene<'_>,
    value: &Option<Span>,
) -> Result<Items<u32>, NoMemory>
    ensures { IfOk result (λ r. r ≡ value_reaches (ground scene.entry) value.now) }
{
    match value {
        None => Ok(Items::new(alloc)),
        Some(span) => used_in(alloc, scene.uses, *span),
    }
}

/// What a declaration reaches in one step.
fn steps_of_kind(
    alloc: Global,
    scene: Scene<'_>,
    own: Option<u32>,
    k: &DeclarationKind,
) -> Result<Items<u32>, NoMemory>
    ensures { IfOk result (λ r. r ≡ steps_of_kind (ground scene.entry) own k.now) }
{
    match k {
        DeclarationKind::Struct(fields) => fields_reach(alloc, scene, own, fields.as_slice()),
        DeclarationKind::Variable {
            of_type: _,
            words,
            value,
        } => {
            if is_constant(words.as_slice()) {
                value_reaches(alloc, scene, value)
            } else {
                Ok(Items::new(alloc))
            }
        }
        DeclarationKind::Callable(_) => Ok(Items::new(alloc)),
        DeclarationKind::Enum(_) => Ok(Items::new(alloc)),
        DeclarationKind::Event(_) => Ok(Items::new(alloc)),
        DeclarationKind::Error(_) => Ok(Items::new(alloc)),
    }
}

/// What each of these declarations reaches.
fn add_steps(
    all: &mut Items<Items<u32>>,
    alloc: Global,
    scene: Scene<'_>,
    own: Option<u32>,
    list: &[Declaration],
) -> Result<(), NoMemory>
    ensures { OnOk result (all.new ≡ all.old ++ steps_of (ground scene.entry) own list.now) }
{
    for d in list {
        all.push(steps_of_kind(alloc, scene, own, &d.kind)?)?;
    }
    Ok(())
}

/// What each declaration in a contract reaches.
fn steps_inside(
    alloc: Global,
    scene: Scene<'_>,
    contracts: &[DeclaredContract],
) -> Result<Items<Items<u32>>, NoMemory>
    ensures { IfOk result (λ r. r ≡ steps_inside (ground scene.entry) 0 contracts.now) }
{
    let mut all = Items::new(alloc);
    let mut c = 0u32;
    for own in contracts {
        add_steps(&mut all, alloc, scene, Some(c), own.declarations.as_slice())?;
        c = more(c, 1)?;
    }
    Ok(all)
}

/// What each declaration reaches in one step, by number.
fn steps(alloc: Global, scene: Scene<'_>) -> Result<Items<Items<u32>>, NoMemory>
    ensures { IfOk result (λ r. r ≡ steps (ground scene.entry)) }
{
    let mut all = steps_inside(alloc, scene, scene.text.contracts.as_slice())?;
    add_steps(&mut all, alloc, scene, None, scene.text.outside.as_slice())?;
    Ok(all)
}

/// For each declaration of the text, by number, whether it is on a ring: a struct that reaches itself through the types of its fields, or a constant that reaches itself through its value.
pub fn rings(alloc: Global, scene: Scene<'_>) -> Result<Items<bool>, NoMemory>
    ensures { IfOk result (λ marks. AreMarks (length (steps (ground scene.entry))) (IsOnRing (steps (ground scene.entry))) marks) }
{
    let graph = steps(alloc, scene)?;
    Ok(on_a_ring(alloc, graph.as_slice())?)
}
