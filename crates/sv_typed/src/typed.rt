//! Typed declarations, and when two agree.
#![tactic(auto)]

ghost use Rattle.std.specs.Prelude.{◌≡◌};
ghost use Rattle.sv_typed.specs.TypedLists.{agree, all_pairs, same_location, same_locations, same_params, same_results, same_type, same_where};

use sqlite_items::Items;
use sv_ast::WhereKind;
use sv_text_type::TypeId;

/// The types of a contract's declarations: one row for each declaration, in order of the text.
#[derive(Drop)]
pub struct TypedContract {
    /// Of a function, a constructor, `receive`, `fallback` and a modifier; None for other declarations.
    pub callables: Items<Option<TypedCallable>>,
}

/// The types of parameters and results, in order.
#[derive(Drop)]
pub struct TypedCallable {
    pub params: Items<TypedMember>,
    pub results: Items<TypedMember>,
}

/// The type of a parameter or a result, and where its value lies.
#[derive(Clone, Copy, Debug, PartialEq, Eq)]
pub struct TypedMember {
    /// None for a type that names something unknown: it is no other's.
    pub of_type: Option<TypeId>,
    pub location: Option<WhereKind>,
}

/// Whether the two have one type.
fn same_type(a: &TypedMember, b: &TypedMember) -> bool
    ensures { result ≡ same_type a.now b.now }
{
    match (a.of_type, b.of_type) {
        (Some(s), Some(t)) => s.0 == t.0,
        _ => false,
    }
}

/// Whether each has the type of the other's at its place.
fn pairs_have_one_type(a: &[TypedMember], b: &[TypedMember]) -> bool
    ensures { result ≡ all_pairs same_type a.now b.now }
{
    a.iter().zip(b.iter()).all(|(x, y)| same_type(x, y))
}

fn same_types(a: &[TypedMember], b: &[TypedMember]) -> bool
    ensures { result ≡ agree same_type a.now b.now }
{
    a.len() == b.len() && pairs_have_one_type(a, b)
}

fn same_where(a: WhereKind, b: WhereKind) -> bool
    ensures { result ≡ same_where a b }
{
    match (a, b) {
        (WhereKind::Storage, WhereKind::Storage) => true,
        (WhereKind::Memory, WhereKind::Memory) => true,
        (WhereKind::Calldata, WhereKind::Calldata) => true,
        _ => false,
    }
}

/// Whether both lie in one place, or neither has one.
fn same_location(a: &TypedMember, b: &TypedMember) -> bool
    ensures { result ≡ same_location a.now b.now }
{
    match (a.location, b.location) {
        (None, None) => true,
        (Some(v), Some(w)) => same_where(v, w),
        _ => false,
    }
}

/// Whether each lies where the other's at its place does.
fn pairs_have_one_location(a: &[TypedMember], b: &[TypedMember]) -> bool
    ensures { result ≡ all_pairs same_location a.now b.now }
{
    a.iter().zip(b.iter()).all(|(x, y)| same_location(x, y))
}

fn same_places(a: &[TypedMember], b: &[TypedMember]) -> bool
    ensures { result ≡ agree same_location a.now b.now }
{
    a.len() == b.len() && pairs_have_one_location(a, b)
}

/// Whether they have parameters of the same types, in order.
pub fn same_params(a: &TypedCallable, b: &TypedCallable) -> bool
    ensures { result ≡ same_params a.now b.now }
{
    same_types(a.params.as_slice(), b.params.as_slice())
}

/// Whether they have results of the same types, in order.
pub fn same_results(a: &TypedCallable, b: &TypedCallable) -> bool
    ensures { result ≡ same_results a.now b.now }
{
    same_types(a.results.as_slice(), b.results.as_slice())
}

/// Whether their parameters and their results lie in the same places, in order.
pub fn same_locations(a: &TypedCallable, b: &TypedCallable) -> bool
    ensures { result ≡ same_locations a.now b.now }
{
    same_places(a.params.as_slice(), b.params.as_slice())
        && same_places(a.results.as_slice(), b.results.as_slice())
}
