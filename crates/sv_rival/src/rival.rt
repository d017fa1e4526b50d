//! Declarations of one sort and name.
#![tactic(auto)]

ghost use Rattle.std.specs.Prelude.{◌≡◌};
ghost use Rattle.sv_rival.specs.Rivals.{have_same_params, is_function, is_function_sort, is_rival, same_name, same_sort, sort_of, stands_before};

use sv_decl::{Callable, Declaration, DeclarationKind};
use sv_text::Name;
use sv_typed::{TypedCallable, same_params};

/// Which of those that have a body it is.
pub fn sort_of(k: &DeclarationKind) -> Option<Callable>
    ensures { result ≡ sort_of k.now }
{
    match k {
        DeclarationKind::Callable(s) => Some(s.callable),
        _ => None,
    }
}

fn same_sort(a: Option<Callable>, b: Option<Callable>) -> bool
    ensures { result ≡ same_sort a b }
{
    match (a, b) {
        (Some(Callable::Function), Some(Callable::Function)) => true,
        (Some(Callable::Modifier), Some(Callable::Modifier)) => true,
        (Some(Callable::Special), Some(Callable::Special)) => true,
        _ => false,
    }
}

/// Whether both have a name, and the same.
pub fn same_name(a: Option<Name>, b: Option<Name>) -> bool
    ensures { result ≡ same_name a b }
{
    match (a, b) {
        (Some(m), Some(n)) => m.position() == n.position(),
        _ => false,
    }
}

/// Whether the two are functions, modifiers, `receive` or `fallback` of one name.
pub fn is_rival(f: &Declaration, g: &Declaration) -> bool
    ensures { result ≡ is_rival f.now g.now }
{
    same_sort(sort_of(&f.kind), sort_of(&g.kind)) && same_name(f.name, g.name)
}

fn is_function_sort(sort: Option<Callable>) -> bool
    ensures { result ≡ is_function_sort sort }
{
    match sort {
        Some(Callable::Function) => true,
        _ => false,
    }
}

/// Whether it is a function, and no modifier, `receive`, `fallback` or constructor.
pub fn is_function(f: &Declaration) -> bool
    ensures { result ≡ is_function f.now }
{
    is_function_sort(sort_of(&f.kind))
}

/// Whether the parameters are of the same types; without types they are like no other.
pub fn have_same_params(a: &Option<TypedCallable>, b: &Option<TypedCallable>) -> bool
    ensures { result ≡ have_same_params a.now b.now }
{
    match (a, b) {
        (Some(a), Some(b)) => same_params(a, b),
        _ => false,
    }
}

/// Whether `g` stands before `f` in the text.
pub fn stands_before(g: &Declaration, f: &Declaration) -> bool
    ensures { result ≡ stands_before g.now f.now }
{
    g.spot.span.from < f.spot.span.from
}
