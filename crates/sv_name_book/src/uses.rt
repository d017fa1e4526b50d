//! Which name a node uses, and as what.
#![tactic(auto)]

ghost use Rattle.std.specs.Prelude.{◌≡◌};
ghost use Rattle.sv_plain.specs.ExprFolds.{plain_plain, plain_plain_kind};
ghost use Rattle.sv_plain.specs.ShownExprs.{kind_of};
ghost use Rattle.sv_name_book.specs.NameUses.{both_names, expr_use, head_use, head_wanted, kind_names, named_use, plain_names, plain_use, simple_use, slot_use, type_use};

use sv_ast::{Head, HeadKind, Plain, PlainKind, Simple, SimpleKind, Slot, SlotKind};
use sv_plain::view::Kind;
use sv_seen::Wanted;
use sv_text::{Name, Span};

/// A use of a name, as what is wanted, by the bytes of the smallest node around it.
#[derive(Clone, Copy, Debug, PartialEq, Eq)]
pub struct Use {
    pub wanted: Wanted,
    pub name: Name,
    pub at: Span,
}

/// The names of a type `C.S`.
#[derive(Clone, Copy, Debug, PartialEq, Eq)]
pub struct TypeNames {
    pub contract: Name,
    pub member: Name,
}

/// The name that an expression is.
pub fn expr_use(at: Span, k: Kind<'_>) -> Option<Use>
    ensures { result ≡ expr_use at (kind_of k.entry) }
{
    match k {
        Kind::Name(n) => Some(Use {
            wanted: Wanted::Operand,
            name: *n,
            at,
        }),
        _ => None,
    }
}

fn named_use(at: Span, name: Name, member: &Option<Name>) -> Option<Use>
    ensures { result ≡ named_use at name member.now }
{
    let wanted = match member {
        None => Wanted::Type,
        Some(_) => Wanted::Contract,
    };
    Some(Use { wanted, name, at })
}

fn type_use(at: Span, k: &PlainKind) -> Option<Use>
    ensures { result ≡ type_use at (plain_plain_kind k.now) }
{
    match k {
        PlainKind::Named { name, member } => named_use(at, *name, member),
        PlainKind::Elementary(_) => None,
        PlainKind::Address { is_payable: _ } => None,
        PlainKind::String => None,
        PlainKind::Mapping {
            key: _,
            key_name: _,
            value: _,
            value_name: _,
        } => None,
    }
}

/// The name of a type.
pub fn plain_use(p: &Plain) -> Option<Use>
    ensures { result ≡ plain_use (plain_plain p.now) }
{
    type_use(p.span, &p.kind)
}

fn both_names(contract: Name, member: &Option<Name>) -> Option<TypeNames>
    ensures { result ≡ both_names contract member.now }
{
    match member {
        None => None,
        Some(member) => Some(TypeNames {
            contract,
            member: *member,
        }),
    }
}

fn kind_names(k: &PlainKind) -> Option<TypeNames>
    ensures { result ≡ kind_names (plain_plain_kind k.now) }
{
    match k {
        PlainKind::Named { name, member } => both_names(*name, member),
        PlainKind::Elementary(_) => None,
        PlainKind::Address { is_payable: _ } => None,
        PlainKind::String => None,
        PlainKind::Mapping {
            key: _,
            key_name: _,
            value: _,
            value_name: _,
        } => None,
    }
}

/// Both names of a type of a contract.
pub fn plain_names(p: &Plain) -> Option<TypeNames>
    ensures { result ≡ plain_names (plain_plain p.now) }
{
    kind_names(&p.kind)
}

/// The variable that a slot names.
pub fn slot_use(s: &Slot) -> Option<Use>
    ensures { result ≡ slot_use s.now.span s.now.kind }
{
    match &s.kind {
        Some(SlotKind::Name(n)) => Some(Use {
            wanted: Wanted::Operand,
            name: *n,
            at: s.span,
        }),
        Some(
            SlotKind::Decl {
                of_type: _,
                location: _,
                name: _,
            },
        ) => None,
        None => None,
    }
}

/// The event or the error that a statement names.
pub fn simple_use(s: &Simple) -> Option<Use>
    ensures { result ≡ simple_use s.now.span s.now.kind }
{
    match &s.kind {
        SimpleKind::Emit { event, args: _ } => Some(Use {
            wanted: Wanted::Event,
            name: *event,
            at: s.span,
        }),
        SimpleKind::Revert { error, args: _ } => Some(Use {
            wanted: Wanted::Error,
            name: *error,
            at: s.span,
        }),
        _ => None,
    }
}

/// As what a name stands behind the parameters of a constructor or of a function.
fn head_wanted(in_constructor: bool) -> Wanted
    ensures { result ≡ head_wanted in_constructor }
{
    if in_constructor {
        Wanted::Base
    } else {
        Wanted::Modifier
    }
}

/// The modifier or the base that is used.
pub fn head_use(in_constructor: bool, h: &Head) -> Option<Use>
    ensures { result ≡ head_use in_constructor h.now.span h.now.kind }
{
    match &h.kind {
        HeadKind::Use { name, args: _ } => Some(Use {
            wanted: head_wanted(in_constructor),
            name: *name,
            at: h.span,
        }),
        _ => None,
    }
}
