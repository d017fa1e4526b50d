//! What the names of annotations are, and what they take.
#![tactic(auto)]

ghost use Rattle.std.specs.Prelude.{◌≡◌, map};
ghost use Rattle.sv_plain.specs.PlainExprs.{suffixes};
ghost use Rattle.sv_plain.specs.ExprFolds.{plain_suffix};
ghost use Rattle.sv_plain.specs.ShownExprs.{expr_of, kind_of};
ghost use Rattle.sv_annotation.specs.Openings.{is_old, is_sum, is_function, is_limit, is_of_message, bare, name_opening, opening_of, is_call, begins_with_call, names_old, calls_old};

use sv_ast::{Suffix, SuffixKind};
use sv_form_rules::text_of;
use sv_plain::view::{Kind, Node};
use sv_text::Names;

/// What stands before the suffixes of an expression, for the first of them.
#[derive(Clone, Copy, Debug, PartialEq, Eq)]
pub enum Opening {
    /// An expression.
    Operand,
    /// A function of annotations, as `__verifier_old_uint`.
    Function,
    /// `address`.
    Address,
    /// `payable`.
    Payable,
    /// A type to ask about.
    OfType,
    /// `block`.
    Block,
    /// `msg`, where it may not be asked for the sender.
    Message,
}

pub fn is_old(text: &[u8]) -> bool
    ensures { result ≡ is_old text.now }
{
    text == b"__verifier_old_uint".as_slice()
        || text == b"__verifier_old_int".as_slice()
        || text == b"__verifier_old_bool".as_slice()
        || text == b"__verifier_old_address".as_slice()
}

fn is_function(text: &[u8]) -> bool
    ensures { result ≡ is_function text.now }
{
    is_old(text)
        || text == b"__verifier_sum_uint".as_slice()
        || text == b"__verifier_sum_int".as_slice()
}

pub fn is_limit(text: &[u8]) -> bool
    ensures { result ≡ is_limit text.now }
{
    text == b"max".as_slice() || text == b"min".as_slice()
}

pub fn is_of_message(text: &[u8]) -> bool
    ensures { result ≡ is_of_message text.now }
{
    text == b"sender".as_slice() || text == b"value".as_slice()
}

fn name_opening(sender: bool, text: &[u8]) -> Opening
    ensures { result ≡ name_opening sender text.now }
{
    if is_function(text) {
        Opening::Function
    } else if text == b"block".as_slice() {
        Opening::Block
    } else if !sender && text == b"msg".as_slice() {
        Opening::Message
    } else {
        Opening::Operand
    }
}

/// The form of an expression behind its parentheses.
pub fn bare(e: Node<'_>) -> Kind<'_>
    ensures { kind_of result ≡ bare (expr_of e.entry) }
{
    match e.view().kind {
        Kind::Paren(inner) => bare(Node::Expr(inner)),
        k => k,
    }
}

/// What an expression is for its suffixes.
pub fn opening_of(names: &Names, sender: bool, k: Kind<'_>) -> Opening
    ensures { result ≡ opening_of names.now sender (kind_of k.entry) }
{
    match k {
        Kind::Name(n) => name_opening(sender, text_of(names, *n)),
        Kind::Address => Opening::Address,
        Kind::Payable => Opening::Payable,
        Kind::OfType(_) => Opening::OfType,
        _ => Opening::Operand,
    }
}

fn begins_with_call(list: &[Suffix]) -> bool
    ensures { result ≡ begins_with_call (suffixes (map plain_suffix list.now)) }
{
    match list.split_first() {
        None => false,
        Some((s, _)) => is_call(s),
    }
}

fn is_call(s: &Suffix) -> bool
    ensures { result ≡ is_call (plain_suffix s.now) }
{
    match &s.kind {
        SuffixKind::Call(_) => true,
        SuffixKind::Index(_) => false,
        SuffixKind::Member(_) => false,
        SuffixKind::Value(_) => false,
        SuffixKind::Increment => false,
        SuffixKind::Decrement => false,
    }
}

fn names_old(names: &Names, k: Kind<'_>) -> bool
    ensures { result ≡ names_old names.now (kind_of k.entry) }
{
    match k {
        Kind::Name(n) => is_old(text_of(names, *n)),
        _ => false,
    }
}

/// Whether it is the call of an `old` function.
pub fn calls_old(names: &Names, k: Kind<'_>) -> bool
    ensures { result ≡ calls_old names.now (kind_of k.entry) }
{
    match k {
        Kind::Applied { head, suffixes } => {
            names_old(names, bare(Node::Atom(head))) && begins_with_call(suffixes)
        }
        _ => false,
    }
}
