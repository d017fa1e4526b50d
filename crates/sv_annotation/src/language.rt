//! Which expressions are expressions of annotations.
#![tactic(auto)]

ghost use Rattle.std.specs.Prelude.{◌≡◌, ◌&&◌, map};
ghost use Rattle.sv_plain.specs.PlainExprs.{operands, suffixes, exprs};
ghost use Rattle.sv_plain.specs.ExprFolds.{plain_suffix, plain_args, plain_expr};
ghost use Rattle.sv_plain.specs.ShownExprs.{expr_of, rest_of, kind_of};
ghost use Rattle.sv_annotation.specs.AnnotationLanguage.{is_operand, is_this_kind, is_this, takes_this, takes_call, takes_member, takes_index, fits, kind_fits, operands_fit, suffixes_fit, suffix_fits, argument_fits, one_fits, is_none, applied_fit};

use crate::openings::{Opening, bare, is_limit, is_of_message, opening_of};
use sv_ast::{Args, ArgsKind, Expr, Suffix, SuffixKind};
use sv_form_rules::{steps, text_of};
use sv_plain::view::{Kind, Node, Rest, operand_of};
use sv_text::Names;

/// Whether an expression is one of annotations, where `msg.sender` and `msg.value` may be named or not.
#[cycle(fitting)]
pub fn fits(names: &Names, sender: bool, e: Node<'_>) -> bool
    ensures { result ≡ fits names.now sender (expr_of e.entry) }
{
    kind_fits(names, sender, e.view().kind)
}

#[cycle(fitting)]
fn kind_fits(names: &Names, sender: bool, k: Kind<'_>) -> bool
    ensures { result ≡ kind_fits names.now sender (kind_of k.entry) }
{
    match k {
        Kind::Choice {
            test,
            if_true,
            if_false,
        } => {
            fits(names, sender, Node::Or(test))
                && both_fit(names, sender, Node::Expr(if_true), Node::Expr(if_false))
        }
        Kind::Chain { first, rest } => {
            fits(names, sender, first) && operands_fit(names, sender, rest)
        }
        Kind::Prefix { op, operand } => !steps(op) && fits(names, sender, operand_of(operand)),
        Kind::Applied { head, suffixes } => applied_fits(names, sender, Node::Atom(head), suffixes),
        Kind::Number { digits: _, unit: _ } => true,
        Kind::Hexadecimal(_) => true,
        Kind::Text(_) => true,
        Kind::Truth(_) => true,
        Kind::Name(_) => true,
        Kind::Paren(e) => fits(names, sender, Node::Expr(e)),
        _ => false,
    }
}

#[cycle(fitting)]
fn both_fit(names: &Names, sender: bool, a: Node<'_>, b: Node<'_>) -> bool
    ensures { result ≡ (fits names.now sender (expr_of a.entry)
        && fits names.now sender (expr_of b.entry)) }
{
    fits(names, sender, a) && fits(names, sender, b)
}

#[cycle(fitting)]
fn operands_fit(names: &Names, sender: bool, rest: Rest<'_>) -> bool
    ensures { result ≡ operands_fit names.now sender (operands (rest_of rest.entry)) }
{
    match rest.split() {
        None => true,
        Some(o) => fits(names, sender, o.operand) && operands_fit(names, sender, o.rest),
    }
}

#[cycle(fitting)]
fn applied_fits(names: &Names, sender: bool, e: Node<'_>, list: &[Suffix]) -> bool
    ensures { result ≡ applied_fit names.now sender (expr_of e.entry)
        (suffixes (map plain_suffix list.now)) }
{
    let opening = opening_of(names, sender, bare(e));
    (!is_operand(opening) || fits(names, sender, e)) && suffixes_fit(names, sender, opening, list)
}

#[cycle(fitting)]
fn suffixes_fit(names: &Names, sender: bool, opening: Opening, list: &[Suffix]) -> bool
    ensures { result ≡ suffixes_fit names.now sender opening
        (suffixes (map plain_suffix list.now)) }
{
    match list.split_first() {
        None => true,
        Some((s, more)) => {
            suffix_fits(names, sender, opening, s)
                && suffixes_fit(names, sender, Opening::Operand, more)
        }
    }
}

#[cycle(fitting)]
fn suffix_fits(names: &Names, sender: bool, opening: Opening, s: &Suffix) -> bool
    ensures { result ≡ suffix_fits names.now sender opening (plain_suffix s.now) }
{
    match &s.kind {
        SuffixKind::Index(e) => takes_index(opening) && fits(names, sender, Node::Expr(e.get())),
        SuffixKind::Member(n) => takes_member(opening, text_of(names, *n)),
        SuffixKind::Call(args) => {
            takes_call(opening) && argument_fits(names, sender, takes_this(opening), args)
        }
        SuffixKind::Value(_) => false,
        SuffixKind::Increment => false,
        SuffixKind::Decrement => false,
    }
}

#[cycle(fitting)]
fn argument_fits(names: &Names, sender: bool, this: bool, args: &Args) -> bool
    ensures { result ≡ argument_fits names.now sender this (plain_args args.now) }
{
    match &args.kind {
        ArgsKind::Named(_) => false,
        ArgsKind::Positional(es) => one_fits(names, sender, this, es.as_slice()),
    }
}

#[cycle(fitting)]
fn one_fits(names: &Names, sender: bool, this: bool, list: &[Expr]) -> bool
    ensures { result ≡ one_fits names.now sender this (exprs (map plain_expr list.now)) }
{
    match list.split_first() {
        None => false,
        Some((e, more)) => {
            is_none(more) && (this && is_this(Node::Expr(e)) || fits(names, sender, Node::Expr(e)))
        }
    }
}

fn is_none(list: &[Expr]) -> bool
    ensures { result ≡ is_none (exprs (map plain_expr list.now)) }
{
    match list.split_first() {
        None => true,
        Some(_) => false,
    }
}

fn is_this(e: Node<'_>) -> bool
    ensures { result ≡ is_this (expr_of e.entry) }
{
    matches!(bare(e), Kind::This)
}

fn is_operand(opening: Opening) -> bool
    ensures { result ≡ is_operand opening }
{
    opening == Opening::Operand
}

fn takes_this(opening: Opening) -> bool
    ensures { result ≡ takes_this opening }
{
    opening == Opening::Address
}

fn takes_call(opening: Opening) -> bool
    ensures { result ≡ takes_call opening }
{
    match opening {
        Opening::Function | Opening::Address | Opening::Payable => true,
        Opening::Operand | Opening::OfType | Opening::Block | Opening::Message => false,
    }
}

fn takes_index(opening: Opening) -> bool
    ensures { result ≡ takes_index opening }
{
    match opening {
        Opening::Operand | Opening::Function | Opening::Block | Opening::Message => true,
        Opening::Address | Opening::Payable | Opening::OfType => false,
    }
}

fn takes_member(opening: Opening, text: &[u8]) -> bool
    ensures { result ≡ takes_member opening text.now }
{
    match opening {
        Opening::Operand | Opening::Function => true,
        Opening::OfType => is_limit(text),
        Opening::Message => !is_of_message(text),
        Opening::Address | Opening::Payable | Opening::Block => false,
    }
}
