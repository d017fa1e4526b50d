//! The walk over expressions and types.
#![tactic(auto)]

ghost use Rattle.std.specs.Prelude.{◌≡◌, map, OnOk};
ghost use Rattle.sv_plain.specs.ExprFolds.{plain_suffix, plain_args, plain_args_kind, plain_named_arg, plain_type_expr, plain_plain, plain_plain_kind, plain_dimension};
ghost use Rattle.sv_plain.specs.ShownExprs.{kind_of};
ghost use Rattle.sv_book.specs.Visits.{Walked, WalkedIn};
ghost use Rattle.sv_visit.specs.ExprSites.{expr_walk, node_walk, kind_parts, two_walk, rest_walk, suffix_list, suffix_walk, args_walk, args_kind_parts, expr_list, named_list, named_arg_walk, type_walk, plain_walk, plain_parts, length_list, length_walk};

use crate::judge::{Judge, Role, Use};
use sv_ast::{
    Args, ArgsKind, Dimension, Expr, NamedArg, Plain, PlainKind, Suffix, SuffixKind, TypeExpr,
};
use sv_plain::view::{Kind, Node, Rest, operand_of};

/// Walks over an expression.
#[cycle(visiting)]
pub fn walk_expr<J: Judge>(j: &mut J, role: Role, e: Node<'_>) -> Result<(), J::Stop>
    ensures { Walked J.book (node_walk role e.entry) result (J.state j.old) (J.state j.new) }
{
    let v = e.view();
    let before = j.enter_expr(role, v)?;
    walk_kind(j, role, v.kind)?;
    j.leave_expr(role, v, before)
}

#[cycle(visiting)]
fn walk_kind<J: Judge>(j: &mut J, role: Role, k: Kind<'_>) -> Result<(), J::Stop>
    ensures { WalkedIn J.book (kind_parts role (kind_of k.entry))
        result (J.state j.old) (J.state j.new) }
{
    match k {
        Kind::Choice {
            test,
            if_true,
            if_false,
        } => {
            walk_expr(j, Role::Inner, Node::Or(test))?;
            walk_two(j, Node::Expr(if_true), Node::Expr(if_false))
        }
        Kind::Chain { first, rest } => {
            walk_expr(j, Role::Inner, first)?;
            walk_rest(j, rest)
        }
        Kind::Prefix { op: _, operand } => walk_expr(j, Role::Inner, operand_of(operand)),
        Kind::Power { base, exponent } => walk_two(j, Node::Post(base), Node::Power(exponent)),
        Kind::Applied { head, suffixes } => {
            walk_expr(j, Role::Inner, Node::Atom(head))?;
            walk_suffixes(j, suffixes)
        }
        Kind::Number { digits: _, unit: _ } => Ok(()),
        Kind::Hexadecimal(_) => Ok(()),
        Kind::Text(_) => Ok(()),
        Kind::Truth(_) => Ok(()),
        Kind::Name(_) => Ok(()),
        Kind::Elementary(_) => Ok(()),
        Kind::Address => Ok(()),
        Kind::Payable => Ok(()),
        Kind::OfType(t) => walk_type(j, t),
        Kind::New(t) => walk_type(j, t),
        Kind::Super => Ok(()),
        Kind::This => Ok(()),
        Kind::Paren(e) => walk_expr(j, role, Node::Expr(e)),
    }
}

#[cycle(visiting)]
fn walk_two<J: Judge>(j: &mut J, a: Node<'_>, b: Node<'_>) -> Result<(), J::Stop>
    ensures { WalkedIn J.book (two_walk a.entry b.entry) result (J.state j.old) (J.state j.new) }
{
    walk_expr(j, Role::Inner, a)?;
    walk_expr(j, Role::Inner, b)
}

#[cycle(visiting)]
fn walk_rest<J: Judge>(j: &mut J, rest: Rest<'_>) -> Result<(), J::Stop>
    ensures { WalkedIn J.book (rest_walk rest.entry) result (J.state j.old) (J.state j.new) }
{
    let mut left = rest;
    'operands: while let Some(o) = left.split() {
        walk_expr(j, Role::Inner, o.operand)?;
        left = o.rest;
    }
    Ok(())
}

#[cycle(visiting)]
fn walk_suffixes<J: Judge>(j: &mut J, list: &[Suffix]) -> Result<(), J::Stop>
    ensures { WalkedIn J.book (suffix_list list.now) result (J.state j.old) (J.state j.new) }
{
    for s in list {
        walk_suffix(j, s)?;
    }
    Ok(())
}

#[cycle(visiting)]
fn walk_suffix<J: Judge>(j: &mut J, s: &Suffix) -> Result<(), J::Stop>
    ensures { Walked J.book (suffix_walk (plain_suffix s.now))
        result (J.state j.old) (J.state j.new) }
{
    match &s.kind {
        SuffixKind::Index(e) => walk_expr(j, Role::Inner, Node::Expr(e.get())),
        SuffixKind::Member(_) => Ok(()),
        SuffixKind::Call(args) => walk_args(j, args),
        SuffixKind::Value(e) => walk_expr(j, Role::Inner, Node::Expr(e.get())),
        SuffixKind::Increment => Ok(()),
        SuffixKind::Decrement => Ok(()),
    }
}

/// Walks over the arguments of a call.
#[cycle(visiting)]
pub fn walk_args<J: Judge>(j: &mut J, args: &Args) -> Result<(), J::Stop>
    ensures { Walked J.book (args_walk (plain_args args.now))
        result (J.state j.old) (J.state j.new) }
{
    let before = j.enter_use(Use::Args(args))?;
    walk_args_kind(j, &args.kind)?;
    j.leave_use(Use::Args(args), before)
}

#[cycle(visiting)]
fn walk_args_kind<J: Judge>(j: &mut J, k: &ArgsKind) -> Result<(), J::Stop>
    ensures { WalkedIn J.book (args_kind_parts (plain_args_kind k.now))
        result (J.state j.old) (J.state j.new) }
{
    match k {
        ArgsKind::Positional(es) => walk_exprs(j, es.as_slice()),
        ArgsKind::Named(list) => walk_named(j, list.as_slice()),
    }
}

#[cycle(visiting)]
fn walk_exprs<J: Judge>(j: &mut J, list: &[Expr]) -> Result<(), J::Stop>
    ensures { WalkedIn J.book (expr_list list.now) result (J.state j.old) (J.state j.new) }
{
    for e in list {
        walk_expr(j, Role::Inner, Node::Expr(e))?;
    }
    Ok(())
}

#[cycle(visiting)]
fn walk_named<J: Judge>(j: &mut J, list: &[NamedArg]) -> Result<(), J::Stop>
    ensures { WalkedIn J.book (named_list list.now) result (J.state j.old) (J.state j.new) }
{
    for a in list {
        walk_named_arg(j, a)?;
    }
    Ok(())
}

#[cycle(visiting)]
fn walk_named_arg<J: Judge>(j: &mut J, a: &NamedArg) -> Result<(), J::Stop>
    ensures { Walked J.book (named_arg_walk (plain_named_arg a.now))
        result (J.state j.old) (J.state j.new) }
{
    walk_expr(j, Role::Inner, Node::Expr(&a.value))
}

/// Walks over a type.
#[cycle(visiting)]
pub fn walk_type<J: Judge>(j: &mut J, t: &TypeExpr) -> Result<(), J::Stop>
    ensures { Walked J.book (type_walk (plain_type_expr t.now))
        result (J.state j.old) (J.state j.new) }
{
    let before = j.enter_use(Use::Type(t))?;
    walk_plain(j, &t.plain)?;
    walk_lengths(j, t.dimensions.as_slice())?;
    j.leave_use(Use::Type(t), before)
}

#[cycle(visiting)]
fn walk_plain<J: Judge>(j: &mut J, p: &Plain) -> Result<(), J::Stop>
    ensures { Walked J.book (plain_walk (plain_plain p.now))
        result (J.state j.old) (J.state j.new) }
{
    let before = j.enter_use(Use::Plain(p))?;
    walk_plain_kind(j, &p.kind)?;
    j.leave_use(Use::Plain(p), before)
}

#[cycle(visiting)]
fn walk_plain_kind<J: Judge>(j: &mut J, k: &PlainKind) -> Result<(), J::Stop>
    ensures { WalkedIn J.book (plain_parts (plain_plain_kind k.now))
        result (J.state j.old) (J.state j.new) }
{
    match k {
        PlainKind::Elementary(_) => Ok(()),
        PlainKind::Address { is_payable: _ } => Ok(()),
        PlainKind::String => Ok(()),
        PlainKind::Named { name: _, member: _ } => Ok(()),
        PlainKind::Mapping {
            key,
            key_name: _,
            value,
            value_name: _,
        } => {
            walk_type(j, key.get())?;
            walk_type(j, value.get())
        }
    }
}

#[cycle(visiting)]
fn walk_lengths<J: Judge>(j: &mut J, list: &[Dimension]) -> Result<(), J::Stop>
    ensures { WalkedIn J.book (length_list list.now) result (J.state j.old) (J.state j.new) }
{
    for d in list {
        walk_length(j, d)?;
    }
    Ok(())
}

#[cycle(visiting)]
fn walk_length<J: Judge>(j: &mut J, d: &Dimension) -> Result<(), J::Stop>
    ensures { Walked J.book (length_walk (plain_dimension d.now))
        result (J.state j.old) (J.state j.new) }
{
    match &d.length {
        None => Ok(()),
        Some(e) => walk_expr(j, Role::Inner, Node::Expr(e)),
    }
}
