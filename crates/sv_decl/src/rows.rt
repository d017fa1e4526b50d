//! Declarations, one by one.
#![tactic(auto)]

ghost use Rattle.std.specs.Prelude.{◌≡◌, IfOk};
ghost use Rattle.std.specs.List.{filter_map};
ghost use Rattle.sv_decl.specs.Declarations.{constant_of, constructor_of, enum_of, error_of, event_of, function_of, members, modifier_of, signature, special_of, struct_of, value_span, variable_of};
ghost use Rattle.sv_decl.specs.DeclaredParts.{param_member};

use crate::data::{Callable, Declaration, DeclarationKind, Member, Signature, Word};
use crate::gather::gather;
use crate::parts::spot_of;
use crate::pieces::{pieces_of, span_of};
use sqlite_items::Items;
use std::alloc::Global;
use sv_ast::{
    Ctor, Enum, Error, Event, Expr, FileConst, Function, Head, Modifier, Params, Special, Struct,
    Variable,
};
use sv_text::{NoMemory, Span};

/// The parameters in parentheses, if there are any.
fn members_of(alloc: Global, params: &Option<Params>) -> Result<Items<Member>, NoMemory>
    ensures { IfOk result (λ r. r ≡ members params.now) }
{
    match params {
        None => Ok(Items::new(alloc)),
        Some(p) => params_of(alloc, p),
    }
}

fn params_of(alloc: Global, p: &Params) -> Result<Items<Member>, NoMemory>
    ensures { IfOk result (λ r. r ≡ filter_map param_member p.now.params) }
{
    gather(alloc, p.params.as_slice())
}

fn signature_of(
    alloc: Global,
    callable: Callable,
    params: Items<Member>,
    results: Items<Member>,
    heads: &[Head],
    has_body: bool,
) -> Result<Signature, NoMemory>
    ensures { IfOk result (λ r. r ≡ signature callable params results heads.now has_body) }
{
    let words = gather(alloc, heads)?;
    let uses = gather(alloc, heads)?;
    Ok(Signature {
        callable,
        params,
        results,
        words,
        uses,
        has_body,
    })
}

pub fn declare_function(alloc: Global, f: &Function) -> Result<Declaration, NoMemory>
    ensures { IfOk result (λ r. r ≡ function_of f.now) }
{
    let params = params_of(alloc, &f.params)?;
    let results = members_of(alloc, &f.results)?;
    let has_body = f.body.is_some();
    let signature = signature_of(
        alloc,
        Callable::Function,
        params,
        results,
        f.heads.as_slice(),
        has_body,
    )?;
    Ok(Declaration {
        name: Some(f.name),
        kind: DeclarationKind::Callable(signature),
        spot: spot_of(f.span, f.place),
    })
}

pub fn declare_constructor(alloc: Global, f: &Ctor) -> Result<Declaration, NoMemory>
    ensures { IfOk result (λ r. r ≡ constructor_of f.now) }
{
    let params = params_of(alloc, &f.params)?;
    let results = Items::new(alloc);
    let heads = f.heads.as_slice();
    let signature = signature_of(alloc, Callable::Constructor, params, results, heads, true)?;
    Ok(Declaration {
        name: None,
        kind: DeclarationKind::Callable(signature),
        spot: spot_of(f.span, f.place),
    })
}

pub fn declare_special(alloc: Global, f: &Special) -> Result<Declaration, NoMemory>
    ensures { IfOk result (λ r. r ≡ special_of f.now) }
{
    let params = Items::new(alloc);
    let results = Items::new(alloc);
    let heads = f.heads.as_slice();
    let signature = signature_of(alloc, Callable::Special, params, results, heads, true)?;
    Ok(Declaration {
        name: Some(f.word),
        kind: DeclarationKind::Callable(signature),
        spot: spot_of(f.span, f.place),
    })
}

pub fn declare_modifier(alloc: Global, m: &Modifier) -> Result<Declaration, NoMemory>
    ensures { IfOk result (λ r. r ≡ modifier_of m.now) }
{
    let params = members_of(alloc, &m.params)?;
    let words = gather(alloc, m.words.as_slice())?;
    Ok(Declaration {
        name: Some(m.name),
        kind: DeclarationKind::Callable(Signature {
            callable: Callable::Modifier,
            params,
            results: Items::new(alloc),
            words,
            uses: Items::new(alloc),
            has_body: true,
        }),
        spot: spot_of(m.span, m.place),
    })
}

fn value_span(value: &Option<Expr>) -> Option<Span>
    ensures { result ≡ value_span value.now }
{
    match value {
        None => None,
        Some(e) => Some(span_of(e)),
    }
}

pub fn declare_variable(alloc: Global, v: &Variable) -> Result<Declaration, NoMemory>
    ensures { IfOk result (λ r. r ≡ variable_of v.now) }
{
    let of_type = pieces_of(alloc, &v.of_type)?;
    let words = gather(alloc, v.words.as_slice())?;
    Ok(Declaration {
        name: Some(v.name),
        kind: DeclarationKind::Variable {
            of_type,
            words,
            value: value_span(&v.value),
        },
        spot: spot_of(v.span, v.place),
    })
}

pub fn declare_constant(alloc: Global, c: &FileConst) -> Result<Declaration, NoMemory>
    ensures { IfOk result (λ r. r ≡ constant_of c.now) }
{
    let of_type = pieces_of(alloc, &c.of_type)?;
    let mut words = Items::new(alloc);
    words.push(Word::Constant)?;
    Ok(Declaration {
        name: Some(c.name),
        kind: DeclarationKind::Variable {
            of_type,
            words,
            value: Some(span_of(&c.value)),
        },
        spot: spot_of(c.span, c.place),
    })
}

pub fn declare_struct(alloc: Global, s: &Struct) -> Result<Declaration, NoMemory>
    ensures { IfOk result (λ r. r ≡ struct_of s.now) }
{
    let fields = gather(alloc, s.fields.as_slice())?;
    Ok(Declaration {
        name: Some(s.name),
        kind: DeclarationKind::Struct(fields),
        spot: spot_of(s.span, s.place),
    })
}

pub fn declare_enum(alloc: Global, e: &Enum) -> Result<Declaration, NoMemory>
    ensures { IfOk result (λ r. r ≡ enum_of e.now) }
{
    let names = Items::from_slice(alloc, e.members.as_slice())?;
    Ok(Declaration {
        name: Some(e.name),
        kind: DeclarationKind::Enum(names),
        spot: spot_of(e.span, e.place),
    })
}

pub fn declare_event(alloc: Global, e: &Event) -> Result<Declaration, NoMemory>
    ensures { IfOk result (λ r. r ≡ event_of e.now) }
{
    let params = gather(alloc, e.params.as_slice())?;
    Ok(Declaration {
        name: Some(e.name),
        kind: DeclarationKind::Event(params),
        spot: spot_of(e.span, e.place),
    })
}

pub fn declare_error(alloc: Global, e: &Error) -> Result<Declaration, NoMemory>
    ensures { IfOk result (λ r. r ≡ error_of e.now) }
{
    let params = gather(alloc, e.params.as_slice())?;
    Ok(Declaration {
        name: Some(e.name),
        kind: DeclarationKind::Error(params),
        spot: spot_of(e.span, e.place),
    })
}
