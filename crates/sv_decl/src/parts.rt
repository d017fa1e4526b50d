//! Members, words, and names with arguments.
#![tactic(auto)]

ghost use Rattle.std.specs.Prelude.{◌≡◌, IfOk};
ghost use Rattle.sv_plain.specs.ExprFolds.{plain_args, plain_args_kind, spot};
ghost use Rattle.sv_decl.specs.DeclaredParts.{error_member, event_member, field_member, given, head_use, head_word, base_use, modifier_word, args_count, given_args, head_kind_word, param_member, var_word, variable_word, where_kind};

use crate::data::{Given, Member, Named, Word};
use crate::gather::Declares;
use crate::pieces::pieces_of;
use std::alloc::Global;
use sv_ast::{
    Args, ArgsKind, Base, ErPar, EvPar, Field, Head, HeadKind, ModifierWord, Param, VarWordKind,
    VariableWord, Where, WhereKind,
};
use sv_plain::Spot;
use sv_text::{NoMemory, Place, Span};

/// Where a node lies.
pub fn spot_of(span: Span, place: Place) -> Spot
    ensures { result ≡ spot span place }
{
    Spot { span, place }
}

fn args_count(args: &ArgsKind) -> usize
    ensures { result ≡ args_count (plain_args_kind args.now) }
{
    match args {
        ArgsKind::Positional(list) => list.len(),
        ArgsKind::Named(list) => list.len(),
    }
}

fn noted_args(args: &Args) -> Given
    ensures { result ≡ given_args (plain_args args.now) }
{
    Given {
        count: args_count(&args.kind),
        spot: spot_of(args.span, args.place),
    }
}

/// What is noted of arguments.
fn given_of(args: &Option<Args>) -> Option<Given>
    ensures { result ≡ given args.now }
{
    match args {
        None => None,
        Some(a) => Some(noted_args(a)),
    }
}

/// The word of a function.
fn head_word(k: &HeadKind) -> Option<Word>
    ensures { result ≡ head_kind_word k.now }
{
    match k {
        HeadKind::Public => Some(Word::Public),
        HeadKind::Private => Some(Word::Private),
        HeadKind::Internal => Some(Word::Internal),
        HeadKind::External => Some(Word::External),
        HeadKind::Pure => Some(Word::Pure),
        HeadKind::View => Some(Word::View),
        HeadKind::Payable => Some(Word::Payable),
        HeadKind::Virtual => Some(Word::Virtual),
        HeadKind::Over(_) => Some(Word::Override),
        HeadKind::Use { name: _, args: _ } => None,
    }
}

fn var_word(k: VarWordKind) -> Word
    ensures { result ≡ var_word k }
{
    match k {
        VarWordKind::Public => Word::Public,
        VarWordKind::Private => Word::Private,
        VarWordKind::Internal => Word::Internal,
        VarWordKind::Constant => Word::Constant,
        VarWordKind::Immutable => Word::Immutable,
    }
}

impl Declares<Word> for Head {
    ghost declared = { head_word };

    fn declare(&self, _alloc: Global) -> Result<Option<Word>, NoMemory> {
        Ok(head_word(&self.kind))
    }
}

impl Declares<Word> for VariableWord {
    ghost declared = { variable_word };

    fn declare(&self, _alloc: Global) -> Result<Option<Word>, NoMemory> {
        match self {
            VariableWord::Word(w) => Ok(Some(var_word(w.kind))),
            VariableWord::Over(_) => Ok(Some(Word::Override)),
        }
    }
}

impl Declares<Word> for ModifierWord {
    ghost declared = { modifier_word };

    fn declare(&self, _alloc: Global) -> Result<Option<Word>, NoMemory> {
        match self {
            ModifierWord::Virtual => Ok(Some(Word::Virtual)),
            ModifierWord::Over(_) => Ok(Some(Word::Override)),
        }
    }
}

impl Declares<Named> for Base {
    ghost declared = { base_use };

    fn declare(&self, _alloc: Global) -> Result<Option<Named>, NoMemory> {
        Ok(Some(Named {
            name: self.name,
            given: given_of(&self.args),
            spot: spot_of(self.span, self.place),
        }))
    }
}

impl Declares<Named> for Head {
    ghost declared = { head_use };

    fn declare(&self, _alloc: Global) -> Result<Option<Named>, NoMemory> {
        match &self.kind {
            HeadKind::Use { name, args } => Ok(Some(Named {
                name: *name,
                given: given_of(args),
                spot: spot_of(self.span, self.place),
            })),
            HeadKind::Public => Ok(None),
            HeadKind::Private => Ok(None),
            HeadKind::Internal => Ok(None),
            HeadKind::External => Ok(None),
            HeadKind::Pure => Ok(None),
            HeadKind::View => Ok(None),
            HeadKind::Payable => Ok(None),
            HeadKind::Virtual => Ok(None),
            HeadKind::Over(_) => Ok(None),
        }
    }
}

impl Declares<Member> for Param {
    ghost declared = { param_member };

    fn declare(&self, alloc: Global) -> Result<Option<Member>, NoMemory> {
        let of_type = pieces_of(alloc, &self.of_type)?;
        Ok(Some(Member {
            name: self.name,
            of_type,
            location: location_of(&self.location),
            spot: spot_of(self.span, self.place),
        }))
    }
}

fn location_of(location: &Option<Where>) -> Option<WhereKind>
    ensures { result ≡ where_kind location.now }
{
    match location {
        None => None,
        Some(w) => Some(w.kind),
    }
}

impl Declares<Member> for Field {
    ghost declared = { field_member };

    fn declare(&self, alloc: Global) -> Result<Option<Member>, NoMemory> {
        let of_type = pieces_of(alloc, &self.of_type)?;
        Ok(Some(Member {
            name: Some(self.name),
            of_type,
            location: None,
            spot: spot_of(self.span, self.place),
        }))
    }
}

impl Declares<Member> for EvPar {
    ghost declared = { event_member };

    fn declare(&self, alloc: Global) -> Result<Option<Member>, NoMemory> {
        let of_type = pieces_of(alloc, &self.of_type)?;
        Ok(Some(Member {
            name: self.name,
            of_type,
            location: None,
            spot: spot_of(self.span, self.place),
        }))
    }
}

impl Declares<Member> for ErPar {
    ghost declared = { error_member };

    fn declare(&self, alloc: Global) -> Result<Option<Member>, NoMemory> {
        let of_type = pieces_of(alloc, &self.of_type)?;
        Ok(Some(Member {
            name: self.name,
            of_type,
            location: None,
            spot: spot_of(self.span, self.place),
        }))
    }
}
