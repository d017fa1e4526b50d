//! Contracts and interfaces, their bases, and what stands in them.

ghost use Rattle.std.specs.Prelude.{◌≡◌, [], map, refl};
ghost use Rattle.sv_parse_unit.specs.UnitWords.{elem, name, opt, side, star, unit, list_tree, ◌⊗◌, last, optional_word, id, listed, quoted, ◌⊙◌, ◌∣◌, note_tree, base_list_tree, base_tree, bases_tree, contract_kind_tree, contract_tree, ctor_tree, function_tree, part_kind_tree, part_tree, var_word_kind_tree, var_word_tree, variable_tree, variable_word_tree, either_tree};
ghost use Rattle.sv_ast.specs.declared.class.Class.TheVariants as k;
ghost use Rattle.sv_ast.specs.Syntax as g;

use crate::reader::Units;
use sqlite_items::Items;
use sv_ast::{
    Args, Base, Bases, Contract, ContractKind, Ctor, Enum, Error, Event, Expr, Function, Modifier,
    Note, Over, Part, PartKind, Special, Struct, TypeExpr, VarWord, VarWordKind, Variable,
    VariableWord,
};
use sv_parse_expr::sees_type;
use sv_read::Either::{self, First, Second};
use sv_read::words::{
    ABSTRACT, CONSTANT, CONTRACT, EQUALS, IMMUTABLE, INTERFACE, INTERNAL, IS, L_BRACE, PRIVATE,
    PUBLIC, R_BRACE, SEMICOLON,
};
use sv_read::{
    Begins, Both, Class, Classes, Cursor, Listed, Parse, ParseError, Word, behind, placed,
};
use sv_text::Name;

/// A contract or an interface, as `contract C is B { .. }`.
impl Parse<Units> for Contract {
    ghost part = { side g.contract };

    ghost tree = { contract_tree };

    fn parse(reader: &Units, cursor: &mut Cursor<'_>) -> Result<Contract, ParseError> {
        let (kind, span, place) = placed(reader, cursor)?;
        Ok(Contract { kind, span, place })
    }
}

type Named = (Name, Bases, Word<L_BRACE>, Items<Part>, Word<R_BRACE>);

type Kinds = Either<Noted, (Word<INTERFACE>, Named)>;

impl Begins<Units> for Contract {
    ghost filled = { refl };

    fn begins(cursor: &Cursor<'_>) -> bool {
        <Kinds as Begins<Units>>::begins(cursor)
    }
}

impl Parse<Units> for ContractKind {
    ghost part = { g.rules g.contract };

    ghost tree = { contract_kind_tree };

    fn parse(reader: &Units, cursor: &mut Cursor<'_>) -> Result<ContractKind, ParseError> {
        match <Kinds as Parse<Units>>::parse(reader, cursor)? {
            First(noted) => Ok(ContractKind::Contract {
                notes: noted.notes,
                is_abstract: noted.is_abstract,
                name: noted.named.0,
                bases: noted.named.1,
                parts: noted.named.3,
            }),
            Second((_, named)) => Ok(ContractKind::Interface {
                name: named.0,
                bases: named.1,
                parts: named.3,
            }),
        }
    }
}

/// A contract with its annotation lines, as `contract C { .. }`, and whether it is abstract.
#[derive(Drop)]
struct Noted {
    notes: Items<Note>,
    is_abstract: bool,
    named: Named,
}

impl Parse<Units> for Noted {
    ghost part = { star (side g.note_line) ⊙ opt (quoted k.Abstract) ⊙ quoted k.Contract ⊙ id ⊙ side g.bases ⊙ quoted k.LBrace ⊙ star (side g.part) ⊙ quoted k.RBrace };

    ghost tree = { λ c. list_tree (map note_tree c.notes) ⊗ optional_word c.is_abstract ⊗ unit ⊗ name c.named.0 ⊗ bases_tree c.named.1 ⊗ unit ⊗ list_tree (map part_tree c.named.3) ⊗ unit };

    fn parse(reader: &Units, cursor: &mut Cursor<'_>) -> Result<Noted, ParseError> {
        type Parts = (Items<Note>, Option<Word<ABSTRACT>>, Word<CONTRACT>, Named);
        let (notes, word, _, named) = <Parts as Parse<Units>>::parse(reader, cursor)?;
        Ok(Noted {
            notes,
            is_abstract: word.is_some(),
            named,
        })
    }
}

impl Begins<Units> for Noted {
    ghost filled = { refl };

    fn begins(cursor: &Cursor<'_>) -> bool {
        cursor.sees_any(&[Class::Note, Class::Abstract, Class::Contract])
    }
}

/// The bases of a contract, as `is A, B(1)`, or nothing.
impl Parse<Units> for Bases {
    ghost part = { side g.bases };

    ghost tree = { bases_tree };

    fn parse(reader: &Units, cursor: &mut Cursor<'_>) -> Result<Bases, ParseError> {
        let (bases, span, place) = placed::<_, BaseList>(reader, cursor)?;
        Ok(Bases {
            bases: bases.0,
            span,
            place,
        })
    }
}

/// The bases with the word before them.
#[derive(Drop)]
struct BaseList(Items<Base>);

impl Parse<Units> for BaseList {
    ghost part = { opt (quoted k.Is ⊙ listed (side g.base)) };

    ghost tree = { λ b. base_list_tree (map base_tree b.0) };

    fn parse(reader: &Units, cursor: &mut Cursor<'_>) -> Result<BaseList, ParseError> {
        match <Option<(Word<IS>, Listed<Base>)> as Parse<Units>>::parse(reader, cursor)? {
            Some((_, bases)) => Ok(BaseList(bases.0)),
            None => Ok(BaseList(Items::new(cursor.alloc()))),
        }
    }
}

/// A base with its arguments, as `B(1)`, or without.
impl Parse<Units> for Base {
    ghost part = { side g.base };

    ghost tree = { base_tree };

    fn parse(reader: &Units, cursor: &mut Cursor<'_>) -> Result<Base, ParseError> {
        let ((name, args), span, place) = placed(reader, cursor)?;
        Ok(Base {
            name,
            args,
            span,
            place,
        })
    }
}

/// A declaration in a contract.
impl Parse<Units> for Part {
    ghost part = { side g.part };

    ghost tree = { part_tree };

    fn parse(reader: &Units, cursor: &mut Cursor<'_>) -> Result<Part, ParseError> {
        let (kind, span, place) = placed(reader, cursor)?;
        Ok(Part { kind, span, place })
    }
}

/// What a part may begin with that is no variable.
#[rattlefmt::skip]
const KEYWORDS: [Class; 10] = [
    Class::Note, Class::Constructor, Class::Enum, Class::Error, Class::Event,
    Class::Fallback, Class::Function, Class::Modifier, Class::Receive, Class::Struct,
];

impl Begins<Units> for Part {
    ghost filled = { refl };

    fn begins(cursor: &Cursor<'_>) -> bool {
        sees_type(cursor) || cursor.sees_any(&KEYWORDS)
    }
}

/// No class: what begins alike is told by how far it goes.
pub struct Nowhere;

impl Classes for Nowhere {
    ghost classes = { [] };
}

/// What its keyword tells, or the one behind annotation lines.
type Told = Either<Special, Either<Modifier, Either<Struct, Either<Enum, Either<Event, Error>>>>>;

type Unnamed = Both<Nowhere, Ctor, Told>;

type Others = Both<Nowhere, Function, Unnamed>;

impl Parse<Units> for PartKind {
    ghost part = { g.rules g.part };

    ghost tree = { part_kind_tree };

    fn parse(reader: &Units, cursor: &mut Cursor<'_>) -> Result<PartKind, ParseError> {
        let read = <Both<Nowhere, Variable, Others> as Parse<Units>>::parse(reader, cursor)?;
        Ok(kind_of(read.way))
    }
}

fn kind_of(way: Either<Variable, Others>) -> PartKind
    ensures { part_kind_tree result
        ≡ either_tree variable_tree ⟦<Others as Parse<Units>>⟧.tree way }
{
    match way {
        First(variable) => PartKind::Variable(variable),
        Second(others) => other_kind(others.way),
    }
}

/// A part that is no variable.
fn other_kind(way: Either<Function, Unnamed>) -> PartKind
    ensures { part_kind_tree result
        ≡ last 1 (either_tree function_tree ⟦<Unnamed as Parse<Units>>⟧.tree way) }
{
    match way {
        First(function) => PartKind::Function(function),
        Second(unnamed) => unnamed_kind(unnamed.way),
    }
}

/// A part that is no variable, and no function with a name.
fn unnamed_kind(way: Either<Ctor, Told>) -> PartKind
    ensures { part_kind_tree result
        ≡ last 2 (either_tree ctor_tree ⟦<Told as Parse<Units>>⟧.tree way) }
{
    match way {
        First(ctor) => PartKind::Ctor(ctor),
        Second(told) => by_word(told),
    }
}

/// A part that its keyword tells.
fn by_word(told: Told) -> PartKind
    ensures { part_kind_tree result ≡ last 3 (⟦<Told as Parse<Units>>⟧.tree told) }
{
    match told {
        First(special) => PartKind::Special(special),
        Second(First(modifier)) => PartKind::Modifier(modifier),
        Second(Second(First(of))) => PartKind::Struct(of),
        Second(Second(Second(First(of)))) => PartKind::Enum(of),
        Second(Second(Second(Second(First(event))))) => PartKind::Event(event),
        Second(Second(Second(Second(Second(error))))) => PartKind::Error(error),
    }
}

/// A variable of a contract, as `uint256 public a = 1;`.
impl Parse<Units> for Variable {
    ghost part = { side g.variable };

    ghost tree = { variable_tree };

    fn parse(reader: &Units, cursor: &mut Cursor<'_>) -> Result<Variable, ParseError> {
        type Value = Option<(Word<EQUALS>, Expr)>;
        type Parts = (TypeExpr, Items<VariableWord>, Name, Value, Word<SEMICOLON>);
        let ((of_type, words, name, value, _), span, place) = placed::<_, Parts>(reader, cursor)?;
        Ok(Variable {
            of_type,
            words,
            name,
            value: behind(value),
            span,
            place,
        })
    }
}

type VariableWords = Either<VarWord, Over>;

impl Parse<Units> for VariableWord {
    ghost part = { side g.var_word ∣ side g.over };

    ghost tree = { variable_word_tree };

    fn parse(reader: &Units, cursor: &mut Cursor<'_>) -> Result<VariableWord, ParseError> {
        match <VariableWords as Parse<Units>>::parse(reader, cursor)? {
            First(word) => Ok(VariableWord::Word(word)),
            Second(over) => Ok(VariableWord::Over(over)),
        }
    }
}

impl Begins<Units> for VariableWord {
    ghost filled = { refl };

    fn begins(cursor: &Cursor<'_>) -> bool {
        <VariableWords as Begins<Units>>::begins(cursor)
    }
}

/// A word of a variable but `override`, as `public`.
impl Parse<Units> for VarWord {
    ghost part = { side g.var_word };

    ghost tree = { var_word_tree };

    fn parse(reader: &Units, cursor: &mut Cursor<'_>) -> Result<VarWord, ParseError> {
        let (kind, span, place) = placed(reader, cursor)?;
        Ok(VarWord { kind, span, place })
    }
}

type Constants = Either<Word<CONSTANT>, Word<IMMUTABLE>>;

type VarWords = Either<Word<PUBLIC>, Either<Word<PRIVATE>, Either<Word<INTERNAL>, Constants>>>;

impl Begins<Units> for VarWord {
    ghost filled = { refl };

    fn begins(cursor: &Cursor<'_>) -> bool {
        <VarWords as Begins<Units>>::begins(cursor)
    }
}

impl Parse<Units> for VarWordKind {
    ghost part = { g.rules g.var_word };

    ghost tree = { var_word_kind_tree };

    fn parse(reader: &Units, cursor: &mut Cursor<'_>) -> Result<VarWordKind, ParseError> {
        match <VarWords as Parse<Units>>::parse(reader, cursor)? {
            First(_) => Ok(VarWordKind::Public),
            Second(First(_)) => Ok(VarWordKind::Private),
            Second(Second(First(_))) => Ok(VarWordKind::Internal),
            Second(Second(Second(First(_)))) => Ok(VarWordKind::Constant),
            Second(Second(Second(Second(_)))) => Ok(VarWordKind::Immutable),
        }
    }
}
