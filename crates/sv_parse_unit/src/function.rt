//! Functions, with a name and without, and modifiers.

ghost use Rattle.std.specs.Prelude.{◌≡◌, ◌∷◌, [], map, refl};
ghost use Rattle.sv_parse_unit.specs.UnitWords.{elem, name, opt, side, text, id, listed, quoted, ◌⊙◌, ◌∣◌, ctor_tree, function_body_tree, function_tree, head_kind_tree, head_tree, modifier_tree, modifier_word_tree, over_names_tree, over_tree, param_tree, params_tree, special_tree, code, last};
ghost use Rattle.sv_ast.specs.declared.class.Class.TheVariants as k;
ghost use Rattle.sv_ast.specs.Syntax as g;

use crate::reader::Units;
use sqlite_items::Items;
use sv_ast::{
    Args, Block, Ctor, Function, Head, HeadKind, Modifier, ModifierWord, Note, Over, Param, Params,
    Special,
};
use sv_parse_expr::sees_type;
use sv_read::Either::{self, First, Second};
use sv_read::words::{
    CONSTRUCTOR, EXTERNAL, FUNCTION, INTERNAL, L_PAREN, MODIFIER, OVERRIDE, PAYABLE, PRIVATE,
    PUBLIC, PURE, R_PAREN, RETURNS, SEMICOLON, VIEW, VIRTUAL,
};
use sv_read::{Begins, Class, Commas, Cursor, Listed, Parse, ParseError, Word, behind, placed};
use sv_text::Name;

/// A function, as `function f(uint256 a) public returns (uint256) { .. }`; without a body it ends with `;`.
impl Parse<Units> for Function {
    ghost part = { side g.function };

    ghost tree = { function_tree };

    fn parse(reader: &Units, cursor: &mut Cursor<'_>) -> Result<Function, ParseError> {
        type Results = Option<(Word<RETURNS>, Params)>;
        type End = (Items<Head>, Results, Body);
        type Parts = (Items<Note>, Word<FUNCTION>, Name, Params, End);
        let ((notes, _, name, params, end), span, place) = placed::<_, Parts>(reader, cursor)?;
        Ok(Function {
            notes,
            name,
            params,
            heads: end.0,
            results: behind(end.1),
            body: body_of(end.2),
            span,
            place,
        })
    }
}

type Body = Either<Block, Word<SEMICOLON>>;

/// The body of a function, if it has one.
fn body_of(read: Body) -> Option<Block>
    ensures { function_body_tree result ≡ ⟦<Body as Parse<Units>>⟧.tree read }
{
    match read {
        First(body) => Some(body),
        Second(_) => None,
    }
}

/// A constructor, as `constructor(uint256 a) B(a) { .. }`.
impl Parse<Units> for Ctor {
    ghost part = { side g.ctor };

    ghost tree = { ctor_tree };

    fn parse(reader: &Units, cursor: &mut Cursor<'_>) -> Result<Ctor, ParseError> {
        type Parts = (Items<Note>, Word<CONSTRUCTOR>, Params, Items<Head>, Block);
        let ((notes, _, params, heads, body), span, place) = placed::<_, Parts>(reader, cursor)?;
        Ok(Ctor {
            notes,
            params,
            heads,
            body,
            span,
            place,
        })
    }
}

/// A function without a name, as `receive() external payable { .. }`.
impl Parse<Units> for Special {
    ghost part = { side g.special };

    ghost tree = { special_tree };

    fn parse(reader: &Units, cursor: &mut Cursor<'_>) -> Result<Special, ParseError> {
        type End = (Word<L_PAREN>, Word<R_PAREN>, Items<Head>, Block);
        let ((notes, word, end), span, place) = placed::<_, (Items<Note>, SpecialWord, End)>(
            reader, cursor,
        )?;
        Ok(Special {
            notes,
            word: word.0,
            heads: end.2,
            body: end.3,
            span,
            place,
        })
    }
}

impl Begins<Units> for Special {
    ghost filled = { refl };

    fn begins(cursor: &Cursor<'_>) -> bool {
        cursor.sees_any(&[Class::Note, Class::Fallback, Class::Receive])
    }
}

/// The keyword of a function without a name.
#[derive(Drop)]
struct SpecialWord(Name);

impl Parse<Units> for SpecialWord {
    ghost part = { text (map code (k.Receive ∷ k.Fallback ∷ [])) };

    ghost tree = { λ w. name w.0 };

    fn parse(_reader: &Units, cursor: &mut Cursor<'_>) -> Result<SpecialWord, ParseError> {
        Ok(SpecialWord(cursor.text(&[Class::Receive, Class::Fallback])?))
    }
}

/// A modifier, as `modifier m(uint256 a) virtual { _; }`.
impl Parse<Units> for Modifier {
    ghost part = { side g.modifier };

    ghost tree = { modifier_tree };

    fn parse(reader: &Units, cursor: &mut Cursor<'_>) -> Result<Modifier, ParseError> {
        type Ends = (Items<ModifierWord>, Block);
        type Parts = (Word<MODIFIER>, Name, Option<Params>, Ends);
        let ((_, name, params, ends), span, place) = placed::<_, Parts>(reader, cursor)?;
        Ok(Modifier {
            name,
            params,
            words: ends.0,
            body: ends.1,
            span,
            place,
        })
    }
}

impl Begins<Units> for Modifier {
    ghost filled = { refl };

    fn begins(cursor: &Cursor<'_>) -> bool {
        cursor.sees(Class::Modifier)
    }
}

type ModifierWords = Either<Word<VIRTUAL>, Over>;

impl Parse<Units> for ModifierWord {
    ghost part = { quoted k.Virtual ∣ side g.over };

    ghost tree = { modifier_word_tree };

    fn parse(reader: &Units, cursor: &mut Cursor<'_>) -> Result<ModifierWord, ParseError> {
        match <ModifierWords as Parse<Units>>::parse(reader, cursor)? {
            First(_) => Ok(ModifierWord::Virtual),
            Second(over) => Ok(ModifierWord::Over(over)),
        }
    }
}

impl Begins<Units> for ModifierWord {
    ghost filled = { refl };

    fn begins(cursor: &Cursor<'_>) -> bool {
        <ModifierWords as Begins<Units>>::begins(cursor)
    }
}

/// Parameters in parentheses, as `(uint256 a, bool)`.
impl Parse<Units> for Params {
    ghost part = { side g.params };

    ghost tree = { params_tree };

    fn parse(reader: &Units, cursor: &mut Cursor<'_>) -> Result<Params, ParseError> {
        type Parts = (Word<L_PAREN>, Commas<Param>, Word<R_PAREN>);
        let ((_, params, _), span, place) = placed::<_, Parts>(reader, cursor)?;
        Ok(Params {
            params: params.0,
            span,
            place,
        })
    }
}

impl Begins<Units> for Params {
    ghost filled = { refl };

    fn begins(cursor: &Cursor<'_>) -> bool {
        cursor.sees(Class::LParen)
    }
}

/// A parameter, as `uint256[] memory a`.
impl Parse<Units> for Param {
    ghost part = { side g.param };

    ghost tree = { param_tree };

    fn parse(reader: &Units, cursor: &mut Cursor<'_>) -> Result<Param, ParseError> {
        let ((of_type, location, name), span, place) = placed(reader, cursor)?;
        Ok(Param {
            of_type,
            location,
            name,
            span,
            place,
        })
    }
}

impl Begins<Units> for Param {
    ghost filled = { refl };

    fn begins(cursor: &Cursor<'_>) -> bool {
        sees_type(cursor)
    }
}

/// A word of a function, or a modifier or a base that it uses.
impl Parse<Units> for Head {
    ghost part = { side g.head };

    ghost tree = { head_tree };

    fn parse(reader: &Units, cursor: &mut Cursor<'_>) -> Result<Head, ParseError> {
        let (kind, span, place) = placed(reader, cursor)?;
        Ok(Head { kind, span, place })
    }
}

/// A word that says who may call a function.
type Heads = Either<
    Word<PUBLIC>,
    Either<Word<PRIVATE>, Either<Word<INTERNAL>, Either<Word<EXTERNAL>, Others>>>,
>;

/// Another word of a function.
type Others = Either<
    Word<PURE>,
    Either<
        Word<VIEW>,
        Either<Word<PAYABLE>, Either<Word<VIRTUAL>, Either<Over, (Name, Option<Args>)>>>,
    >,
>;

impl Begins<Units> for Head {
    ghost filled = { refl };

    fn begins(cursor: &Cursor<'_>) -> bool {
        <Heads as Begins<Units>>::begins(cursor)
    }
}

impl Parse<Units> for HeadKind {
    ghost part = { g.rules g.head };

    ghost tree = { head_kind_tree };

    fn parse(reader: &Units, cursor: &mut Cursor<'_>) -> Result<HeadKind, ParseError> {
        match <Heads as Parse<Units>>::parse(reader, cursor)? {
            First(_) => Ok(HeadKind::Public),
            Second(First(_)) => Ok(HeadKind::Private),
            Second(Second(First(_))) => Ok(HeadKind::Internal),
            Second(Second(Second(First(_)))) => Ok(HeadKind::External),
            Second(Second(Second(Second(other)))) => Ok(other_kind(other)),
        }
    }
}

/// A word of a function that doesn't say who may call it.
fn other_kind(other: Others) -> HeadKind
    ensures { head_kind_tree result ≡ last 4 (⟦<Others as Parse<Units>>⟧.tree other) }
{
    match other {
        First(_) => HeadKind::Pure,
        Second(First(_)) => HeadKind::View,
        Second(Second(First(_))) => HeadKind::Payable,
        Second(Second(Second(First(_)))) => HeadKind::Virtual,
        Second(Second(Second(Second(First(over))))) => HeadKind::Over(over),
        Second(Second(Second(Second(Second((name, args)))))) => HeadKind::Use { name, args },
    }
}

/// `override`, with names as in `override(A, B)`, or without.
impl Parse<Units> for Over {
    ghost part = { side g.over };

    ghost tree = { over_tree };

    fn parse(reader: &Units, cursor: &mut Cursor<'_>) -> Result<Over, ParseError> {
        let ((_, names), span, place) = placed::<_, (Word<OVERRIDE>, Names)>(reader, cursor)?;
        Ok(Over {
            names: names.0,
            span,
            place,
        })
    }
}

impl Begins<Units> for Over {
    ghost filled = { refl };

    fn begins(cursor: &Cursor<'_>) -> bool {
        cursor.sees(Class::Override)
    }
}

/// Names in brackets, as `(A, B)`, or nothing.
#[derive(Drop)]
struct Names(Items<Name>);

impl Parse<Units> for Names {
    ghost part = { opt (quoted k.LParen ⊙ listed id ⊙ quoted k.RParen) };

    ghost tree = { λ n. over_names_tree (map name n.0) };

    fn parse(reader: &Units, cursor: &mut Cursor<'_>) -> Result<Names, ParseError> {
        type Parts = Option<(Word<L_PAREN>, Listed<Name>, Word<R_PAREN>)>;
        match <Parts as Parse<Units>>::parse(reader, cursor)? {
            Some((_, names, _)) => Ok(Names(names.0)),
            None => Ok(Names(Items::new(cursor.alloc()))),
        }
    }
}
