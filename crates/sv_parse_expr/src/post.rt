//! Atoms and what is applied to them.
#![tactic(auto, using(sv_read::proofs::Reading::fails_memory))]

ghost use Rattle.std.specs.Prelude.{◌≡◌, [], ◌∷◌, true, refl, map};
ghost use Rattle.sv_parse_expr.specs.ExprWords.{elem, opt, side, unit, code, ◌⊗◌, last, optional_commas, listed, quoted, ◌⊙◌, args_kind_tree, args_tree, atom_kind_tree, atom_tree, expr_tree, named_arg_tree, post_tree, suffix_kind_tree, suffix_tree, type_tree, unit10_kind_tree, unit10_tree, seen, Reads, either_tree, May, args_part, named};
ghost use Rattle.sv_ast.specs.declared.class.Class.TheVariants as k;
ghost use Rattle.sv_ast.specs.Syntax as g;

use crate::operators::sees_expr;
use crate::reader::{Exprs, NestedExprs};
use sqlite_items::{Boxed, Items};
use sv_ast::{
    Args, ArgsKind, Atom, AtomKind, Expr, NamedArg, Post, Suffix, SuffixKind, TypeExpr, Unit10,
    Unit10Kind,
};
use sv_read::Either::{self, First, Second};
use sv_read::words::{
    ADDRESS, COLON, DAYS, DECREMENT, DOT, ELEMENTARY, ETHER, FALSE, GWEI, HEXADECIMAL, HOURS,
    INCREMENT, L_BRACE, L_BRACKET, L_PAREN, MINUTES, NEW, NUMBER, PAYABLE, R_BRACE, R_BRACKET,
    R_PAREN, SECONDS, STRING_LITERAL, SUPER, THIS, TRUE, TYPE, VALUE, WEEKS, WEI,
};
use sv_read::{Begins, Class, Commas, Cursor, Extent, Kept, Parse, ParseError, Word, placed, with};
use sv_text::Name;

/// An atom with what is applied to it, as `a.b[i](x)`.
impl<N: NestedExprs> Parse<Exprs<N>> for Post {
    ghost part = { side g.post };

    ghost tree = { post_tree };

    fn parse(reader: &Exprs<N>, cursor: &mut Cursor<'_>) -> Result<Post, ParseError> {
        if cursor.sees(Class::New) {
            return new_post(reader, cursor);
        }
        let from = cursor.at();
        let (atom, suffixes) = Parse::parse(reader, cursor)?;
        let Extent { span, place } = cursor.extent(from);
        Ok(Post {
            atom,
            suffixes,
            span,
            place,
        })
    }
}

/// `new` with a type and what is applied to it, as `new uint256[](3)`.
fn new_post<N: NestedExprs>(reader: &Exprs<N>, cursor: &mut Cursor<'_>) -> Result<Post, ParseError>
    requires may { May N.nests N.floor reader.now.nested (side g.post) cursor.old.at }
    requires sees_new { elem (seen cursor.old) (code k.New ∷ []) ≡ true }
    ensures { Reads post_tree (side g.post) cursor.old result cursor.new }
{
    let from = cursor.at();
    let front = <(Word<NEW>, Boxed<TypeExpr>) as Parse<Exprs<N>>>::parse(reader, cursor)?;
    let Extent { span, place } = cursor.extent(from);
    let ((_, of), suffixes) = with(front, Parse::parse(reader, cursor))?;
    let atom = Atom {
        kind: AtomKind::New(of),
        span,
        place,
    };
    let Extent { span, place } = cursor.extent(from);
    Ok(Post {
        atom,
        suffixes,
        span,
        place,
    })
}

/// What is applied to an expression that stands before it.
impl<N: NestedExprs> Parse<Exprs<N>> for Suffix {
    ghost part = { side g.suffix };

    ghost tree = { suffix_tree };

    fn parse(reader: &Exprs<N>, cursor: &mut Cursor<'_>) -> Result<Suffix, ParseError> {
        let (kind, span, place) = placed(reader, cursor)?;
        Ok(Suffix { kind, span, place })
    }
}

impl<N: NestedExprs> Begins<Exprs<N>> for Suffix {
    fn begins(cursor: &Cursor<'_>) -> bool {
        cursor.sees_any(&[
            Class::LParen,
            Class::LBracket,
            Class::LBrace,
            Class::Dot,
            Class::Increment,
            Class::Decrement,
        ])
    }

    ghost filled = { refl };
}

impl<N: NestedExprs> Parse<Exprs<N>> for SuffixKind {
    ghost part = { g.rules g.suffix };

    ghost tree = { suffix_kind_tree };

    fn parse(reader: &Exprs<N>, cursor: &mut Cursor<'_>) -> Result<SuffixKind, ParseError> {
        type Index = (Word<L_BRACKET>, Boxed<Expr>, Word<R_BRACKET>);
        type Member = (Word<DOT>, Name);
        type Given = (Word<COLON>, Boxed<Expr>, Word<R_BRACE>);
        type Value = (Word<L_BRACE>, Word<VALUE>, Given);
        type Step = Either<Word<INCREMENT>, Word<DECREMENT>>;
        type Forms = Either<Index, Either<Member, Either<Args, Either<Value, Step>>>>;
        match <Forms as Parse<Exprs<N>>>::parse(reader, cursor)? {
            First((_, index, _)) => Ok(SuffixKind::Index(index)),
            Second(First((_, member))) => Ok(SuffixKind::Member(member)),
            Second(Second(First(args))) => Ok(SuffixKind::Call(args)),
            Second(Second(Second(First((_, _, given))))) => Ok(SuffixKind::Value(given.1)),
            Second(Second(Second(Second(First(_))))) => Ok(SuffixKind::Increment),
            Second(Second(Second(Second(Second(_))))) => Ok(SuffixKind::Decrement),
        }
    }
}

/// The smallest expressions, without `new`.
impl<N: NestedExprs> Parse<Exprs<N>> for Atom {
    ghost part = { side g.atom };

    ghost tree = { atom_tree };

    fn parse(reader: &Exprs<N>, cursor: &mut Cursor<'_>) -> Result<Atom, ParseError> {
        let (kind, span, place) = placed(reader, cursor)?;
        Ok(Atom { kind, span, place })
    }
}

type Asked = (Word<TYPE>, Word<L_PAREN>, Boxed<TypeExpr>, Word<R_PAREN>);

type Paren = (Word<L_PAREN>, Boxed<Expr>, Word<R_PAREN>);

/// The atoms that begin with a word or with `(`.
type Told = Either<
    Word<ADDRESS>,
    Either<Word<PAYABLE>, Either<Asked, Either<Word<SUPER>, Either<Word<THIS>, Paren>>>>,
>;

/// Truth values, names and elementary types, or an atom of those.
type Named = Either<Word<TRUE>, Either<Word<FALSE>, Either<Name, Either<Kept<ELEMENTARY>, Told>>>>;

impl<N: NestedExprs> Parse<Exprs<N>> for AtomKind {
    ghost part = { g.rules g.atom };

    ghost tree = { atom_kind_tree };

    fn parse(reader: &Exprs<N>, cursor: &mut Cursor<'_>) -> Result<AtomKind, ParseError> {
        type Number = (Kept<NUMBER>, Option<Unit10>);
        type Strings = Either<Kept<STRING_LITERAL>, Named>;
        type Forms = Either<Number, Either<Kept<HEXADECIMAL>, Strings>>;
        match <Forms as Parse<Exprs<N>>>::parse(reader, cursor)? {
            First((digits, unit)) => Ok(AtomKind::Number {
                digits: digits.0,
                unit,
            }),
            Second(First(digits)) => Ok(AtomKind::Hexadecimal(digits.0)),
            Second(Second(First(string))) => Ok(AtomKind::String(string.0)),
            Second(Second(Second(named))) => Ok(by_name::<N>(named)),
        }
    }
}

fn by_name<N: NestedExprs>(named: Named) -> AtomKind
    ensures { atom_kind_tree result ≡ last 3 (⟦<Named as Parse<Exprs<N>>>⟧.tree named) }
{
    match named {
        First(_) => AtomKind::True,
        Second(First(_)) => AtomKind::False,
        Second(Second(First(name))) => AtomKind::Name(name),
        Second(Second(Second(First(name)))) => AtomKind::Elementary(name.0),
        Second(Second(Second(Second(told)))) => by_word::<N>(told),
    }
}

fn by_word<N: NestedExprs>(told: Told) -> AtomKind
    ensures { atom_kind_tree result ≡ last 7 (⟦<Told as Parse<Exprs<N>>>⟧.tree told) }
{
    match told {
        First(_) => AtomKind::Address,
        Second(First(_)) => AtomKind::Payable,
        Second(Second(First((_, _, of, _)))) => AtomKind::Type(of),
        Second(Second(Second(First(_)))) => AtomKind::Super,
        Second(Second(Second(Second(First(_))))) => AtomKind::This,
        Second(Second(Second(Second(Second((_, inner, _)))))) => AtomKind::Paren(inner),
    }
}

/// The unit of a number, as the `days` of `3 days`.
impl<N: NestedExprs> Parse<Exprs<N>> for Unit10 {
    ghost part = { side g.unit10 };

    ghost tree = { unit10_tree };

    fn parse(reader: &Exprs<N>, cursor: &mut Cursor<'_>) -> Result<Unit10, ParseError> {
        let (kind, span, place) = placed(reader, cursor)?;
        Ok(Unit10 { kind, span, place })
    }
}

impl<N: NestedExprs> Begins<Exprs<N>> for Unit10 {
    fn begins(cursor: &Cursor<'_>) -> bool {
        cursor.sees_any(&[
            Class::Days,
            Class::Ether,
            Class::Gwei,
            Class::Hours,
            Class::Minutes,
            Class::Seconds,
            Class::Weeks,
            Class::Wei,
        ])
    }

    ghost filled = { refl };
}

impl<N: NestedExprs> Parse<Exprs<N>> for Unit10Kind {
    ghost part = { g.rules g.unit10 };

    ghost tree = { unit10_kind_tree };

    fn parse(reader: &Exprs<N>, cursor: &mut Cursor<'_>) -> Result<Unit10Kind, ParseError> {
        type Ends = Either<Word<HOURS>, Either<Word<DAYS>, Word<WEEKS>>>;
        type Times = Either<Word<SECONDS>, Either<Word<MINUTES>, Ends>>;
        type Forms = Either<Word<WEI>, Either<Word<GWEI>, Either<Word<ETHER>, Times>>>;
        match <Forms as Parse<Exprs<N>>>::parse(reader, cursor)? {
            First(_) => Ok(Unit10Kind::Wei),
            Second(First(_)) => Ok(Unit10Kind::Gwei),
            Second(Second(First(_))) => Ok(Unit10Kind::Ether),
            Second(Second(Second(First(_)))) => Ok(Unit10Kind::Seconds),
            Second(Second(Second(Second(First(_))))) => Ok(Unit10Kind::Minutes),
            Second(Second(Second(Second(Second(First(_)))))) => Ok(Unit10Kind::Hours),
            Second(Second(Second(Second(Second(Second(First(_))))))) => Ok(Unit10Kind::Days),
            Second(Second(Second(Second(Second(Second(Second(_))))))) => Ok(Unit10Kind::Weeks),
        }
    }
}

/// Arguments, as `(a, b)` or `({to: a})`.
impl<N: NestedExprs> Parse<Exprs<N>> for Args {
    ghost part = { side g.args };

    ghost tree = { args_tree };

    fn parse(reader: &Exprs<N>, cursor: &mut Cursor<'_>) -> Result<Args, ParseError> {
        type Parts = (Word<L_PAREN>, ArgsKind);
        let ((_, kind), span, place) = placed::<_, Parts>(reader, cursor)?;
        Ok(Args { kind, span, place })
    }
}

impl<N: NestedExprs> Begins<Exprs<N>> for Args {
    fn begins(cursor: &Cursor<'_>) -> bool {
        cursor.sees_any(&[Class::LParen])
    }

    ghost filled = { refl };
}

/// Arguments in order, with the `)` behind them.
#[derive(Drop)]
struct InOrder(Items<Expr>);

impl<N: NestedExprs> Parse<Exprs<N>> for InOrder {
    ghost part = { opt (listed (side g.expr)) ⊙ quoted k.RParen };

    ghost tree = { λ a. optional_commas (map expr_tree a.0) ⊗ unit };

    fn parse(reader: &Exprs<N>, cursor: &mut Cursor<'_>) -> Result<InOrder, ParseError> {
        type Parts = (Commas<Expr>, Word<R_PAREN>);
        let (exprs, _) = <Parts as Parse<Exprs<N>>>::parse(reader, cursor)?;
        Ok(InOrder(exprs.0))
    }
}

impl<N: NestedExprs> Begins<Exprs<N>> for InOrder {
    fn begins(cursor: &Cursor<'_>) -> bool {
        sees_expr(cursor) || cursor.sees(Class::RParen)
    }

    ghost filled = { refl };
}

impl<N: NestedExprs> Parse<Exprs<N>> for ArgsKind {
    ghost part = { args_part };

    ghost tree = { args_kind_tree };

    fn parse(reader: &Exprs<N>, cursor: &mut Cursor<'_>) -> Result<ArgsKind, ParseError> {
        type End = (Word<R_BRACE>, Word<R_PAREN>);
        type ByName = (Word<L_BRACE>, Commas<NamedArg>, End);
        match <Either<InOrder, ByName> as Parse<Exprs<N>>>::parse(reader, cursor)? {
            First(exprs) => Ok(ArgsKind::Positional(exprs.0)),
            Second((_, args, _)) => Ok(ArgsKind::Named(args.0)),
        }
    }
}

/// An argument by name, as `to: a`.
impl<N: NestedExprs> Parse<Exprs<N>> for NamedArg {
    ghost part = { named };

    ghost tree = { named_arg_tree };

    fn parse(reader: &Exprs<N>, cursor: &mut Cursor<'_>) -> Result<NamedArg, ParseError> {
        type Parts = (Name, Word<COLON>, Expr);
        let (name, _, value) = <Parts as Parse<Exprs<N>>>::parse(reader, cursor)?;
        Ok(NamedArg { name, value })
    }
}

impl<N: NestedExprs> Begins<Exprs<N>> for NamedArg {
    fn begins(cursor: &Cursor<'_>) -> bool {
        cursor.sees_id()
    }

    ghost filled = { refl };
}
