//! What is read by the grammar: a type says which part of the grammar it stands for, and its tree.

ghost use Rattle.std.specs.Prelude.{◌≡◌, ℕ, Bool, false};
ghost use Rattle.sv_grammar.specs.Grammar.{Part, Tree, elem};
ghost use Rattle.sv_grammar.specs.Reading.{first, nullable};
ghost use Rattle.sv_ast.specs.Syntax.{Side};
ghost use Rattle.sv_ast.specs.Firsts.{nulls, firsts};
ghost use Rattle.sv_read.specs.Here.{seen};
ghost use Rattle.sv_read.specs.Nesting.{MayRead, leads};
ghost use Rattle.sv_read.specs.PartReading.{Reads};

use crate::cursor::Cursor;
use crate::parse_error::ParseError;

/// Who reads what nests: nodes that stand in others of their kind, read by function values behind a position.
pub trait Nested {
    // The sides of the grammar that are read through it.
    ghost inner: { Side → Bool };

    // The position behind which they may be read.
    ghost floor: { Self → ℕ };

    // What is asked of the functions that read them.
    ghost nests: { Self → Type 0 };
}

/// What is read from the tokens behind a cursor.
pub trait Parse<R: Nested>: Drop {
    ghost part: { Part Side };

    ghost tree: { Self → Tree };

    /// What is read from the cursor on; the cursor stands behind it then. Where it isn't read, the position of the fault, or want of
    /// memory. A part that comes to what nests before it has read a token is read behind the floor alone.
    fn parse(reader: &R, cursor: &mut Cursor<'_>) -> Result<Self, ParseError>
        requires { MayRead (R.nests reader.now) (R.floor reader.now) (leads R.inner part) cursor.old.at }
        ensures { Reads tree part cursor.old result cursor.new };
}

/// What is told by the next token, and has a token.
pub trait Begins<R: Nested>: Parse<R> {
    /// Whether the next token begins it.
    fn begins(cursor: &Cursor<'_>) -> bool
        ensures { result ≡ elem (seen cursor.now) (first nulls firsts Self.part) };

    ghost filled: { nullable nulls Self.part ≡ false };
}
