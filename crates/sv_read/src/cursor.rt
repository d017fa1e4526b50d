//! What the readers read: the tokens of a text with the names of their texts, from a position on.

ghost use Rattle.std.specs.Prelude.{◌≡◌, ◌≤◌, ◌+◌, ◌∷◌, [], length, map};
ghost use Rattle.sv_grammar.specs.Grammar.{elem, extent_of, name, text, word};
ghost use Rattle.sv_grammar.specs.Reach.{between};
ghost use Rattle.sv_ast.specs.Trees.{extent};
ghost use Rattle.sv_ast.specs.Syntax.{quoted, id, ids};
ghost use Rattle.sv_ast.specs.Terminals.{code};
ghost use Rattle.sv_read.specs.Here.{seen, given_by, AreNamed};
ghost use Rattle.sv_read.specs.PartReading.{Reads, no_tree};

use crate::parse_error::ParseError;
use crate::symbol::Symbol;
use std::alloc::Global;
use std::marker::Model;
use sv_ast::Class;
use sv_text::{Name, Names, Place, Span};

/// A position in the tokens of a text. A contract sees the tokens as the grammar does, with the names of their texts, and the position.
#[derive(Drop)]
pub struct Cursor<'a> {
    alloc: Global,
    symbols: &'a [Symbol],
    names: &'a Names,
    at: usize,
}

impl<'a> Model for Cursor<'a> {
    ghost use Rattle.sv_read.specs.Here.{Here, here, IsInside};

    ghost Value = { Here };

    ghost view = { here };

    ghost invariant = { IsInside };
}

/// Where a node lies: its bytes, and the place of the first.
#[derive(Clone, Copy)]
pub struct Extent {
    pub span: Span,
    pub place: Place,
}

/// The names that are no keyword and not `_`.
const IDS: [Class; 4] = [Class::Id, Class::Error, Class::Revert, Class::Value];

impl<'a> Cursor<'a> {
    /// These symbols with their names, from a position on.
    pub fn new(alloc: Global, symbols: &'a [Symbol], names: &'a Names, at: usize) -> Cursor<'a>
        requires named { AreNamed names.now symbols.now }
        requires within { at ≤ length symbols.now }
        ensures given { result.given ≡ given_by names.now symbols.now }
        ensures at { result.at ≡ at }
    {
        Cursor {
            alloc,
            symbols,
            names,
            at,
        }
    }

    /// Another cursor at the same position.
    pub fn fork(&self) -> Cursor<'a>
        ensures { result ≡ self.now }
    {
        Cursor {
            alloc: self.alloc,
            symbols: self.symbols,
            names: self.names,
            at: self.at,
        }
    }

    /// The allocator for what is read.
    pub fn alloc(&self) -> Global {
        self.alloc
    }

    /// The position.
    pub fn at(&self) -> usize
        ensures is { result ≡ self.now.at }
        ensures within { result ≤ length self.now.given.tokens }
    {
        self.at
    }

    /// The number of the next token's class, and 0 at the end.
    fn next(&self) -> u8
        ensures { result ≡ seen self.now }
    {
        if self.at < self.symbols.len() {
            self.symbols[self.at].class.number()
        } else {
            0
        }
    }

    /// Whether the next token is of this class.
    pub fn sees(&self, class: Class) -> bool
        ensures { result ≡ elem (seen self.now) (code class ∷ []) }
    {
        self.next() == class.number()
    }

    /// Whether the next token is of one of these classes.
    pub fn sees_any(&self, classes: &[Class]) -> bool
        ensures { result ≡ elem (seen self.now) (map code classes.now) }
    {
        let next = self.next();
        for class in classes {
            if next == class.number() {
                return true;
            }
        }
        false
    }

    /// Takes a token of this class.
    pub fn expect(&mut self, class: Class) -> Result<(), ParseError>
        ensures { Reads no_tree (quoted class) self.old result self.new }
    {
        if !self.sees(class) {
            return Err(ParseError::Syntax(self.at));
        }
        self.at += 1;
        Ok(())
    }

    /// Takes a token of the class with this number, from 0 on.
    pub fn word(&mut self, class: u8) -> Result<(), ParseError>
        ensures { Reads no_tree (word ((class + 1) ∷ [])) self.old result self.new }
    {
        if !self.sees_word(class) {
            return Err(ParseError::Syntax(self.at));
        }
        self.at += 1;
        Ok(())
    }

    /// Takes a token of the class with this number, from 0 on: the name of its text.
    pub fn kept(&mut self, class: u8) -> Result<Name, ParseError>
        ensures { Reads name (text ((class + 1) ∷ [])) self.old result self.new }
    {
        if !self.sees_word(class) {
            return Err(ParseError::Syntax(self.at));
        }
        let taken = self.symbols[self.at].name;
        self.at += 1;
        Ok(taken)
    }

    /// Whether the next token is of the class with this number, from 0 on.
    pub fn sees_word(&self, class: u8) -> bool
        ensures { result ≡ elem (seen self.now) ((class + 1) ∷ []) }
    {
        let next = self.next();
        if next == 0 {
            return false;
        }
        next - 1 == class
    }

    /// Takes a token of one of these classes: the name of its text.
    pub fn text(&mut self, classes: &[Class]) -> Result<Name, ParseError>
        ensures { Reads name (text (map code classes.now)) self.old result self.new }
    {
        if !self.sees_any(classes) {
            return Err(ParseError::Syntax(self.at));
        }
        let taken = self.symbols[self.at].name;
        self.at += 1;
        Ok(taken)
    }

    /// Takes a name that is no keyword and not `_`.
    pub fn id(&mut self) -> Result<Name, ParseError>
        ensures { Reads name id self.old result self.new }
    {
        self.text(&IDS)
    }

    /// Whether the next token is a name that is no keyword and not `_`.
    pub fn sees_id(&self) -> bool
        ensures { result ≡ elem (seen self.now) ids }
    {
        self.sees_any(&IDS)
    }

    /// Where the tokens from a position up to the cursor lie.
    pub fn extent(&self, from: usize) -> Extent
        ensures { extent result.span result.place ≡ extent_of (between self.now.given.tokens from self.now.at) }
    {
        if from >= self.at {
            return Extent {
                span: Span { from: 0, to: 0 },
                place: Place { line: 1, col: 1 },
            };
        }
        let first = &self.symbols[from];
        let last = &self.symbols[self.at - 1];
        Extent {
            span: Span {
                from: first.span.from,
                to: last.span.to,
            },
            place: first.place,
        }
    }
}
