use std::alloc::{AllocError, AllocFailed};
use sv_text::{NoMemory, Place};
use thiserror::Error;

/// Why no piece of a text can stand where one should.
#[derive(Clone, Copy, Debug, PartialEq, Eq)]
pub enum Flaw {
    /// A byte that begins no token, that breaks a string, or that stands directly behind a number.
    Char,
    /// A comment, a string or a pragma that doesn't end.
    Unclosed,
}

/// Why a text has no list of tokens, or none that is short enough.
#[derive(Clone, Copy, Debug, PartialEq, Eq, Drop, Error)]
pub enum LexFault {
    /// The text has over 1,048,576 bytes.
    #[error("the text is too long")]
    Long,
    /// The first fault of the text is a byte that can't stand there.
    #[error("a byte that can't stand here")]
    Char(Place),
    /// The first fault of the text is a comment, a string or a pragma that doesn't end.
    #[error("a comment, a string or a pragma that doesn't end")]
    Unclosed(Place),
    /// The text has over 200,000 tokens; this is the place of token 200,001.
    #[error("too many tokens")]
    Many(Place),
    /// Memory ran out.
    #[error("out of memory")]
    NoMemory,
}
