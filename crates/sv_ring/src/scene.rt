//! What the rule is asked of.

use sqlite_items::Items;
use sv_decl::DeclaredText;

/// A name in a value that means a constant: its first byte, and the number of the constant among the declarations of the text.
#[derive(Clone, Copy, Debug, PartialEq, Eq)]
pub struct ConstantUse {
    pub at: u32,
    pub constant: u32,
}

/// What a text declares, and what is known of its names.
#[derive(Clone, Copy)]
pub struct Scene<'a> {
    pub text: &'a DeclaredText,
    /// The number of the first declaration of each contract, and of the first outside of all.
    pub starts: &'a [u32],
    /// For each contract those whose names it sees, the most derived last: its line, or all that it reaches where it has none.
    pub lines: &'a [Items<u32>],
    pub uses: &'a [ConstantUse],
}
