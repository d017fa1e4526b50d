//! What is known.
#![tactic(auto)]

ghost use Rattle.std.specs.Prelude.{◌≡◌};
ghost use Rattle.sv_seen.specs.NameMeanings.{surroundings};
ghost use Rattle.sv_naming.specs.NamesKnown.{contract_of, known_of, nothing_known, sees, around, text_of, within_of};

use sqlite_items::Items;
use std::alloc::Global;
use sv_decl::DeclaredText;
use sv_local_names::LocalNames;
use sv_seen::{Outlook, Within};
use sv_target::Target;
use sv_text::{Name, Names, Span};

/// A use of a name, by its bytes, and what the name means there.
#[derive(Clone, Copy, Debug, PartialEq, Eq)]
pub struct Bind {
    pub use_at: Span,
    pub to: Target,
}

/// What is known of names at a place of a text.
#[derive(Drop)]
pub struct Naming<'a> {
    pub alloc: Global,
    /// The texts of names.
    pub names: &'a Names,
    pub text: &'a DeclaredText,
    /// For each contract the contracts whose names it sees, the most derived last.
    pub lines: &'a [Items<u32>],
    /// How many contracts end before the place, and whether one is around it.
    pub ended: u32,
    pub in_contract: bool,
    /// How many parameters the function has that was entered last, and whether it is a constructor.
    pub params: usize,
    pub in_constructor: bool,
    pub locals: LocalNames,
    /// The annotation around.
    pub note: Within,
    /// How many values at the entry are around, in an annotation.
    pub entries: u32,
    /// The names so far.
    pub binds: Items<Bind>,
}

/// The text of a name; none where the list doesn't have the name.
fn text_of(names: &Names, n: Name) -> &[u8]
    ensures { result.now ≡ text_of names.now n }
{
    if (n.position() as usize) < names.len() {
        names.text(n)
    } else {
        &[]
    }
}

fn contract_of(in_contract: bool, ended: u32) -> Option<u32>
    ensures { result ≡ contract_of in_contract ended }
{
    if in_contract { Some(ended) } else { None }
}

fn within_of(note: Within, entries: u32) -> Within
    ensures { result ≡ within_of note entries }
{
    match note {
        Within::Code => Within::Code,
        Within::Entry => Within::Entry,
        Within::Annotation => {
            if entries == 0 {
                Within::Annotation
            } else {
                Within::Entry
            }
        }
    }
}

impl<'a> Naming<'a> {
    /// Nothing was read.
    pub fn new(
        alloc: Global,
        names: &'a Names,
        text: &'a DeclaredText,
        lines: &'a [Items<u32>],
    ) -> Naming<'a>
        ensures { known_of result ≡ nothing_known names.now text.now lines.now }
    {
        Naming {
            alloc,
            names,
            text,
            lines,
            ended: 0,
            in_contract: false,
            params: 0,
            in_constructor: false,
            locals: LocalNames::new(alloc),
            note: Within::Code,
            entries: 0,
            binds: Items::new(alloc),
        }
    }

    /// The contracts whose names a contract sees.
    pub fn sees(&self, c: u32) -> &[u32]
        ensures { result.now ≡ sees (known_of self.now) c }
    {
        match self.lines.get(c as usize) {
            None => &[],
            Some(line) => line.as_slice(),
        }
    }

    /// What is around.
    pub fn outlook(&self) -> Outlook<'_>
        ensures { surroundings result ≡ around (known_of self.now) }
    {
        Outlook {
            text: self.text,
            contract: contract_of(self.in_contract, self.ended),
            line: self.sees(self.ended),
            locals: &self.locals,
            within: within_of(self.note, self.entries),
        }
    }

    /// The text of a name.
    pub fn spelling(&self, name: Name) -> &[u8]
        ensures { result.now ≡ text_of (known_of self.now).names name }
    {
        text_of(self.names, name)
    }
}
