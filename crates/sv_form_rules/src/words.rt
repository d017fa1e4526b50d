ghost use Rattle.std.specs.Prelude.{◌≡◌};
ghost use Rattle.sv_form_rules.specs.HeadWords.{is_visibility, is_external, is_mutability, is_payable, virtual_word, is_override, is_constancy, no_words, with_word, contradicts};

/// A word of a function, a modifier or a variable.
#[derive(Clone, Copy, Debug, PartialEq, Eq)]
pub enum Word {
    Public,
    Private,
    Internal,
    External,
    Pure,
    View,
    Payable,
    Virtual,
    Override,
    Constant,
    Immutable,
}

/// Which words stood in a declaration so far.
#[derive(Clone, Copy, Debug, PartialEq, Eq)]
pub struct Words {
    /// Whether a visibility stood: `public`, `private`, `internal` or `external`.
    pub visibility: bool,
    /// Whether it was `external`.
    pub external: bool,
    /// Whether `pure`, `view` or `payable` stood.
    pub mutability: bool,
    /// Whether it was `payable`.
    pub payable: bool,
    /// Whether `virtual` stood.
    pub is_virtual: bool,
    /// Whether `override` stood.
    pub overriding: bool,
    /// Whether `constant` or `immutable` stood.
    pub constancy: bool,
}

impl Words {
    /// No word stood yet.
    pub fn none() -> Words
        ensures { result ≡ no_words }
    {
        Words {
            visibility: false,
            external: false,
            mutability: false,
            payable: false,
            is_virtual: false,
            overriding: false,
            constancy: false,
        }
    }

    /// The words that stood, and one more.
    pub fn with(self, word: Word) -> Words
        ensures { result ≡ with_word self word }
    {
        let mut words = self;
        match word {
            Word::Public | Word::Private | Word::Internal => words.visibility = true,
            Word::External => {
                words.visibility = true;
                words.external = true;
            }
            Word::Pure | Word::View => words.mutability = true,
            Word::Payable => {
                words.mutability = true;
                words.payable = true;
            }
            Word::Virtual => words.is_virtual = true,
            Word::Override => words.overriding = true,
            Word::Constant | Word::Immutable => words.constancy = true,
        }
        words
    }

    /// Whether a word may not stand behind these.
    pub fn contradict(self, word: Word) -> bool
        ensures { result ≡ contradicts self word }
    {
        match word {
            Word::Public | Word::Private | Word::Internal | Word::External => self.visibility,
            Word::Pure | Word::View | Word::Payable => self.mutability,
            Word::Virtual => self.is_virtual,
            Word::Override => self.overriding,
            Word::Constant | Word::Immutable => self.constancy,
        }
    }
}
