//! Words of declarations.
#![tactic(auto)]

ghost use Rattle.std.specs.Prelude.{◌≡◌};
ghost use Rattle.sv_rival.specs.RivalWords.{is_external, is_external_word, is_override, is_override_word, is_public, is_public_word, is_virtual, is_virtual_word, words_of};

use sv_decl::{Declaration, DeclarationKind, Word};

fn words_of(k: &DeclarationKind) -> &[Word]
    ensures { result.now ≡ words_of k.now }
{
    match k {
        DeclarationKind::Callable(s) => s.words.as_slice(),
        DeclarationKind::Variable {
            of_type: _,
            words,
            value: _,
        } => words.as_slice(),
        _ => &[],
    }
}

fn is_virtual_word(w: Word) -> bool
    ensures { result ≡ is_virtual_word w }
{
    matches!(w, Word::Virtual)
}

fn is_override_word(w: Word) -> bool
    ensures { result ≡ is_override_word w }
{
    matches!(w, Word::Override)
}

fn is_external_word(w: Word) -> bool
    ensures { result ≡ is_external_word w }
{
    matches!(w, Word::External)
}

fn is_public_word(w: Word) -> bool
    ensures { result ≡ is_public_word w }
{
    matches!(w, Word::Public)
}

/// Whether `virtual` is among its words.
pub fn is_virtual(f: &Declaration) -> bool
    ensures { result ≡ is_virtual f.now }
{
    words_of(&f.kind).iter().any(|w| is_virtual_word(*w))
}

/// Whether `override` is among its words.
pub fn is_override(f: &Declaration) -> bool
    ensures { result ≡ is_override f.now }
{
    words_of(&f.kind).iter().any(|w| is_override_word(*w))
}

/// Whether `external` is among its words.
pub fn is_external(f: &Declaration) -> bool
    ensures { result ≡ is_external f.now }
{
    words_of(&f.kind).iter().any(|w| is_external_word(*w))
}

/// Whether `public` is among its words.
pub fn is_public(f: &Declaration) -> bool
    ensures { result ≡ is_public f.now }
{
    words_of(&f.kind).iter().any(|w| is_public_word(*w))
}
