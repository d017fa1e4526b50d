//! The words of declarations.
#![tactic(auto)]

ghost use Rattle.std.specs.Prelude.{◌≡◌};
ghost use Rattle.sv_form_book.specs.FormKnown.{head_word, var_word};
ghost use Rattle.sv_form_book.specs.FormRules.{is_virtual_word, has_virtual, has_virtual_twice};

use sv_ast::{HeadKind, ModifierWord, VarWordKind};
use sv_form_rules::Word;

/// The word that a head is, or none where it is `override` or the use of a modifier.
pub fn head_word(k: &HeadKind) -> Option<Word>
    ensures { result ≡ head_word k.now }
{
    match k {
        HeadKind::Public => Some(Word::Public),
        HeadKind::Private => Some(Word::Private),
        HeadKind::Internal => Some(Word::Internal),
        HeadKind::External => Some(Word::External),
        HeadKind::Pure => Some(Word::Pure),
        HeadKind::View => Some(Word::View),
        HeadKind::Payable => Some(Word::Payable),
        HeadKind::Virtual => Some(Word::Virtual),
        HeadKind::Over(_) => None,
        HeadKind::Use { name: _, args: _ } => None,
    }
}

/// The word that a word of a variable is.
pub fn var_word(k: VarWordKind) -> Word
    ensures { result ≡ var_word k }
{
    match k {
        VarWordKind::Public => Word::Public,
        VarWordKind::Private => Word::Private,
        VarWordKind::Internal => Word::Internal,
        VarWordKind::Constant => Word::Constant,
        VarWordKind::Immutable => Word::Immutable,
    }
}

fn is_virtual_word(w: &ModifierWord) -> bool
    ensures { result ≡ is_virtual_word w.now }
{
    match w {
        ModifierWord::Virtual => true,
        ModifierWord::Over(_) => false,
    }
}

fn has_virtual(list: &[ModifierWord]) -> bool
    ensures { result ≡ has_virtual list.now }
{
    let mut left = list;
    'words: while let Some((w, more)) = left.split_first() {
        if is_virtual_word(w) {
            return true;
        }
        left = more;
    }
    false
}

/// Whether `virtual` stands twice.
pub fn has_virtual_twice(list: &[ModifierWord]) -> bool
    ensures { result ≡ has_virtual_twice list.now }
{
    let mut left = list;
    'words: while let Some((w, more)) = left.split_first() {
        if is_virtual_word(w) && has_virtual(more) {
            return true;
        }
        left = more;
    }
    false
}
