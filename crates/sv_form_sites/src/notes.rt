//! Which annotations a place takes.
#![tactic(auto)]

ghost use Rattle.std.specs.Prelude.{◌≡◌};
ghost use Rattle.sv_form_book.specs.FormKnown.{note_inside};
ghost use Rattle.sv_form_book.specs.FormRules.{takes, has_sender, is_another};

use sv_form_book::{Inside, Notes};

/// Whether a place takes annotations of a word.
pub fn takes(notes: Notes, text: &[u8]) -> bool
    ensures { result ≡ takes notes text.now }
{
    match notes {
        Notes::Contract | Notes::Loop => text == b"invariant".as_slice(),
        Notes::Function => {
            text == b"precondition".as_slice() || text == b"postcondition".as_slice()
        }
        Notes::Constructor => false,
    }
}

/// Whether annotations of a place may name the sender and the value of the message.
pub fn has_sender(notes: Notes) -> bool
    ensures { result ≡ has_sender notes }
{
    match notes {
        Notes::Contract => false,
        Notes::Loop | Notes::Function | Notes::Constructor => true,
    }
}

/// Which annotation a word makes.
pub fn note_inside(text: &[u8]) -> Inside
    ensures { result ≡ note_inside text.now }
{
    if text == b"postcondition".as_slice() {
        Inside::Postcondition
    } else {
        Inside::Another
    }
}

/// Whether an annotation is around that is no postcondition.
pub fn is_another(inside: Inside) -> bool
    ensures { result ≡ is_another inside }
{
    match inside {
        Inside::Another => true,
        Inside::Code | Inside::Postcondition => false,
    }
}
