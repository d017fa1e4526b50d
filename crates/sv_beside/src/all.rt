ghost use Rattle.std.specs.Prelude.{◌≡◌, ◌≤◌, length, vec_capacity, IfOk};
ghost use Rattle.sv_term_room.specs.TermRows.{terms_of};
ghost use Rattle.sv_beside.specs.BesideTerms.{AreBeside};

use crate::put::put_next;
use std::alloc::Global;
use sv_term_forms::Forms;
use sv_term_room::TermRoom;
use sv_text::NoMemory;

/// What stands beside the terms of a room, by their numbers.
#[derive(Drop)]
pub struct Beside {
    pub forms: Forms,
    /// Whether the term is plain.
    pub flags: Vec<bool>,
}

/// What stands beside the terms of a room, and room for so many, those that are there included. It takes all memory that is ever needed.
pub fn beside_all(alloc: Global, terms: &TermRoom, room: usize) -> Result<Beside, NoMemory>
    requires { length terms.now.rows ≤ room }
    ensures beside { IfOk result (λ b. AreBeside (terms_of terms.now) b.forms.nodes b.flags.items) }
    ensures room { IfOk result (λ b. (b.forms.room ≡ room) × (room ≤ vec_capacity b.flags)) }
{
    let mut forms = Forms::new(alloc, room)?;
    let mut flags = Vec::with_capacity(alloc, room)?;
    terms.is_sound();
    while flags.len() < terms.len() {
        put_next(terms, &mut forms, &mut flags);
    }
    Ok(Beside { forms, flags })
}
