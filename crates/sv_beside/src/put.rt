ghost use Rattle.std.specs.Prelude.{◌≡◌, ◌+◌, ◌≤◌, length, take, vec_capacity};
ghost use Rattle.sv_term_room.specs.TermRows.{terms_of};
ghost use Rattle.sv_beside.specs.BesideTerms.{AreBeside, HasNext};

use crate::told::told;
use sv_plain_terms::is_plain_node;
use sv_term_forms::Forms;
use sv_term_room::TermRoom;

/// Puts what stands beside the next term: the first that has no flag.
pub fn put_next(terms: &TermRoom, forms: &mut Forms, flags: &mut Vec<bool>)
    requires { HasNext (terms_of terms.now) forms.old flags.old.items (vec_capacity flags.old) }
    ensures beside { AreBeside (take (length flags.old.items + 1) (terms_of terms.now)) forms.new.nodes flags.new.items }
    ensures room { (forms.new.room ≡ forms.old.room) × (length flags.new.items ≡ length flags.old.items + 1) × (vec_capacity flags.old ≤ vec_capacity flags.new) }
{
    terms.is_sound();
    let n = flags.len();
    forms.push(told(terms, n));
    let plain = is_plain_node(terms, flags, n);
    flags.push(plain).unwrap();
}
