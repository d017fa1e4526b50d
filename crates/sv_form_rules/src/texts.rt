ghost use Rattle.std.specs.Prelude.{◌≡◌};
ghost use Rattle.sv_form_rules.specs.NameTexts.{text_of};

use sv_text::{Name, Names};

/// The text of a name, or none where the list doesn't have the name.
pub fn text_of(names: &Names, n: Name) -> &[u8]
    ensures { result.now ≡ text_of names.now n }
{
    if (n.position() as usize) < names.len() {
        names.text(n)
    } else {
        &[]
    }
}
