//! The names that a contract declares.

ghost use Rattle.std.specs.Prelude.{◌≡◌, ◌+◌, ◌-◌, ◌<◌, ◌^◌, [], ◌∷◌, length, map};
ghost use Rattle.sv_first_form.specs.FormParts.{AreNames, Declares};

use crate::contract::Function;
use crate::form_error::FormError;
use crate::parse::name::is_name;
use crate::text::Text;
use sv_text::Names;

/// Adds a text to the names. It must be a name, and new.
pub fn declare(names: &mut Names, text: &[u8]) -> Result<(), FormError>
    requires few { length names.old + 1 < 2 ^ 32 }
    requires names { AreNames names.old }
    ensures { Declares names.old (text.now ∷ []) result names.new }
{
    if !is_name(text) {
        return Err(FormError::Unbuilt);
    }
    if names.find(text).is_some() {
        return Err(FormError::Unbuilt);
    }
    names.intern(text)?;
    Ok(())
}

/// Declares the variables in order.
pub fn declare_variables(names: &mut Names, variables: &[Text<'_>]) -> Result<(), FormError>
    requires few { length names.old + length variables.now < 2 ^ 32 }
    requires names { AreNames names.old }
    ensures { Declares names.old variables.now result names.new }
{
    for variable in variables {
        declare(names, variable.bytes())?;
    }
    Ok(())
}

/// Declares the functions in order.
pub fn declare_functions(names: &mut Names, functions: &[Function<'_>]) -> Result<(), FormError>
    requires few { length names.old + length functions.now < 2 ^ 32 }
    requires names { AreNames names.old }
    ensures { Declares names.old (map (λ f. f.name) functions.now) result names.new }
{
    for function in functions {
        declare(names, function.name.bytes())?;
    }
    Ok(())
}
