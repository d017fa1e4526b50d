//! Names that are used.
#![tactic(auto)]

ghost use Rattle.std.specs.Prelude.{◌≡◌, IfOk, OnOk};
ghost use Rattle.std.specs.Option.{is_some};
ghost use Rattle.sv_naming.specs.NamesKnown.{bind, has_type, is_named, known_of, meaning, used};

use crate::naming::{Bind, Naming};
use sv_seen::{Wanted, in_contract, named};
use sv_target::Target;
use sv_text::{Name, NoMemory, Span};

fn is_named(t: Option<Target>) -> bool
    ensures { result ≡ is_named t }
{
    matches!(&t, Some(Target::Named(_)))
}

impl<'a> Naming<'a> {
    /// What a name means here, as what is wanted.
    pub fn meaning(&self, wanted: Wanted, name: Name) -> Result<Option<Target>, NoMemory>
        ensures { IfOk result (λ t. t ≡ meaning (known_of self.now) wanted name) }
    {
        named(
            self.alloc,
            self.outlook(),
            wanted,
            name,
            self.spelling(name),
        )
    }

    /// Notes what a name means here that stands in these bytes; whether it means something.
    pub fn use_name(&mut self, wanted: Wanted, name: Name, use_at: Span) -> Result<bool, NoMemory>
        ensures known { IfOk result (λ b. b ≡ is_some (meaning (known_of self.old) wanted name)) }
        ensures noted { OnOk result (known_of self.new ≡ used wanted name use_at (known_of self.old)) }
    {
        match self.meaning(wanted, name)? {
            None => Ok(false),
            Some(to) => {
                self.binds.push(Bind { use_at, to })?;
                Ok(true)
            }
        }
    }

    /// Whether a name means a contract here that has a struct or an enum of the other name, its own or inherited.
    pub fn has_type(&self, name: Name, member: Name) -> Result<bool, NoMemory>
        ensures { IfOk result (λ b. b ≡ has_type (known_of self.now) name member) }
    {
        match self.meaning(Wanted::Contract, name)? {
            Some(Target::Contract(c)) => {
                let found = in_contract(self.alloc, self.text, self.sees(c), c, member)?;
                Ok(is_named(found))
            }
            _ => Ok(false),
        }
    }
}
