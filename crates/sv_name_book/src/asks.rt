//! Whether the names of a node are known.
#![tactic(auto)]

ghost use Rattle.std.specs.Prelude.{◌≡◌, IfOk, OnOk};
ghost use Rattle.sv_naming.specs.NamesKnown.{known_of};
ghost use Rattle.sv_plain.specs.ExprFolds.{plain_plain};
ghost use Rattle.sv_name_book.specs.NameUses.{plain_use};
ghost use Rattle.sv_name_book.specs.NameBook.{are_contracts, is_plain_known, is_type_known, is_use_known, optional_used};

use crate::uses::{TypeNames, Use, plain_names, plain_use};
use sv_ast::Plain;
use sv_naming::Naming;
use sv_seen::Wanted;
use sv_text::{Name, NoMemory};

/// Notes what the name of a node means; whether it means something, or there is none.
pub fn note_use(n: &mut Naming<'_>, u: Option<Use>) -> Result<bool, NoMemory>
    ensures known { IfOk result (λ b. b ≡ is_use_known (known_of n.old) u) }
    ensures noted { OnOk result (known_of n.new ≡ optional_used u (known_of n.old)) }
{
    match u {
        None => Ok(true),
        Some(u) => n.use_name(u.wanted, u.name, u.at),
    }
}

/// Notes what the name of a type means; whether all its names are known.
pub fn note_plain(n: &mut Naming<'_>, p: &Plain) -> Result<bool, NoMemory>
    ensures known { IfOk result (λ b. b ≡ is_plain_known (known_of n.old) (plain_plain p.now)) }
    ensures noted { OnOk result (known_of n.new ≡ optional_used (plain_use (plain_plain p.now)) (known_of n.old)) }
{
    let member = is_type_known(&*n, plain_names(p))?;
    let name = note_use(n, plain_use(p))?;
    Ok(name && member)
}

/// Whether both names of a type `C.S` are known; true of any other.
fn is_type_known(n: &Naming<'_>, names: Option<TypeNames>) -> Result<bool, NoMemory>
    ensures { IfOk result (λ b. b ≡ is_type_known (known_of n.now) names) }
{
    match names {
        None => Ok(true),
        Some(t) => n.has_type(t.contract, t.member),
    }
}

/// Whether each of these names means a contract.
pub fn are_contracts(n: &Naming<'_>, names: &[Name]) -> Result<bool, NoMemory>
    ensures { IfOk result (λ b. b ≡ are_contracts (known_of n.now) names.now) }
{
    for name in names {
        if n.meaning(Wanted::Contract, *name)?.is_none() {
            return Ok(false);
        }
    }
    Ok(true)
}
