ghost use Rattle.std.specs.Prelude.{◌≡◌};
ghost use Rattle.sv_rule.specs.RuleFaults.{number, lex, first};

use sv_book::Ranked;
use sv_text::Place;

/// A rule of the language, in the order of the table of docs/language.md.
#[derive(Clone, Copy, Debug, PartialEq, Eq)]
pub enum Rule {
    /// A text without a contract that is neither abstract nor an interface.
    NoContract,
    /// A literal with its exponent and its unit of 2^128 or more.
    WideLiteral,
    /// A hexadecimal literal of 40 digits.
    AddressLiteral,
    /// An `unchecked` block.
    Unchecked,
    /// An annotation of a kind that its place doesn't take, or outside the language of annotations.
    Note,
    /// A modifier without exactly one `_`, or a `_` in a loop or outside a modifier.
    Placeholder,
    /// `break` or `continue` outside a loop.
    Jump,
    /// `++`, `--` or an assignment that is no statement and no part of a header.
    Assign,
    /// Words of a declaration twice, in contradiction or missing.
    Head,
    /// `**` on anything but literals.
    Power,
    /// A name twice in one scope.
    Duplicate,
    /// A name or a member that its scope doesn't have.
    Unknown,
    /// A contract without an order, or a base that doesn't stand earlier.
    Line,
    /// A function of a name that a base has, without the words or the types that this takes.
    Override,
    /// Two functions of one name and other parameters in one line.
    Overload,
    /// A function without a body in a contract that isn't abstract.
    Abstract,
    /// A struct that holds itself, or a constant that names itself.
    Cycle,
    /// Arguments of a base that are missing, given twice or of the wrong number.
    BaseArgs,
    /// An operand, argument, target or condition of the wrong type.
    Types,
    /// A wrong number of arguments, results or slots, or wrong names of fields.
    Arity,
    /// A location that is missing or wrong.
    Location,
    /// A mapping where none may be.
    Mapping,
    /// A whole copy of what has arrays of references, or the like.
    NotFlat,
    /// A constant expression of magnitude 2^128 or more.
    WideConstant,
    /// An initialiser or a length that isn't constant.
    ConstExpr,
    /// An immutable outside the places where it may be assigned and read.
    Immutable,
    /// `msg.value` where nothing is paid.
    Value,
    /// An assignment to what can't be assigned.
    Target,
    /// `this`, `super`, a string or a balance where it may not stand.
    Use,
    /// A sum over anything but a state mapping to integers.
    Sum,
    /// An expression whose order of evaluation would matter.
    Order,
    /// A `view` or `pure` function that may change state.
    Mutability,
    /// A call that a constructor may not make.
    CtorCall,
    /// A call of a payable function within the contract.
    PayableCall,
    /// A storage result that has a name, or may be missing.
    StorageResult,
    /// A modifier that calls the function that it is used on.
    Recursion,
    /// A contract with which the report passes 5,000 function lines.
    Size,
}

impl Rule {
    /// The number of the rule in the table, from 1.
    pub fn number(self) -> u8
        ensures { result ≡ number self }
    {
        self as u8 + 1
    }
}

/// A broken rule, and the place of the node that breaks it.
#[derive(Clone, Copy, Debug, PartialEq, Eq)]
pub struct Fault {
    pub rule: Rule,
    pub place: Place,
}

/// Whether the first number is less, or is the same and the rest says so.
fn lexed(a: u32, b: u32, rest: bool) -> bool
    ensures { result ≡ lex a b rest }
{
    a < b || a == b && rest
}

impl Ranked for Fault {
    ghost first = { first };

    fn counts_before(self, other: Fault) -> bool {
        let numbers = self.rule.number() <= other.rule.number();
        let columns = lexed(self.place.col, other.place.col, numbers);
        lexed(self.place.line, other.place.line, columns)
    }
}
