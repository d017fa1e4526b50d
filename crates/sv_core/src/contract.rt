use crate::expr::{CExpr, Loc};
use crate::stat::Stat;
use sqlite_items::Items;
use sv_text::Name;
use sv_type::{TypeNo, Types};

/// A contract with all that it inherits.
#[derive(Drop)]
pub struct Core {
    pub name: Name,
    /// The contract's number in the text.
    pub contract: u32,
    /// The numbers in the text of the contract and of all that it inherits from, from most base to most derived.
    pub line: Items<u32>,
    /// The names of these, in the same order.
    pub owners: Items<Name>,
    pub types: Types,
    pub vars: Items<VarInfo>,
    /// One constructor for each contract of the line, in its order, written or not.
    pub ctors: Items<CtorInfo>,
    /// The functions with bodies, overridden ones too, in the order of the report's lines.
    pub funcs: Items<FuncInfo>,
    pub mods: Items<ModInfo>,
    pub invariants: Items<CExpr>,
}

/// A state variable or an immutable.
#[derive(Drop)]
pub struct VarInfo {
    pub name: Name,
    /// The place in `owners` of the contract that declares it.
    pub owner: u32,
    pub t: TypeNo,
    pub kind: VarKind,
    /// The value that it begins with, if one is written.
    pub init: Option<CExpr>,
}

/// Whether a variable may be assigned after construction.
#[derive(Clone, Copy, Debug, PartialEq, Eq)]
pub enum VarKind {
    /// A state variable.
    State,
    /// An immutable, which only constructors assign.
    Immutable,
}

/// A function with a body.
#[derive(Drop)]
pub struct FuncInfo {
    pub name: Name,
    /// The place in `owners` of the contract that defines it.
    pub owner: u32,
    /// Whether it may be called from outside.
    pub public: bool,
    pub payable: bool,
    /// Whether no function of its name is more derived.
    pub top: bool,
    /// Parameters first, then results, then the rest.
    pub locals: Items<LocalInfo>,
    pub params: u32,
    pub results: u32,
    /// The modifiers, from the outermost.
    pub uses: Items<ModUse>,
    pub pre: Items<CExpr>,
    pub post: Items<CExpr>,
    pub body: Items<Stat>,
}

/// The constructor of a contract of the line.
#[derive(Drop)]
pub struct CtorInfo {
    /// The place in `owners` of its contract.
    pub owner: u32,
    pub payable: bool,
    /// Parameters first, then the rest.
    pub locals: Items<LocalInfo>,
    pub params: u32,
    /// The arguments that this contract gives to constructors of its bases, in order of the text.
    pub base_args: Items<BaseArgs>,
    pub body: Items<Stat>,
}

/// Arguments for the constructor of a base.
#[derive(Drop)]
pub struct BaseArgs {
    /// The base's place in `owners`.
    pub base: u32,
    pub args: Items<CExpr>,
}

/// A modifier.
#[derive(Drop)]
pub struct ModInfo {
    pub name: Name,
    /// The place in `owners` of the contract that defines it.
    pub owner: u32,
    /// Parameters first, then the rest.
    pub locals: Items<LocalInfo>,
    pub params: u32,
    pub body: Items<Stat>,
}

/// The use of a modifier by a function.
#[derive(Drop)]
pub struct ModUse {
    /// The modifier's place among the contract's modifiers.
    pub which: u32,
    pub args: Items<CExpr>,
}

/// A local variable: its name, if it has one, its type, and where its value is held.
#[derive(Clone, Copy, Debug)]
pub struct LocalInfo {
    pub name: Option<Name>,
    pub t: TypeNo,
    pub loc: Loc,
}
