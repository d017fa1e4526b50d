ghost use Rattle.std.specs.Prelude.{◌≡◌};

use sqlite_items::Items;
use std::marker::Model;

/// The number of a type: its place in a list of types. A contract sees the number.
#[derive(Clone, Copy, Debug, PartialEq, Eq, PartialOrd, Ord)]
pub struct TypeNo {
    position: u32,
}

impl Model for TypeNo {
    ghost use Rattle.std.specs.Prelude.{ℕ};

    ghost Value = { ℕ };

    ghost view = { λ t. t.position };

    ghost inverse = { λ n. record { position = n } };
}

impl TypeNo {
    /// The number of the type at a place of a list, from 0.
    pub fn at(position: u32) -> TypeNo
        ensures { result ≡ position }
    {
        TypeNo { position }
    }

    /// The place in the list, from 0.
    pub fn position(self) -> u32
        ensures { result ≡ self }
    {
        self.position
    }
}

/// A type of Solidity, whose parts are named by their numbers.
#[derive(Debug, Drop)]
pub enum TypeInfo {
    /// `uintN`, with N.
    Uint(u16),
    /// `intN`, with N.
    Int(u16),
    /// `bool`.
    Bool,
    /// `address`; true for `address payable`.
    Address(bool),
    /// A contract or an interface, with its number among those of the text.
    Contract(u32),
    /// An enum, with how many members it has.
    Enum(u32),
    /// A struct, with the types of its fields in order.
    Struct(Items<TypeNo>),
    /// An array with a fixed length: the type of its elements, and the length.
    Fixed(TypeNo, u64),
    /// An array whose length changes, with the type of its elements.
    Dynamic(TypeNo),
    /// A mapping: the type of its keys, and that of its values.
    Mapping(TypeNo, TypeNo),
}

impl TypeInfo {
    ghost use Rattle.sv_type.specs.TypeParts.{is_value};

    /// Whether a variable of the type holds a value and not a reference: a number, a truth value, an address, a contract or a member of an enum.
    pub fn is_value(&self) -> bool
        ensures { result ≡ is_value self.now }
    {
        match self {
            TypeInfo::Struct(_)
            | TypeInfo::Fixed(_, _)
            | TypeInfo::Dynamic(_)
            | TypeInfo::Mapping(_, _) => false,
            _ => true,
        }
    }
}
