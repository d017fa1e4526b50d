ghost use Rattle.std.specs.Prelude.{◌≡◌, ◌↔◌, IsTrue};
ghost use Rattle.sv_text_type.specs.TextTypeParts.{is_value, same_type};

/// The number of a type in a table of the types of a text, from 0.
#[derive(Clone, Copy, Debug, PartialEq, Eq, Hash, Drop)]
pub struct TypeId(pub u32);

/// A type that a text speaks of. What the text declares is named by its number among the contracts, the enums or the structs of the text, so no type stands in itself;
/// other parts are named by their numbers in the table.
#[derive(Clone, Copy, Debug, PartialEq, Eq, Hash, Drop)]
pub enum TextType {
    /// `uintN`, with N.
    Uint(u16),
    /// `intN`, with N.
    Int(u16),
    /// `bool`.
    Bool,
    /// `address`; true for `address payable`.
    Address(bool),
    /// `string`.
    Text,
    /// A contract or an interface.
    Contract(u32),
    /// An enum.
    Enum(u32),
    /// A struct.
    Struct(u32),
    /// An array with a fixed length: the type of its elements, and the length.
    Fixed(TypeId, u64),
    /// An array whose length changes, with the type of its elements.
    Dynamic(TypeId),
    /// A mapping: the type of its keys, and that of its values.
    Mapping(TypeId, TypeId),
}

impl TextType {
    /// Whether a variable of the type holds a value and not a reference: a number, a truth value, an address, a contract or a member of an enum.
    pub fn is_value(self) -> bool
        ensures { result ≡ is_value self }
    {
        match self {
            TextType::Text
            | TextType::Struct(_)
            | TextType::Fixed(_, _)
            | TextType::Dynamic(_)
            | TextType::Mapping(_, _) => false,
            _ => true,
        }
    }

    /// Whether the two are one type.
    pub fn is_same(self, other: TextType) -> bool
        ensures same { result ≡ same_type self other }
        ensures one { IsTrue result ↔ (self ≡ other) }
    {
        self == other
    }
}
