use crate::expr::Expr;
use sqlite_items::{Boxed, Items};
use sv_text::{Name, Place, Span};

/// A type, as `uint256[3][]`.
#[cycle(expressions)]
#[derive(Drop)]
pub struct TypeExpr {
    pub plain: Plain,
    pub dimensions: Items<Dimension>,
    pub span: Span,
    pub place: Place,
}

/// The brackets of an array, as `[3]` or `[]`.
#[cycle(expressions)]
#[derive(Drop)]
pub struct Dimension {
    pub length: Option<Expr>,
}

/// A type without brackets.
#[cycle(expressions)]
#[derive(Drop)]
pub struct Plain {
    pub kind: PlainKind,
    pub span: Span,
    pub place: Place,
}

/// Which type without brackets it is.
#[cycle(expressions)]
#[derive(Drop)]
pub enum PlainKind {
    /// A type with a name of its own, as `uint256` or `bool`.
    Elementary(Name),
    /// `address`, or `address payable`.
    Address {
        is_payable: bool,
    },
    /// `string`.
    String,
    /// A declared type, as `Point` or `Shapes.Point`.
    Named {
        name: Name,
        member: Option<Name>,
    },
    /// A mapping, as `mapping(address owner => uint256 amount)`.
    Mapping {
        key: Boxed<TypeExpr>,
        key_name: Option<Name>,
        value: Boxed<TypeExpr>,
        value_name: Option<Name>,
    },
}

/// Where a value of a reference type lies, as `memory`.
#[derive(Clone, Copy, Debug, PartialEq, Eq)]
pub struct Where {
    pub kind: WhereKind,
    pub span: Span,
    pub place: Place,
}

/// Which word says where a value lies.
#[derive(Clone, Copy, Debug, PartialEq, Eq)]
pub enum WhereKind {
    /// `storage`.
    Storage,
    /// `memory`.
    Memory,
    /// `calldata`.
    Calldata,
}
