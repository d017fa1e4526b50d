ghost use Rattle.std.specs.Prelude.{◌≡◌, ◌↔◌, IsTrue};
ghost use Rattle.sv_term_room.specs.NodeCodes.{key_of};

/// A node without its arguments. A sort stands in it by its number.
#[derive(Clone, Copy, Drop)]
pub enum Shape {
    /// A number, negative where the flag says so.
    Lit(bool, u128),
    Truth(bool),
    /// A variable: its number and the number of its sort.
    Var(usize, usize),
    Add,
    Sub,
    Mul,
    Div,
    Mod,
    /// Whether the range is signed, and its bits.
    Wrap(bool, u16),
    Le,
    Eq,
    Not,
    And,
    Or,
    Ite,
    Sel,
    Sto,
    /// The number of the array's sort.
    Const(usize),
    Mix,
    /// The number of the tuple's sort.
    Tup(usize),
    /// The place of the part, counted from 0.
    Get(usize),
    Sum,
}

impl Shape {
    /// What tells shapes apart: the kind, and up to two numbers.
    pub(crate) fn key(self) -> [u128; 3]
        ensures { result ≡ key_of self }
    {
        match self {
            Shape::Lit(negative, m) => [0, negative as u128, m],
            Shape::Truth(b) => [1, b as u128, 0],
            Shape::Var(x, sort) => [2, x as u128, sort as u128],
            Shape::Add => [3, 0, 0],
            Shape::Sub => [4, 0, 0],
            Shape::Mul => [5, 0, 0],
            Shape::Div => [6, 0, 0],
            Shape::Mod => [7, 0, 0],
            Shape::Wrap(signed, bits) => [8, signed as u128, bits as u128],
            Shape::Le => [9, 0, 0],
            Shape::Eq => [10, 0, 0],
            Shape::Not => [11, 0, 0],
            Shape::And => [12, 0, 0],
            Shape::Or => [13, 0, 0],
            Shape::Ite => [14, 0, 0],
            Shape::Sel => [15, 0, 0],
            Shape::Sto => [16, 0, 0],
            Shape::Const(sort) => [17, sort as u128, 0],
            Shape::Mix => [18, 0, 0],
            Shape::Tup(sort) => [19, sort as u128, 0],
            Shape::Get(k) => [20, k as u128, 0],
            Shape::Sum => [21, 0, 0],
        }
    }

    /// Whether the two are one.
    pub fn is(self, other: Shape) -> bool
        ensures { IsTrue result ↔ (self ≡ other) }
    {
        self.key() == other.key()
    }
}
