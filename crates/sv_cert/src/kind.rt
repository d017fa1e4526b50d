ghost use Rattle.std.specs.Prelude.{◌≡◌, map};
ghost use Rattle.sv_log.specs.LogEntries.{slots_of};
ghost use Rattle.sv_cert.specs.LogText.{name_of};
ghost use Rattle.sv_cert.specs.PlainNodes.{plain_kind, plain_slot};

/// The name of a node.
#[derive(Clone, Copy, Debug, PartialEq, Eq)]
pub enum NodeKind {
    Lit,
    Truth,
    Var,
    Add,
    Sub,
    Mul,
    Div,
    Mod,
    Wrap,
    Le,
    Eq,
    Not,
    And,
    Or,
    Ite,
    Sel,
    Sto,
    Const,
    Mix,
    Tup,
    Get,
    Sum,
}

/// What stands at a place of a node.
#[derive(Clone, Copy, Debug, PartialEq, Eq)]
pub enum Slot {
    /// The sign of a literal.
    Sign,
    /// A truth value, or whether a range is signed.
    Flag,
    Number,
    Sort,
    Term,
    /// Any number of terms, to the end.
    Terms,
}

impl NodeKind {
    /// The name that a line has for it.
    pub fn name(self) -> &'static [u8]
        ensures { result.now ≡ name_of (plain_kind self) }
    {
        match self {
            NodeKind::Lit => b"lit",
            NodeKind::Truth => b"truth",
            NodeKind::Var => b"var",
            NodeKind::Add => b"add",
            NodeKind::Sub => b"sub",
            NodeKind::Mul => b"mul",
            NodeKind::Div => b"div",
            NodeKind::Mod => b"mod",
            NodeKind::Wrap => b"wrap",
            NodeKind::Le => b"le",
            NodeKind::Eq => b"eq",
            NodeKind::Not => b"not",
            NodeKind::And => b"and",
            NodeKind::Or => b"or",
            NodeKind::Ite => b"ite",
            NodeKind::Sel => b"sel",
            NodeKind::Sto => b"sto",
            NodeKind::Const => b"const",
            NodeKind::Mix => b"mix",
            NodeKind::Tup => b"tup",
            NodeKind::Get => b"get",
            NodeKind::Sum => b"sum",
        }
    }

    /// What stands at its places.
    pub fn slots(self) -> &'static [Slot]
        ensures { map plain_slot result.now ≡ slots_of (plain_kind self) }
    {
        match self {
            NodeKind::Lit => &[Slot::Sign, Slot::Number],
            NodeKind::Truth => &[Slot::Flag],
            NodeKind::Var => &[Slot::Number, Slot::Sort],
            NodeKind::Add
            | NodeKind::Sub
            | NodeKind::Mul
            | NodeKind::Div
            | NodeKind::Mod
            | NodeKind::Le
            | NodeKind::Eq
            | NodeKind::And
            | NodeKind::Or
            | NodeKind::Sel => &[Slot::Term, Slot::Term],
            NodeKind::Wrap => &[Slot::Flag, Slot::Number, Slot::Term],
            NodeKind::Not | NodeKind::Sum => &[Slot::Term],
            NodeKind::Ite | NodeKind::Sto | NodeKind::Mix => &[Slot::Term, Slot::Term, Slot::Term],
            NodeKind::Const => &[Slot::Sort, Slot::Term],
            NodeKind::Tup => &[Slot::Sort, Slot::Terms],
            NodeKind::Get => &[Slot::Number, Slot::Term],
        }
    }
}
