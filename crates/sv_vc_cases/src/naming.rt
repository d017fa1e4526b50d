use sv_term::{Node, TermId};

/// The node of that name over one term, where there is one.
pub fn of_one(name: &str, a: TermId) -> Option<Node> {
    match name {
        "not" => Some(Node::Not(a)),
        "first" => Some(Node::Get(0, a)),
        "second" => Some(Node::Get(1, a)),
        _ => None,
    }
}

/// The node of that name over two terms, where there is one.
pub fn of_two(name: &str, a: TermId, b: TermId) -> Option<Node> {
    match name {
        "add" => Some(Node::Add(a, b)),
        "le" => Some(Node::Le(a, b)),
        "eq" => Some(Node::Eq(a, b)),
        "and" => Some(Node::And(a, b)),
        "or" => Some(Node::Or(a, b)),
        "at" => Some(Node::Sel(a, b)),
        _ => None,
    }
}
