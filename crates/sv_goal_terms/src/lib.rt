//! The terms of a condition in the order in which a log numbers them.
//!
//! Promises: `GoalTerms::of` has each term of a condition once, its arguments before it, in the order of a walk from left to right.
//! Stands on: `sv_term`, and on `sv_log` for what that order is.
//! Read first: `with_terms_of` in `sv_log/specs/Logs.antt`.
#![tactic(auto)]

mod args;
mod walk;

pub use args::arg;
pub use walk::GoalTerms;

#[cfg(test)]
mod tests {
    use super::*;
    use std::test::Fail;
    use sv_term::{Bank, Node, TermId};
    use sv_text::NoMemory;

    /// The number of a node that fits; else that of the first term.
    fn put(bank: &mut Bank, node: Node) -> Result<TermId, NoMemory> {
        if bank.fits(&node) {
            return bank.add(node);
        }
        Ok(TermId(0))
    }

    /// 1 + 2 <= 2 - (1 + 2), and a term that isn't in it, put first.
    #[test]
    fn a_condition(rt: HostRuntime) -> Result<(), Fail> {
        let mut bank = Bank::new(rt.alloc());
        let other = put(&mut bank, Node::Lit(false, 7))?;
        let two = put(&mut bank, Node::Lit(false, 2))?;
        let one = put(&mut bank, Node::Lit(false, 1))?;
        let sum = put(&mut bank, Node::Add(one, two))?;
        let rest = put(&mut bank, Node::Sub(two, sum))?;
        let goal = put(&mut bank, Node::Le(sum, rest))?;
        assert!(rt; goal.0 < bank.len());
        let terms = GoalTerms::of(rt.alloc(), &bank, goal)?;
        assert!(rt; terms.ids() == [one, two, sum, rest, goal].as_slice());
        assert!(rt; terms.number_of(rest) == Some(3));
        assert!(rt; terms.number_of(other).is_none());
        assert!(rt; terms.number_of(TermId(6)).is_none());
        Ok(())
    }
}
