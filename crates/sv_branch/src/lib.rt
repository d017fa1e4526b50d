//! A branch of a log by numbers: what is in force, the open splits, and whether the branch is closed, in rooms of fixed size.
//!
//! Promises: `split`, `cut` and `close` do what the entries of these names do to a log's state; after `new` no call takes memory.
//! Stands on: `sv_force`, `sv_text`, and on `sv_log` and `sv_term` for what a state is.
//! Read first: `specs/OpenBranches.antt`.
#![tactic(auto)]

mod branch;
pub mod laws;

pub use branch::Branch;

#[cfg(test)]
mod tests {
    use super::*;
    use std::test::Fail;

    #[test]
    fn halves_of_two_splits(rt: HostRuntime) -> Result<(), Fail> {
        let mut branch = Branch::new(rt.alloc(), 4, 0, 2)?;
        branch.push_fact(false, 9);
        branch.split(3);
        branch.split(5);
        assert!(rt; !branch.has_split_room() && branch.force().len() == 3);
        branch.close();
        branch.cut();
        assert_eq!(rt; branch.force().fact(2), Some((false, 5)));
        assert!(rt; !branch.is_closed() && !branch.is_in_first_half());
        branch.close();
        assert!(rt; branch.is_closed() && branch.is_in_first_half());
        branch.cut();
        assert!(rt; branch.force().len() == 2 && !branch.is_done());
        assert_eq!(rt; branch.force().fact(1), Some((false, 3)));
        branch.close();
        assert!(rt; branch.is_done());
        Ok(())
    }
}
