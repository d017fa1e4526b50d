//! The local names of a function that are in scope.
//!
//! Promises: `find` gives the innermost local of a name, and none exactly where no local in scope has it; a scope that is left takes its own names with it,
//! and no others; `is_taken` says whether the innermost scope has a name already.
//! Stands on: `sv_text`.
//! Read first: `specs/LocalScopes.antt`, then `specs/ScopeLaws.antt`.
#![tactic(auto)]

pub mod laws;
mod names;

pub use names::{Local, LocalNames};

#[cfg(test)]
mod tests {
    use super::*;
    use std::test::Fail;
    use sv_text::Names;

    /// `uint256; { uint256 a; }`
    #[test]
    fn a_local_of_a_block(rt: HostRuntime) -> Result<(), Fail> {
        let mut names = Names::new(rt.alloc());
        let mut locals = LocalNames::new(rt.alloc());
        locals.declare(None, false)?;
        locals.enter()?;
        if names.len() < 9 {
            let a = names.intern(b"a")?;
            locals.declare(Some(a), false)?;
            assert!(rt; locals.is_taken(a));
            match locals.find(a) {
                None => assert!(rt; false),
                Some(l) => assert!(rt; l.number == 1),
            }
        }
        locals.leave();
        Ok(())
    }
}
