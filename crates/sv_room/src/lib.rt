//! For how much a checker of a log needs room.
//!
//! Promises: `room_of` adds up what the entries of a log take at most; it takes no memory.
//! Stands on: `sv_cert` (logs), `sv_log` (entries), `sv_term` (sorts), `sqlite_items`.
//! Read first: `specs/Needs.antt`.
#![tactic(auto)]

mod count;
pub mod laws;
mod room;

pub use count::{room_for, room_of};
pub use room::Room;

#[cfg(test)]
mod tests {
    use super::*;
    use std::test::Fail;
    use sv_cert::read_log;

    /// Two terms, of which the first names an array of pairs: 6 cells, and a sort of its own for each term.
    #[test]
    fn a_log_with_each_entry(rt: HostRuntime) -> Result<(), Fail> {
        let text =
            b"t var 3 [(n,b)]\nt le 0 1\nf 1 + 2 0\nl 0 + -5 1 2 3 4\nk 1 1 2 2 7 3 4\ng 2 3 1 1 2\ns 1\nx\nc 4 5\nc 6\n";
        let log = read_log(rt.alloc(), text, 1, 1)?;
        let room = room_of(&log);
        assert_eq!(rt; (room.terms, room.args, room.sorts), (2, 2, 8));
        assert_eq!(rt; (room.items, room.coefficients, room.splits), (5, 4, 1));
        Ok(())
    }
}
