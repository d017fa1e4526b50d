//! What is in force in a log: facts on terms and rows, by number, in rooms of fixed size.
//!
//! Promises: `fact` and `row` give an item, `holds_fact` and `holds_row` say whether one is there; after `new` no call takes memory.
//! Stands on: `sv_table`, `sv_text`, and on `sv_log` and `sv_row` for what a row is.
//! Read first: `specs/InForce.antt`.
#![tactic(auto)]

mod code;
mod force;

pub use force::InForce;

#[cfg(test)]
mod tests {
    use super::*;
    use std::test::Fail;

    #[test]
    fn items_by_their_content(rt: HostRuntime) -> Result<(), Fail> {
        let mut force = InForce::new(rt.alloc(), 3, 3)?;
        assert!(rt; force.has_room(0));
        force.push_fact(false, 4);
        assert!(rt; force.has_room(2));
        force.push_row(-5, &[(1, 2), (-3, 7)]);
        assert!(rt; force.has_room(1) && !force.has_room(2));
        force.push_row(-5, &[(1, 2)]);
        assert!(rt; !force.has_room(0));
        assert!(rt; force.len() == 3);
        assert_eq!(rt; force.fact(0), Some((false, 4)));
        assert_eq!(rt; force.fact(2), None);
        for (sign, term, there) in [(false, 4, true), (true, 4, false), (false, 5, false)] {
            assert_eq!(rt; force.holds_fact(sign, term), there, "{sign} {term}");
        }
        for (constant, parts, there) in [
            (-5, [(1, 2), (-3, 7)], true),
            (5, [(1, 2), (-3, 7)], false),
            (-5, [(-3, 7), (1, 2)], false),
        ] {
            assert_eq!(rt; force.holds_row(constant, &parts), there, "{constant}");
        }
        force.truncate(2);
        assert!(rt; !force.holds_row(-5, &[(1, 2)]));
        assert!(rt; force.holds_row(-5, &[(1, 2), (-3, 7)]));
        Ok(())
    }
}
