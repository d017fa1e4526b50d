//! Points that give each column a fraction, the bounds that rows set to a column there, and the nearest point, as definitions with their laws.
//!
//! Promises: a bound is exactly where its row begins to be broken; two rows whose combination is met have bounds that leave room between
//! them; a fraction that keeps all bounds and is 0 or a bound on the near side is the nearest; and working out step by step is exact.
//! Stands on: `sv_log` (rows), `sv_fraction` (fractions).
//! Read first: `specs/Points.antt`, `specs/PointLaws.antt`.
#![tactic(auto)]

ghost use Rattle.sv_point.specs.PointLaws.{BoundsAreExact, BoundsAreCrossed, ChosenIsNearest, WorthIsExact};

/// A row with a positive number at its greatest column is met exactly at and below its bound, one with a negative number at and above it.
pub fn bounds_are_exact()
    ensures { BoundsAreExact }
{}

/// Where the combination of two rows of a column is met, the lower bound is at most the upper bound.
pub fn bounds_are_crossed()
    ensures { BoundsAreCrossed }
{}

/// A fraction that keeps each bound, and is 0, or a lower bound above 0, or an upper bound below 0, is the nearest to 0.
pub fn chosen_is_nearest()
    ensures { ChosenIsNearest }
{}

/// Working out a row step by step, in lowest terms after each step, gives the exact fraction.
pub fn worth_is_exact()
    ensures { WorthIsExact }
{}
