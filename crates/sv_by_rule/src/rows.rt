ghost use Rattle.std.specs.Prelude.{◌≡◌, ◌<◌};
ghost use Rattle.sv_by_rule.specs.RuleRows.{steps_of};
ghost use Rattle.sv_pattern.specs.NodeOpenings.{named};

use sv_pattern::Property::{IsDivisor, IsPlain, IsSummable, IsZero};
use sv_pattern::Relation::{IsConst, IsGreatest, IsLeast, IsOneLess, IsPart, IsSame, IsWrap};
use sv_pattern::Sign::{Minus, Other, Plus, Same};
use sv_pattern::Step::{Are, Concludes, InRange, Is, One, Premise, Three, Two};
use sv_pattern::{Name, Step};

// The pattern of a rule; nothing follows by that of a number without one.
#[rattlefmt::skip]
pub(crate) fn steps_of(rule: u8) -> &'static [Step]
    ensures steps { result.now ≡ steps_of rule }
    ensures room { named result.now < 16 }
{
    match rule {
        1 => &[Concludes(true), Premise(Plus), Two(1, Name::And), Are(IsSame, 0, 2)],
        2 => &[Concludes(true), Premise(Plus), Two(1, Name::And), Are(IsSame, 0, 3)],
        3 => &[Concludes(false), Premise(Minus), Two(1, Name::Or), Are(IsSame, 0, 2)],
        4 => &[Concludes(false), Premise(Minus), Two(1, Name::Or), Are(IsSame, 0, 3)],
        5 => &[Concludes(false), Premise(Plus), One(1, Name::Not), Are(IsSame, 0, 2)],
        6 => &[Concludes(true), Premise(Minus), One(1, Name::Not), Are(IsSame, 0, 2)],
        7 => &[Concludes(true), Premise(Plus), Premise(Minus), Two(1, Name::Or), Are(IsSame, 2, 3), Are(IsSame, 0, 4)],
        8 => &[Concludes(true), Premise(Plus), Premise(Minus), Two(1, Name::Or), Are(IsSame, 2, 4), Are(IsSame, 0, 3)],
        9 => &[Concludes(false), Premise(Minus), Premise(Plus), Two(1, Name::And), Are(IsSame, 2, 3), Are(IsSame, 0, 4)],
        10 => &[Concludes(false), Premise(Minus), Premise(Plus), Two(1, Name::And), Are(IsSame, 2, 4), Are(IsSame, 0, 3)],
        11 => &[Concludes(true), Premise(Plus), Premise(Plus), Three(1, Name::Ite), Are(IsSame, 2, 3), Are(IsSame, 0, 4)],
        12 => &[Concludes(true), Premise(Plus), Premise(Minus), Three(1, Name::Ite), Are(IsSame, 2, 3), Are(IsSame, 0, 5)],
        13 => &[Concludes(false), Premise(Minus), Premise(Plus), Three(1, Name::Ite), Are(IsSame, 2, 3), Are(IsSame, 0, 4)],
        14 => &[Concludes(false), Premise(Minus), Premise(Minus), Three(1, Name::Ite), Are(IsSame, 2, 3), Are(IsSame, 0, 5)],
        15 => &[Premise(Plus), Premise(Same), Two(1, Name::Eq), Are(IsSame, 2, 3), Are(IsSame, 0, 4)],
        16 => &[Premise(Plus), Premise(Same), Two(1, Name::Eq), Are(IsSame, 2, 4), Are(IsSame, 0, 3)],
        17 => &[Premise(Minus), Premise(Other), Two(1, Name::Eq), Are(IsSame, 2, 3), Are(IsSame, 0, 4)],
        18 => &[Premise(Minus), Premise(Other), Two(1, Name::Eq), Are(IsSame, 2, 4), Are(IsSame, 0, 3)],
        20 => &[Concludes(true), Two(0, Name::Eq), Are(IsSame, 1, 2)],
        21 => &[Concludes(true), Premise(Plus), Two(1, Name::Eq), Two(0, Name::Eq), Are(IsSame, 4, 3), Are(IsSame, 5, 2)],
        22 => &[Concludes(true), Premise(Plus), Premise(Plus), Two(1, Name::Eq), Two(2, Name::Eq), Two(0, Name::Eq), Are(IsSame, 5, 4), Are(IsSame, 7, 3), Are(IsSame, 8, 6)],
        24 => &[Concludes(true), Premise(Plus), Two(0, Name::Eq), Three(2, Name::Ite), Are(IsSame, 1, 4), Are(IsSame, 3, 5)],
        25 => &[Concludes(true), Premise(Minus), Two(0, Name::Eq), Three(2, Name::Ite), Are(IsSame, 1, 4), Are(IsSame, 3, 6)],
        30 => &[Concludes(true), Two(0, Name::Eq), Two(1, Name::Sel), Three(3, Name::Sto), Are(IsSame, 4, 6), Are(IsSame, 2, 7), InRange(1, 2)],
        31 => &[Concludes(true), Premise(Plus), Two(1, Name::Eq), Two(0, Name::Eq), Two(4, Name::Sel), Three(6, Name::Sto), Are(IsSame, 9, 2), Are(IsSame, 7, 3), Are(IsSame, 5, 10), InRange(4, 5)],
        32 => &[Concludes(true), Premise(Minus), Two(1, Name::Eq), Two(0, Name::Eq), Two(4, Name::Sel), Three(6, Name::Sto), Two(5, Name::Sel), Are(IsSame, 9, 2), Are(IsSame, 7, 3), Are(IsSame, 11, 8), Are(IsSame, 12, 3)],
        33 => &[Concludes(true), Two(0, Name::Eq), Two(1, Name::Sel), Are(IsConst, 3, 2), InRange(1, 2)],
        34 => &[Concludes(true), Premise(Minus), Premise(Plus), Two(1, Name::Le), Two(2, Name::Le), Is(IsZero, 5), Are(IsSame, 6, 4), Two(0, Name::Eq), Two(7, Name::Sel), Three(9, Name::Mix), Two(8, Name::Sel), Are(IsSame, 11, 3), Are(IsSame, 10, 4), Are(IsSame, 14, 12), Are(IsSame, 15, 4)],
        35 => &[Concludes(true), Premise(Plus), Two(1, Name::Le), Two(0, Name::Eq), Two(4, Name::Sel), Three(6, Name::Mix), Two(5, Name::Sel), Are(IsSame, 8, 2), Are(IsSame, 7, 3), Are(IsSame, 11, 10), Are(IsSame, 12, 3)],
        36 => &[Concludes(true), Two(0, Name::Eq), Are(IsPart, 1, 2), InRange(1, 2)],
        37 => &[Concludes(true), Premise(Minus), Two(1, Name::Le), Is(IsZero, 2), Two(0, Name::Eq), Two(4, Name::Sel), Three(6, Name::Mix), Two(5, Name::Sel), Are(IsSame, 7, 3), Are(IsSame, 11, 10), Are(IsSame, 12, 3)],
        40 => &[Concludes(true), Two(0, Name::Le), Are(IsLeast, 1, 2)],
        41 => &[Concludes(true), Two(0, Name::Le), Are(IsGreatest, 2, 1)],
        42 => &[Concludes(true), Two(0, Name::Eq), Are(IsWrap, 1, 2), InRange(1, 2)],
        43 => &[Concludes(true), Premise(Plus), Two(1, Name::Le), Is(IsZero, 2), Two(0, Name::Le), Are(IsSame, 5, 3), Two(4, Name::Mul), Is(IsDivisor, 6), Two(7, Name::Div), Are(IsSame, 8, 3), Are(IsSame, 9, 6)],
        44 => &[Concludes(true), Premise(Plus), Two(1, Name::Le), Is(IsZero, 2), Two(0, Name::Le), Are(IsSame, 4, 3), Two(5, Name::Add), Two(6, Name::Mul), Two(9, Name::Div), Are(IsSame, 10, 3), Are(IsSame, 11, 8), Are(IsOneLess, 7, 8)],
        45 => &[Concludes(true), Premise(Minus), Two(1, Name::Le), Is(IsZero, 2), Two(0, Name::Le), Are(IsSame, 4, 3), Two(5, Name::Mul), Is(IsDivisor, 6), Two(7, Name::Div), Are(IsSame, 8, 3), Are(IsSame, 9, 6)],
        46 => &[Concludes(true), Premise(Minus), Two(1, Name::Le), Is(IsZero, 2), Two(0, Name::Le), Are(IsSame, 5, 3), Two(4, Name::Sub), Two(6, Name::Mul), Two(9, Name::Div), Are(IsSame, 10, 3), Are(IsSame, 11, 8), Are(IsOneLess, 7, 8)],
        47 => &[Concludes(true), Two(0, Name::Eq), Two(1, Name::Mod), Is(IsDivisor, 4), Two(2, Name::Sub), Are(IsSame, 5, 3), Two(6, Name::Mul), Are(IsSame, 7, 4), Two(8, Name::Div), Are(IsSame, 9, 3), Are(IsSame, 10, 4)],
        48 => &[Concludes(true), Premise(Plus), Premise(Plus), Two(1, Name::Le), Is(IsZero, 3), Two(2, Name::Le), Is(IsZero, 5), Two(0, Name::Le), Is(IsZero, 7), Two(8, Name::Mul), Are(IsSame, 9, 4), Are(IsSame, 10, 6)],
        49 => &[Concludes(true), Premise(Plus), Premise(Plus), Two(1, Name::Le), Is(IsZero, 4), Two(2, Name::Le), Is(IsZero, 6), Two(0, Name::Le), Is(IsZero, 7), Two(8, Name::Mul), Are(IsSame, 9, 3), Are(IsSame, 10, 5)],
        50 => &[Concludes(true), Premise(Plus), Premise(Plus), Two(1, Name::Le), Is(IsZero, 3), Two(2, Name::Le), Is(IsZero, 6), Two(0, Name::Le), Is(IsZero, 8), Two(7, Name::Mul), Are(IsSame, 9, 4), Are(IsSame, 10, 5)],
        51 => &[Concludes(true), Premise(Plus), Premise(Plus), Two(1, Name::Le), Is(IsZero, 4), Two(2, Name::Le), Is(IsZero, 5), Two(0, Name::Le), Is(IsZero, 8), Two(7, Name::Mul), Are(IsSame, 9, 3), Are(IsSame, 10, 6)],
        52 => &[Concludes(true), Two(0, Name::Eq), One(1, Name::Sum), Three(3, Name::Sto), Two(2, Name::Add), One(7, Name::Sum), Are(IsSame, 9, 4), Two(8, Name::Sub), Are(IsSame, 10, 6), Two(11, Name::Sel), Are(IsSame, 12, 4), Are(IsSame, 13, 5), Is(IsPlain, 4), InRange(11, 6)],
        53 => &[Concludes(true), Two(0, Name::Eq), One(1, Name::Sum), Are(IsConst, 3, 2), Is(IsZero, 2)],
        54 => &[Concludes(true), Two(0, Name::Le), Is(IsZero, 1), One(2, Name::Sum), Is(IsSummable, 3)],
        55 => &[Concludes(true), Two(0, Name::Le), Two(1, Name::Sel), One(2, Name::Sum), Are(IsSame, 5, 3), Is(IsSummable, 3)],
        56 => &[Concludes(true), Premise(Minus), Two(1, Name::Eq), Two(0, Name::Le), Two(4, Name::Add), Two(6, Name::Sel), Two(7, Name::Sel), One(5, Name::Sum), Are(IsSame, 9, 2), Are(IsSame, 11, 3), Are(IsSame, 10, 8), Are(IsSame, 12, 8), Is(IsSummable, 8)],
        60 => &[Concludes(false), Premise(Minus), Premise(Plus), Two(1, Name::Eq), Two(2, Name::Le), Two(0, Name::Le), Are(IsSame, 5, 3), Are(IsSame, 6, 4), Are(IsSame, 7, 4), Are(IsSame, 8, 3)],
        61 => &[Concludes(true), Premise(Plus), Premise(Plus), Two(1, Name::Le), Two(2, Name::Le), Two(0, Name::Eq), Are(IsSame, 5, 4), Are(IsSame, 6, 3), Are(IsSame, 7, 3), Are(IsSame, 8, 4)],
        _ => &[Concludes(true), Concludes(false)],
    }
}
