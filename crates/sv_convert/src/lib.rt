//! Which types convert to which, which numbers a type holds, and what operators take and give.
//!
//! Promises: each answer is exact, and no call takes memory.
//! Stands on: `sv_text_type`, `sqlite_items`.
//! Read first: `specs/Conversions.antt`, `specs/OperatorTypes.antt`.
#![tactic(auto)]

mod convert;
mod number;
mod operator;

pub use convert::{
    Setting, converts, converts_by_name, derives, is_address, is_bool, is_contract, is_enum,
    is_integer, is_signed,
};
pub use number::{holds, takes_by_name, takes_number};
pub use operator::{
    Binary, Faults, Operand, Outcome, Unary, at_fault, result_type, suit, takes, unary_takes,
};

#[cfg(test)]
mod tests {
    use super::*;
    use sqlite_items::Items;
    use std::test::Fail;
    use sv_text_type::{TextType, TypeId};

    const LIST: TextType = TextType::Dynamic(TypeId(0));

    const CODE: Setting = Setting::Code;

    const NOTE: Setting = Setting::Annotation;

    // contract 1 derives from contract 0
    fn bases(rt: HostRuntime) -> Result<Items<Items<u32>>, Fail> {
        let mut bases = Items::new(rt.alloc());
        bases.push(Items::new(rt.alloc()))?;
        let mut of_1 = Items::new(rt.alloc());
        of_1.push(0)?;
        bases.push(of_1)?;
        Ok(bases)
    }

    #[test]
    fn from_type_to_type(rt: HostRuntime) -> Result<(), Fail> {
        let bases = bases(rt)?;
        for (from, to, alone, by_name) in [
            (TextType::Uint(8), TextType::Uint(256), true, true),
            (TextType::Uint(256), TextType::Uint(8), false, true),
            (TextType::Uint(8), TextType::Int(256), false, true),
            (TextType::Int(8), TextType::Uint(256), false, true),
            (
                TextType::Address(true),
                TextType::Address(false),
                true,
                true,
            ),
            (
                TextType::Address(false),
                TextType::Address(true),
                false,
                true,
            ),
            (TextType::Contract(1), TextType::Contract(0), true, true),
            (TextType::Contract(0), TextType::Contract(1), false, true),
            (TextType::Contract(0), TextType::Contract(2), false, false),
            (TextType::Contract(0), TextType::Address(true), false, true),
            (TextType::Address(false), TextType::Contract(0), false, true),
            (TextType::Uint(160), TextType::Address(false), false, true),
            (TextType::Uint(160), TextType::Address(true), false, false),
            (TextType::Uint(256), TextType::Address(false), false, false),
            (TextType::Address(false), TextType::Uint(160), false, true),
            (TextType::Address(false), TextType::Uint(256), false, false),
            (TextType::Uint(8), TextType::Enum(0), false, true),
            (TextType::Enum(0), TextType::Int(8), false, true),
            (TextType::Enum(0), TextType::Enum(1), false, false),
            (TextType::Bool, TextType::Bool, true, true),
            (TextType::Bool, TextType::Uint(8), false, false),
            (TextType::Uint(8), TextType::Bool, false, false),
            (LIST, LIST, true, true),
            (LIST, TextType::Struct(0), false, false),
        ] {
            assert_eq!(rt;
                converts(bases.as_slice(), from, to),
                alone,
                "{from:?} to {to:?}"
            );
            assert_eq!(rt;
                converts_by_name(CODE, bases.as_slice(), from, to),
                by_name,
                "{from:?} by the name of {to:?}"
            );
        }
        assert!(rt;
            !converts_by_name(
                NOTE,
                bases.as_slice(),
                TextType::Uint(160),
                TextType::Address(false)
            )
        );
        Ok(())
    }

    #[test]
    fn numbers_that_types_take(rt: HostRuntime) {
        for (to, negative, m, alone, by_name) in [
            (TextType::Uint(8), false, 255, true, true),
            (TextType::Uint(8), false, 300, false, false),
            (TextType::Uint(8), true, 1, false, false),
            (TextType::Int(8), false, 127, true, true),
            (TextType::Int(8), false, 128, false, false),
            (TextType::Int(8), true, 128, true, true),
            (TextType::Int(8), true, 129, false, false),
            (TextType::Uint(256), false, u128::MAX, true, true),
            (TextType::Int(128), false, u128::MAX, false, false),
            (TextType::Enum(0), false, 5, false, true),
            (TextType::Address(false), false, 0xdead, false, true),
            (TextType::Address(false), true, 1, false, false),
            (TextType::Address(true), false, 0, false, true),
            (TextType::Address(true), false, 1, false, false),
            (TextType::Bool, false, 1, false, false),
        ] {
            assert_eq!(rt; takes_number(CODE, to, negative, m), alone, "{m} to {to:?}");
            assert_eq!(rt;
                takes_by_name(CODE, to, negative, m),
                by_name,
                "{m} by the name of {to:?}"
            );
        }
        assert!(rt; takes_number(NOTE, TextType::Uint(8), true, 300));
        assert!(rt; !takes_by_name(NOTE, TextType::Address(false), false, 1));
    }

    #[test]
    fn operands_at_fault(rt: HostRuntime) -> Result<(), Fail> {
        let bases = bases(rt)?;
        let truth = Operand::Typed(TextType::Bool, true);
        let flag = Operand::Typed(TextType::Bool, false);
        let byte = Operand::Typed(TextType::Uint(8), false);
        let word = Operand::Typed(TextType::Uint(256), false);
        let signed = Operand::Typed(TextType::Int(8), false);
        let list = Operand::Typed(LIST, false);
        let wide = Operand::Number(false, 300);
        for (op, left, right, faulty, outcome) in [
            (
                Binary::Equality,
                truth,
                word,
                (true, false),
                Some(Outcome::Truth),
            ),
            (
                Binary::Equality,
                byte,
                signed,
                (false, true),
                Some(Outcome::Truth),
            ),
            (
                Binary::Equality,
                wide,
                byte,
                (true, false),
                Some(Outcome::Truth),
            ),
            (
                Binary::Equality,
                byte,
                wide,
                (false, true),
                Some(Outcome::Truth),
            ),
            (
                Binary::Equality,
                list,
                list,
                (true, true),
                Some(Outcome::Truth),
            ),
            (
                Binary::Logic,
                flag,
                wide,
                (false, true),
                Some(Outcome::Truth),
            ),
            (
                Binary::Arithmetic,
                byte,
                word,
                (false, false),
                Some(Outcome::Right),
            ),
            (
                Binary::Arithmetic,
                word,
                byte,
                (false, false),
                Some(Outcome::Left),
            ),
            (
                Binary::Arithmetic,
                wide,
                word,
                (false, false),
                Some(Outcome::Right),
            ),
            (Binary::Arithmetic, flag, word, (true, false), None),
            (Binary::Arithmetic, byte, signed, (false, true), None),
            (
                Binary::Order,
                flag,
                flag,
                (true, true),
                Some(Outcome::Truth),
            ),
            (
                Binary::Choice,
                list,
                list,
                (false, false),
                Some(Outcome::Right),
            ),
            (Binary::Choice, list, word, (false, true), None),
        ] {
            let faults = at_fault(CODE, bases.as_slice(), op, left, right);
            assert_eq!(rt;
                (faults.left, faults.right),
                faulty,
                "{op:?} of {left:?} and {right:?}"
            );
            assert_eq!(rt;
                result_type(CODE, bases.as_slice(), op, left, right),
                outcome,
                "{op:?} of {left:?} and {right:?}"
            );
        }
        assert!(rt;
            suit(NOTE, bases.as_slice(), byte, signed) && suit(NOTE, bases.as_slice(), byte, wide)
        );
        assert!(rt;
            !unary_takes(CODE, Unary::Minus, word) && unary_takes(NOTE, Unary::Minus, word)
        );
        assert!(rt; unary_takes(CODE, Unary::Not, flag) && !unary_takes(CODE, Unary::Not, wide));
        Ok(())
    }
}
