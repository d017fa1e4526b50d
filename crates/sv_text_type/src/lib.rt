//! The types that a text speaks of, each with one number.
//!
//! Promises: two types are one exactly where their numbers are one; a number keeps its type; only want of memory is answered else.
//! Stands on: `sv_text`, `indexmap`.
//! Read first: `specs/TextTypeParts.antt`.
#![tactic(auto)]

mod text_type;
mod types;

pub use text_type::{TextType, TypeId};
pub use types::TextTypes;

#[cfg(test)]
mod tests {
    use super::*;
    use std::test::Fail;

    #[test]
    fn each_type_has_one_number(rt: HostRuntime) -> Result<(), Fail> {
        let mut types = TextTypes::new(rt.alloc());
        assert!(rt; types.is_empty());
        for (t, place) in [
            (TextType::Uint(256), 0),
            (TextType::Int(256), 1),
            (TextType::Uint(256), 0),
            (TextType::Struct(0), 2),
            (TextType::Enum(0), 3),
            (TextType::Address(true), 4),
            (TextType::Address(false), 5),
            (TextType::Struct(1), 6),
            (TextType::Struct(0), 2),
        ] {
            let number = types.number_of(t)?;
            assert_eq!(rt; number, TypeId(place), "of {t:?}");
            assert_eq!(rt; types.find(t), Some(number), "of {t:?}");
        }
        assert_eq!(rt; types.find(TextType::Uint(8)), None);
        assert_eq!(rt; types.find(TextType::Text), None);
        assert_eq!(rt; types.len(), 7);
        Ok(())
    }

    #[test]
    fn arrays_and_mappings_have_numbers_by_their_parts(rt: HostRuntime) -> Result<(), Fail> {
        let mut types = TextTypes::new(rt.alloc());
        let key = types.number_of(TextType::Address(false))?;
        assert!(rt; types.len() == 1 && key.0 == 0);
        let list = types.number_of(TextType::Dynamic(key))?;
        assert!(rt; types.len() == 2 && list.0 == 1);
        let three = types.number_of(TextType::Fixed(key, 3))?;
        assert!(rt; types.len() == 3 && three.0 == 2);
        let four = types.number_of(TextType::Fixed(key, 4))?;
        assert!(rt; types.len() == 4 && four.0 == 3);
        let map = types.number_of(TextType::Mapping(key, list))?;
        assert!(rt; types.len() == 5 && map.0 == 4);
        assert_eq!(rt; types.find(TextType::Mapping(key, three)), None);
        assert_eq!(rt; types.find(TextType::Fixed(key, 3)), Some(three));
        assert!(rt; !types.get(map).is_value() && types.get(key).is_value());
        Ok(())
    }
}
