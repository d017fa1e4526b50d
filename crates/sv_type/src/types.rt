ghost use Rattle.std.specs.Prelude.{◌≡◌, ◌^◌, ◌<◌, ◌↔◌, [], length, slice_get, Some, IsTrue};
ghost use Rattle.sv_type.specs.TypeParts.{IsOrdered, ContainsType, IsFlat};

use crate::info::{TypeInfo, TypeNo};
use std::marker::Model;

/// The types of a contract, in which the parts of a type stand before it. A contract sees the list of them.
#[derive(Debug, Drop)]
pub struct Types {
    infos: Vec<TypeInfo>,
}

impl Model for Types {
    ghost use Rattle.std.specs.Prelude.{List, ◌^◌, ◌<◌, length};
    ghost use Rattle.sv_type.specs.declared.info.TypeInfo.{TypeInfo};
    ghost use Rattle.sv_type.specs.TypeParts.{IsOrdered};

    ghost Value = { List TypeInfo };

    ghost view = { λ t. t.infos.items };

    ghost invariant = { λ t. IsOrdered t.infos.items × (length t.infos.items < 2 ^ 32) };
}

impl Types {
    /// The types of a list.
    pub fn of(list: Vec<TypeInfo>) -> Types
        requires ordered { IsOrdered list.items }
        requires few { length list.items < 2 ^ 32 }
        ensures { result ≡ list.items }
    {
        Types { infos: list }
    }

    /// How many types there are.
    pub fn len(&self) -> usize
        ensures len { result ≡ length self.now }
        ensures ordered { IsOrdered self.now }
        ensures few { length self.now < 2 ^ 32 }
    {
        self.infos.len()
    }

    /// Whether there is no type.
    pub fn is_empty(&self) -> bool
        ensures { IsTrue result ↔ (self.now ≡ []) }
    {
        self.infos.is_empty()
    }

    /// The type of a number.
    pub fn get(&self, t: TypeNo) -> &TypeInfo
        requires { t < length self.now }
        ensures found { slice_get self.now t ≡ Some result.now }
        ensures ordered { IsOrdered self.now }
        ensures few { length self.now < 2 ^ 32 }
    {
        &self.infos[t.position() as usize]
    }

    /// Whether a variable of type `t` has a variable of type `part` in it. A type contains itself.
    /// The time grows with the number of ways from `t` down to types inside it.
    pub fn contains(&self, t: TypeNo, part: TypeNo) -> bool
        requires within { t < length self.now }
        requires part_within { part < length self.now }
        ensures { IsTrue result ↔ ContainsType self.now t part }
    {
        if t == part {
            return true; // a type contains itself
        }
        match self.get(t) {
            TypeInfo::Struct(fields) => {
                for field in fields.as_slice() {
                    if self.contains(*field, part) {
                        return true;
                    }
                }
                false
            }
            TypeInfo::Fixed(element, _) => self.contains(*element, part),
            TypeInfo::Dynamic(element) => self.contains(*element, part),
            TypeInfo::Mapping(_, value) => self.contains(*value, part),
            _ => false,
        }
    }

    /// Whether each array in the type has elements that are values, so that it may be copied, deleted or popped as a whole.
    /// The time grows with the number of ways from `t` down to types inside it.
    pub fn is_flat(&self, t: TypeNo) -> bool
        requires { t < length self.now }
        ensures { IsTrue result ↔ IsFlat self.now t }
    {
        match self.get(t) {
            TypeInfo::Struct(fields) => {
                for field in fields.as_slice() {
                    if !self.is_flat(*field) {
                        return false;
                    }
                }
                true
            }
            TypeInfo::Fixed(element, _) => self.get(*element).is_value(),
            TypeInfo::Dynamic(element) => self.get(*element).is_value(),
            TypeInfo::Mapping(_, value) => self.is_flat(*value),
            _ => true,
        }
    }
}
