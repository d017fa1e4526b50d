ghost use Rattle.std.specs.Prelude.{◌≡◌, ◌^◌, ◌<◌, ◌↔◌, ◌∷◌, ◌++◌, [], length, slice_get, Some, Contains, IfOk, OnOk, OnErr, IsOk, IfSome, IfNone, IsTrue};
ghost use Rattle.sv_text_type.specs.TextTypeParts.{HasParts, IsOrdered, AreDistinct};

use crate::text_type::{TextType, TypeId};
use indexmap::IndexSet;
use std::alloc::Global;
use std::marker::Model;
use sv_text::NoMemory;

/// Distinct types in the order in which they came, the parts of each before it. A contract sees the list of them.
#[derive(Drop)]
pub struct TextTypes {
    types: IndexSet<TextType>,
}

impl Model for TextTypes {
    ghost use Rattle.std.specs.Prelude.{List, ◌<◌, ◌^◌, length};
    ghost use Rattle.sv_text_type.specs.declared.text_type.TextType.{TextType};
    ghost use Rattle.sv_text_type.specs.TextTypeParts.{IsOrdered, AreDistinct};

    ghost Value = { List TextType };

    ghost view = { λ t. t.types.keys };

    ghost invariant = { λ t. IsOrdered t.types.keys × AreDistinct t.types.keys × (length t.types.keys < 2 ^ 32) };
}

impl TextTypes {
    /// No types. It takes no memory.
    pub fn new(alloc: Global) -> TextTypes
        ensures { result ≡ [] }
    {
        TextTypes {
            types: IndexSet::new(alloc),
        }
    }

    /// How many types there are.
    pub fn len(&self) -> usize
        ensures len { result ≡ length self.now }
        ensures few { length self.now < 2 ^ 32 }
    {
        self.types.len()
    }

    /// Whether there is no type.
    pub fn is_empty(&self) -> bool
        ensures { IsTrue result ↔ (self.now ≡ []) }
    {
        self.types.is_empty()
    }

    /// The type of a number.
    pub fn get(&self, number: TypeId) -> TextType
        requires { number.0 < length self.now }
        ensures found { slice_get self.now number.0 ≡ Some result }
        ensures ordered { IsOrdered self.now }
        ensures distinct { AreDistinct self.now }
    {
        *self.types.get_index(number.0 as usize).unwrap()
    }

    /// The number of a type that is there.
    pub fn find(&self, t: TextType) -> Option<TypeId>
        ensures found { IfSome result (λ n. slice_get self.now n.0 ≡ Some t) }
        ensures none { IfNone result (Contains self.now t → ⊥) }
    {
        let at = self.types.get_index_of(&t)?;
        Some(TypeId(at as u32))
    }

    /// The number of a type. A new type goes last. A table of 2^32 - 1 types takes no more, which counts as want of memory.
    pub fn number_of(&mut self, t: TextType) -> Result<TypeId, NoMemory>
        requires { HasParts (length self.old) t }
        ensures numbered { IfOk result (λ n. slice_get self.new n.0 ≡ Some t) }
        ensures held { Contains self.old t → IsOk result × (self.new ≡ self.old) }
        ensures new { (Contains self.old t → ⊥) → OnOk result (self.new ≡ self.old ++ t ∷ []) }
        ensures err { OnErr result (self.new ≡ self.old) }
    {
        if let Some(number) = self.find(t) {
            return Ok(number);
        }
        let position = self.types.len();
        if position >= u32::MAX as usize {
            return Err(NoMemory);
        }
        self.types.insert_full(t)?;
        Ok(TypeId(position as u32))
    }
}
