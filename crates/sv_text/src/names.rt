ghost use Rattle.std.specs.Prelude.{◌≡◌, ◌≢◌, ◌↔◌, ◌-◌, ◌^◌, ◌<◌, ◌∷◌, ◌++◌, [], length, slice_get, Some, Contains, OnOk, OnErr, IsOk, IfOk, IfSome, IfNone, IsTrue, AllPairs};

use crate::no_memory::NoMemory;
use indexmap::IndexSet;
use std::alloc::Global;
use std::marker::Model;

/// The place of a text in a list of names. A contract sees the number.
#[derive(Clone, Copy, Debug, PartialEq, Eq, PartialOrd, Ord)]
pub struct Name {
    position: u32,
}

impl Model for Name {
    ghost use Rattle.std.specs.Prelude.{ℕ};

    ghost Value = { ℕ };

    ghost view = { λ n. n.position };

    ghost inverse = { λ n. record { position = n } };
}

impl Name {
    /// The place in the list, from 0.
    pub fn position(self) -> u32
        ensures { result ≡ self }
    {
        self.position
    }
}

/// Distinct texts in the order in which they came. A contract sees the list of them.
#[derive(Drop)]
pub struct Names {
    texts: IndexSet<Vec<u8>>,
}

impl Model for Names {
    ghost use Rattle.std.specs.Prelude.{List, ℕ, ◌<◌, ◌^◌, map, length, AllPairs, ◌≢◌};

    ghost Value = { List (List ℕ) };

    ghost view = { λ n. map (λ t. t.items) n.texts.keys };

    ghost invariant = { λ n. AllPairs (λ x y. x ≢ y) (map (λ t. t.items) n.texts.keys) × (length n.texts.keys < 2 ^ 32) };
}

impl Names {
    /// No names. It takes no memory.
    pub fn new(alloc: Global) -> Names
        ensures { result ≡ [] }
    {
        Names {
            texts: IndexSet::new(alloc),
        }
    }

    /// How many texts there are.
    pub fn len(&self) -> usize
        ensures { result ≡ length self.now }
    {
        self.texts.len()
    }

    /// Whether there is no text.
    pub fn is_empty(&self) -> bool
        ensures { IsTrue result ↔ (self.now ≡ []) }
    {
        self.texts.is_empty()
    }

    /// The name of a text that is there.
    pub fn find(&self, text: &[u8]) -> Option<Name>
        ensures found { IfSome result (λ n. slice_get self.now n ≡ Some text.now) }
        ensures within { IfSome result (λ n. n < length self.now) }
        ensures none { IfNone result (Contains self.now text.now → ⊥) }
    {
        let at = self.texts.get_index_of(text)?;
        Some(Name {
            position: at as u32,
        })
    }

    /// The name of a text. A new text goes last.
    pub fn intern(&mut self, text: &[u8]) -> Result<Name, NoMemory>
        requires { length self.old < 2 ^ 32 - 1 }
        ensures named { IfOk result (λ n. slice_get self.new n ≡ Some text.now) }
        ensures within { IfOk result (λ n. n < length self.new) }
        ensures held { Contains self.old text.now → OnOk result (self.new ≡ self.old) }
        ensures succeeds { Contains self.old text.now → IsOk result }
        ensures new { (Contains self.old text.now → ⊥) → OnOk result (self.new ≡ self.old ++ text.now ∷ []) }
        ensures err { OnErr result (self.new ≡ self.old) }
    {
        if let Some(name) = self.find(text) {
            return Ok(name);
        }
        let position = self.texts.len() as u32;
        let copy = Vec::from_slice(*self.texts.allocator(), text)?;
        self.texts.insert_full(copy)?;
        Ok(Name { position })
    }

    /// The text of a name.
    pub fn text(&self, n: Name) -> &[u8]
        requires { n < length self.now }
        ensures text { slice_get self.now n ≡ Some result.now }
        ensures distinct { AllPairs (λ x y. x ≢ y) self.now }
    {
        self.texts
            .get_index(n.position as usize)
            .unwrap()
            .as_slice()
    }
}
