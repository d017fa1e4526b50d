//! Functions, constructors and modifiers.
#![tactic(auto)]

ghost use Rattle.std.specs.Prelude.{◌≡◌, IfOk, OnOk};
ghost use Rattle.sv_visit.specs.Sites.{OfFunction, OfSpecial, OfModifier, OfHead};
ghost use Rattle.sv_form_book.specs.FormKnown.{with_optional};
ghost use Rattle.sv_form_book.specs.FormRules.{word_contradicts, is_no_base};
ghost use Rattle.sv_forms.specs.FormState.{state_of, entered_owner, closed_at};

use crate::asker::Forms;
use std::alloc::Global;
use sv_ast::{Function, Head, HeadKind, Modifier, Special};
use sv_form_bases::Bases;
use sv_form_book::{Notes, Owner, Rests};
use sv_form_marks::Marks;
use sv_form_rules::{Word, Words, text_of};
use sv_form_sites::{has_virtual_twice, head_word};
use sv_text::{Name, Names, NoMemory};
use sv_visit_decl::{FunctionJudge, FunctionNode};

/// Whether a word contradicts those that stood.
fn word_contradicts(words: Words, word: Option<Word>) -> bool
    ensures { result ≡ word_contradicts words word }
{
    match word {
        None => false,
        Some(word) => words.contradict(word),
    }
}

/// The words that stood, and one more if there is one.
fn with_optional(words: Words, word: Option<Word>) -> Words
    ensures { result ≡ with_optional words word }
{
    match word {
        None => words,
        Some(word) => words.with(word),
    }
}

/// Whether it is a modifier on a constructor that is no base.
fn is_no_base(
    alloc: Global,
    bases: &Bases<'_>,
    contract: Option<Name>,
    owner: Owner,
    k: &HeadKind,
) -> Result<bool, NoMemory>
    ensures { IfOk result (λ r. r ≡ is_no_base bases.now contract owner k.now) }
{
    let in_constructor = match owner {
        Owner::Constructor => true,
        Owner::Function | Owner::Modifier => false,
    };
    match k {
        HeadKind::Use { name, args: _ } => {
            if in_constructor {
                let is_base = bases.has(alloc, contract, *name)?;
                Ok(!is_base)
            } else {
                Ok(false)
            }
        }
        _ => Ok(false),
    }
}

impl<'a> Forms<'a> {
    /// Enters a declaration with words of its own.
    fn enter_owner(&mut self, owner: Owner, notes: Notes, rests: Rests) -> bool
        ensures before { result ≡ self.old.pass.clear }
        ensures state { state_of self.new ≡ entered_owner self.old owner notes rests }
    {
        let mut around = self.around;
        around.owner = owner;
        around.notes = notes;
        around.rests = rests;
        around.words = Words::none();
        self.enter(around)
    }

    fn leave_function_node(&mut self, f: &Function, before: bool)
        ensures { state_of self.new ≡ closed_at self.old before (OfFunction f.now) }
    {
        let around = self.around;
        let has_body = match &f.body {
            None => false,
            Some(_) => true,
        };
        let mut marks = Marks::none();
        marks.head = !around.words.visibility
            || !has_body && !(around.in_interface || around.words.is_virtual);
        self.leave(around, before, marks, f.place);
    }

    fn leave_special(&mut self, f: &Special, before: bool)
        ensures { state_of self.new ≡ closed_at self.old before (OfSpecial f.now) }
    {
        let names: &Names = self.names;
        let around = self.around;
        let is_receive = text_of(names, f.word) == b"receive".as_slice();
        let mut marks = Marks::none();
        marks.head = !(around.words.external && (around.words.payable || !is_receive));
        self.leave(around, before, marks, f.place);
    }

    fn leave_modifier(&mut self, m: &Modifier, before: bool)
        ensures { state_of self.new ≡ closed_at self.old before (OfModifier m.now) }
    {
        let around = self.around;
        let mut marks = Marks::none();
        marks.placeholder = match around.rests {
            Rests::One => false,
            Rests::None | Rests::Several => true,
        };
        marks.head = has_virtual_twice(m.words.as_slice());
        self.leave(around, before, marks, m.place);
    }

    fn leave_head(&mut self, h: &Head, before: bool) -> Result<(), NoMemory>
        ensures { OnOk result (state_of self.new ≡ closed_at self.old before (OfHead h.now)) }
    {
        let word = head_word(&h.kind);
        let mut around = self.around;
        let no_base = is_no_base(
            self.alloc,
            &self.bases,
            around.contract,
            around.owner,
            &h.kind,
        )?;
        let mut marks = Marks::none();
        marks.head = word_contradicts(around.words, word) || no_base;
        around.words = with_optional(around.words, word);
        self.leave(around, before, marks, h.place);
        Ok(())
    }
}

impl<'a> FunctionJudge for Forms<'a> {
    fn enter_function(&mut self, site: FunctionNode<'_>) -> Result<bool, NoMemory> {
        let rests = self.around.rests;
        match site {
            FunctionNode::Function(_) => {
                Ok(self.enter_owner(Owner::Function, Notes::Function, rests))
            }
            FunctionNode::Constructor(_) => {
                Ok(self.enter_owner(Owner::Constructor, Notes::Constructor, rests))
            }
            FunctionNode::Special(_) => {
                Ok(self.enter_owner(Owner::Function, Notes::Function, rests))
            }
            FunctionNode::Modifier(_) => {
                let notes = self.around.notes;
                Ok(self.enter_owner(Owner::Modifier, notes, Rests::None))
            }
            FunctionNode::Head(_) => Ok(self.enter(self.around)),
        }
    }

    fn leave_function(&mut self, site: FunctionNode<'_>, before: bool) -> Result<(), NoMemory> {
        match site {
            FunctionNode::Function(f) => self.leave_function_node(f, before),
            FunctionNode::Constructor(_) => self.leave_quiet(before),
            FunctionNode::Special(f) => self.leave_special(f, before),
            FunctionNode::Modifier(m) => self.leave_modifier(m, before),
            FunctionNode::Head(h) => self.leave_head(h, before)?,
        }
        Ok(())
    }
}
