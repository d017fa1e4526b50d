ghost use Rattle.std.specs.Prelude.{◌≡◌, [], length, take, slice_get, Some, IfOk, MatchOption};
ghost use Rattle.std.specs.List.{Contains};
ghost use Rattle.sv_term.specs.Banks.{IsTerm, AreTerms, AreBelow, args, term, term_list};
ghost use Rattle.sv_log.specs.Logs.{with_terms_of};
ghost use Rattle.sv_goal_terms.specs.GoalNumbers.{HaveNumbers, FindsMissing};

use crate::args::arg;
use std::alloc::Global;
use std::marker::Model;
use sv_term::{Bank, Node, TermId};
use sv_text::NoMemory;

/// The terms of a condition, by their numbers in a bank. A contract sees the list of these numbers.
#[derive(Drop)]
pub struct GoalTerms {
    order: Vec<TermId>,
    // for each term of the bank its place in the list
    numbers: Vec<Option<usize>>,
}

impl Model for GoalTerms {
    ghost use Rattle.std.specs.Prelude.{List};
    ghost use Rattle.sv_term.specs.declared.node.TermId.{TermId};
    ghost use Rattle.sv_goal_terms.specs.GoalNumbers.{Numbered};

    ghost Value = { List TermId };

    ghost view = { λ g. g.order.items };

    ghost invariant = { λ g. Numbered g.order.items g.numbers.items };
}

/// A term of which the arguments before a place have their numbers.
#[derive(Clone, Copy, Drop)]
struct Open {
    term: TermId,
    next: usize,
}

/// An argument that has no number, and its place.
#[derive(Clone, Copy, Drop)]
struct Missing {
    place: usize,
    arg: TermId,
}

fn first_missing(node: &Node, from: usize, numbers: &[Option<usize>]) -> Option<Missing>
    requires within { AreBelow (length numbers.now) (args node.now) }
    requires before { HaveNumbers numbers.now (take from (args node.now)) }
    ensures { FindsMissing numbers.now (args node.now) result }
{
    let mut place = from;
    while let Some(arg) = arg(node, place) {
        if numbers[arg.0].is_none() {
            return Some(Missing { place, arg });
        }
        place += 1;
    }
    None
}

impl GoalTerms {
    /// The terms of the condition, each once, in the order in which a walk from left to right leaves them: arguments before their node.
    pub fn of(alloc: Global, bank: &Bank, goal: TermId) -> Result<GoalTerms, NoMemory>
        requires { IsTerm bank.now goal }
        ensures terms { IfOk result (λ g. term_list bank.now g ≡ with_terms_of [] (term bank.now goal)) }
        ensures within { IfOk result (λ g. AreTerms bank.now g) }
    {
        let mut order = Vec::new(alloc);
        let mut numbers = vec![in alloc; None; bank.len()]?;
        let mut begun = Vec::new(alloc);
        begun.push(Open {
            term: goal,
            next: 0,
        })?;
        bank.is_sound();
        while let Some(top) = begun.pop() {
            match first_missing(bank.node_of(top.term), top.next, &numbers) {
                Some(missing) => {
                    begun.push(Open {
                        term: top.term,
                        next: missing.place,
                    })?;
                    begun.push(Open {
                        term: missing.arg,
                        next: 0,
                    })?;
                }
                None => {
                    numbers[top.term.0] = Some(order.len());
                    order.push(top.term)?;
                }
            }
        }
        Ok(GoalTerms { order, numbers })
    }

    /// The numbers in the bank, in order.
    pub fn ids(&self) -> &[TermId]
        ensures { result.now ≡ self.now }
    {
        &self.order
    }

    /// The place of a term in the list, from 0.
    pub fn number_of(&self, id: TermId) -> Option<usize>
        ensures { MatchOption result (Contains self.now id → ⊥) (λ n. slice_get self.now n ≡ Some id) }
    {
        *self.numbers.get(id.0)?
    }
}
