ghost use Rattle.std.specs.Prelude.{◌≡◌, ◌<◌, [], length, IfOk};
ghost use Rattle.sv_log.specs.LogRows.{row};
ghost use Rattle.sv_row.specs.RowParts.{monomials};
ghost use Rattle.sv_form_rows.specs.TermForms.{AreFormsOf};
ghost use Rattle.sv_term_forms.specs.FormLists.{form_list, AnswersForm};
ghost use Rattle.sv_term_forms.specs.NextTerms.{IsNamedBelow, IsOneLonger, TakesIn};

use crate::asking::is_form_of;
use crate::form_node::FormNode;
use crate::keeping::kept_of;
use std::alloc::Global;
use std::marker::Model;
use sv_form::Linear;
use sv_text::NoMemory;

/// The nodes of a list of terms. A contract sees what they tell of the terms' forms, and for how many there is room.
#[derive(Drop)]
pub struct Forms {
    nodes: Vec<Linear>,
    room: usize,
    // weights of the terms for a first and a second side, all 0 between the calls
    first: Vec<i128>,
    second: Vec<i128>,
}

impl Model for Forms {
    ghost use Rattle.std.specs.Prelude.{◌≡◌, ◌≤◌, length, vec_capacity};
    ghost use Rattle.sv_form.specs.Nodes.{AreSound};
    ghost use Rattle.sv_form.specs.TermWeights.{IsBlank};
    ghost use Rattle.sv_term_forms.specs.FormLists.{FormList, form_list};

    ghost Value = { FormList };

    ghost view = { λ f. form_list f.nodes.items f.room };

    ghost invariant = { λ f. AreSound f.nodes.items × (length f.nodes.items ≤ f.room) × (f.room ≤ vec_capacity f.nodes)
        × IsBlank f.first.items × (length f.first.items ≡ f.room) × IsBlank f.second.items × (length f.second.items ≡ f.room) };
}

impl Forms {
    /// No nodes, and room for so many. It takes all memory that is ever needed.
    pub fn new(alloc: Global, room: usize) -> Result<Forms, NoMemory>
        ensures { IfOk result (λ f. (f ≡ form_list [] room) × AreFormsOf [] f.nodes) }
    {
        let nodes = Vec::with_capacity(alloc, room)?;
        let mut first = Vec::new(alloc);
        first.resize(room, 0)?;
        let mut second = Vec::new(alloc);
        second.resize(room, 0)?;
        Ok(Forms {
            nodes,
            room,
            first,
            second,
        })
    }

    /// How many nodes there are.
    pub fn len(&self) -> usize
        ensures { result ≡ length self.now.nodes }
    {
        self.nodes.len()
    }

    /// For how many nodes there is room, those that are there included.
    pub fn room(&self) -> usize
        ensures { result ≡ self.now.room }
    {
        self.room
    }

    /// Puts the node of one more term behind the others: one of which `node` tells, and that isn't among the terms of the nodes. It takes no memory.
    pub fn push(&mut self, node: FormNode)
        requires named { IsNamedBelow (length self.old.nodes) node }
        requires room { length self.old.nodes < self.old.room }
        ensures room { self.new.room ≡ self.old.room }
        ensures behind { IsOneLonger self.old.nodes self.new.nodes }
        ensures forms { TakesIn self.old.nodes node self.new.nodes }
    {
        let kept = kept_of(node, &self.nodes, &mut self.first, &mut self.second);
        self.nodes.push(kept).unwrap();
    }

    /// Whether the row of the constant and the parts is the linear form of the fact that the comparison of number `n` is true, or false, as `sign` says.
    /// An equation has two forms, `forward` and not.
    pub fn is_form(
        &mut self,
        sign: bool,
        n: usize,
        forward: bool,
        constant: i128,
        parts: &[(i128, usize)],
    ) -> bool
        requires { n < length self.old.nodes }
        ensures same { self.new ≡ self.old }
        ensures exact { AnswersForm self.old.nodes sign n forward (row constant (monomials parts.now)) result }
    {
        is_form_of(
            sign,
            n,
            forward,
            &self.nodes,
            constant,
            parts,
            &mut self.first,
            &mut self.second,
        )
    }
}
