ghost use Rattle.std.specs.Prelude.{◌<◌, length};
ghost use Rattle.sv_log.specs.LogRows.{row};
ghost use Rattle.sv_row.specs.RowParts.{monomials, AreInRange};
ghost use Rattle.sv_form.specs.TermWeights.{IsBlank};
ghost use Rattle.sv_form_rows.specs.Questions.{AreReady};
ghost use Rattle.sv_term_forms.specs.FormLists.{AnswersForm};

use sv_form::Linear;
use sv_form_rows::{is_difference, sides_of};

/// Whether the row of the constant and the parts is the form of the fact with this sign on term `n`.
pub(crate) fn is_form_of(
    sign: bool,
    n: usize,
    forward: bool,
    nodes: &[Linear],
    constant: i128,
    parts: &[(i128, usize)],
    first: &mut [i128],
    second: &mut [i128],
) -> bool
    requires { (n < length nodes.now) × AreReady nodes.now first.old second.old }
    ensures blank { IsBlank first.new × IsBlank second.new }
    ensures is { AnswersForm nodes.now sign n forward (row constant (monomials parts.now)) result }
{
    read(parts);
    match sides_of(nodes[n], sign, forward) {
        Some(sides) => is_difference(sides, nodes, constant, parts, first, second),
        None => false,
    }
}

// The numbers are `i128` by their type, which a proof knows of a number that is read.
fn read(parts: &[(i128, usize)])
    ensures { AreInRange (monomials parts.now) }
{
    for k in 0..parts.len() {
        let (_number, _column) = parts[k];
    }
}
