ghost use Rattle.std.specs.Prelude.{◌≡◌, ◌+◌, ◌++◌, length, IfOk, OnOk};
ghost use Rattle.std.specs.List.{list_all};
ghost use Rattle.sv_report.specs.Report.{last_text, line_text, report_text};
ghost use Rattle.sv_first_judge.specs.Verdict.{is_verified};

use std::alloc::Global;
use sv_first_form::Contract;
use sv_first_judge::Verdict;
use sv_text::NoMemory;

/// Adds the line of one verdict.
fn push_line(
    alloc: Global,
    report: &mut Vec<u8>,
    contract: &[u8],
    function: &[u8],
    verdict: Verdict,
) -> Result<(), NoMemory>
    ensures { OnOk result
        (report.new.items ≡ report.old.items ++ line_text contract.now function.now verdict) }
{
    let verdict = format!(in alloc; "{verdict}")?;
    report.extend_from_slice(contract)?;
    report.extend_from_slice(b".")?;
    report.extend_from_slice(function)?;
    report.extend_from_slice(b": ")?;
    report.extend_from_slice(verdict.as_bytes())?;
    report.extend_from_slice(b"\n")?;
    Ok(())
}

/// Adds the last line.
fn push_last(report: &mut Vec<u8>, contract: &[u8], holds: bool) -> Result<(), NoMemory>
    ensures { OnOk result (report.new.items ≡ report.old.items ++ last_text contract.now holds) }
{
    report.extend_from_slice(contract)?;
    report.extend_from_slice(if holds { b": holds\n" } else { b": unheld\n" })?;
    Ok(())
}

/// Whether every verdict is verified.
pub fn all_verified(verdicts: &[Verdict]) -> bool
    ensures { result ≡ list_all is_verified verdicts.now }
{
    verdicts.iter().all(|verdict| verdict.is_verified())
}

/// The report of a contract, by its verdicts: those of the constructor, of each function and of `(gift)`.
pub fn report(
    alloc: Global,
    contract: &Contract<'_>,
    verdicts: &[Verdict],
) -> Result<Vec<u8>, NoMemory>
    requires { length verdicts.now ≡ length contract.now.functions + 2 }
    ensures { IfOk result (λ report. report.items ≡ report_text contract.now verdicts.now) }
{
    let name = contract.name.bytes();
    let mut report = Vec::new(alloc);
    push_line(alloc, &mut report, name, b"constructor", verdicts[0])?;
    for (at, function) in contract.functions.as_slice().iter().enumerate() {
        push_line(
            alloc,
            &mut report,
            name,
            function.name.bytes(),
            verdicts[at + 1],
        )?;
    }
    push_line(
        alloc,
        &mut report,
        name,
        b"(gift)",
        verdicts[verdicts.len() - 1],
    )?;
    push_last(&mut report, name, all_verified(verdicts))?;
    Ok(report)
}
