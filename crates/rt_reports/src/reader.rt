// Reading of reports.
ghost use Rattle.std.specs.Prelude.{◌≡◌, ◌⊎◌, [], IfErr, IfOk, OnOk, MatchResult, length};
ghost use Rattle.rt_lines.specs.Names.{AreNames};
ghost use Rattle.rt_texts.specs.declared.fault.TextFault.TheVariants.{Memory};
ghost use Rattle.rt_scheme.specs.Reports.{report_text};
ghost use Rattle.rt_reports.specs.GoodReports.{IsReport};
ghost use Rattle.rt_reports.specs.ReportReadings.{IsFault, IsNoReport};
ghost use Rattle.rt_reports.specs.Inside.Drafts.{IsKept, no_parts, parts_of, report_of};
ghost use Rattle.rt_reports.specs.Inside.Reads.{IsLineFault, IsRead, Takes, placed};

use crate::draft::Draft;
use crate::parts::{first_line, read_row};
use rt_lines::Names;
use rt_scheme::Report;
use rt_texts::TextFault;
use std::alloc::Global;

// The fault of a line of this number.
fn at_line(number: u32, fault: TextFault) -> TextFault
    ensures { result ≡ placed number fault }
{
    match fault {
        TextFault::BadText(_) => TextFault::BadText(number),
        TextFault::Memory => TextFault::Memory,
    }
}

// Adds the line of this text to what was read. Where no report goes on with it the fault is `BadText(0)`.
fn read_into(alloc: Global, draft: &mut Draft, line: &[u8], names: &Names) -> Result<(), TextFault>
    requires kept { IsKept draft.old }
    requires names { AreNames names.now }
    ensures { MatchResult result (λ done. IsKept draft.new × Takes names.now (parts_of draft.old) line.now (parts_of draft.new))
        (IsLineFault names.now (parts_of draft.old) line.now) }
{
    let row = match read_row(alloc, line, names) {
        Ok(row) => row,
        Err(fault) => return Err(fault),
    };
    draft.add(row)
}

// Reads the lines of a text. Gives the number that a line after the last would have.
fn read_lines(
    alloc: Global,
    draft: &mut Draft,
    text: &[u8],
    names: &Names,
) -> Result<u32, TextFault>
    requires kept { IsKept draft.old }
    requires none { parts_of draft.old ≡ no_parts }
    ensures read { IfOk result (λ number. IsKept draft.new × IsRead names.now text.now (parts_of draft.new) [] number) }
    ensures place { IfErr result (IsFault names.now text.now) }
{
    let _names = names.items();
    let mut rest = text;
    let mut number: u32 = 1;
    while let Some((line, more)) = first_line(rest) {
        match read_into(alloc, draft, line, names) {
            Ok(()) => (),
            Err(fault) => return Err(at_line(number, fault)),
        }
        let Some(next) = number.checked_add(1) else {
            return Err(TextFault::Memory);
        };
        number = next;
        rest = more;
    }
    if !rest.is_empty() {
        return Err(TextFault::BadText(number));
    }
    Ok(number)
}

// Reads a text to its end.
fn read_whole(alloc: Global, draft: &mut Draft, text: &[u8], names: &Names) -> Result<(), TextFault>
    requires kept { IsKept draft.old }
    requires none { parts_of draft.old ≡ no_parts }
    ensures read { OnOk result (IsReport (length names.now) (report_of (parts_of draft.new)) ×
        (report_text names.now (report_of (parts_of draft.new)) ≡ text.now)) }
    ensures place { IfErr result (IsFault names.now text.now) }
{
    let _names = names.items();
    let number = match read_lines(alloc, draft, text, names) {
        Ok(number) => number,
        Err(fault) => return Err(fault),
    };
    if !draft.is_whole() {
        return Err(TextFault::BadText(number));
    }
    Ok(())
}

/// The report of a text, whose constants are of the names. A report's entries rise, and its globals are exactly those that
/// its lines name, ascending. Where the text is that of no report the fault is `BadText` of the number, from 1, of the first
/// line with which no report's text begins as this text does up to it; the end counts as one line more, and a last line
/// without its line end is none of a report. Where that number is no `u32` the fault is out of memory.
pub fn read_report(alloc: Global, text: &[u8], names: &Names) -> Result<Report, TextFault>
    ensures read { IfOk result (λ report. IsReport (length names.now) report × (report_text names.now report ≡ text.now)) }
    ensures refused { IfErr result (λ fault. (fault ≡ Memory) ⊎ IsNoReport names.now text.now) }
    ensures place { IfErr result (IsFault names.now text.now) }
{
    let mut draft = Draft::new(alloc);
    match read_whole(alloc, &mut draft, text, names) {
        Ok(()) => Ok(draft.into_report()),
        Err(fault) => Err(fault),
    }
}
