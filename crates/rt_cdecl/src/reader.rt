// Reading of headers.
ghost use Rattle.std.specs.Prelude.{◌≡◌, ◌+◌, ◌⊎◌, length, IfErr, IfOk, IfSome, OnOk};
ghost use Rattle.rt_texts.specs.declared.fault.TextFault.TheVariants.{BadText, Memory};
ghost use Rattle.rt_cdecl.specs.Texts.{decls_text};
ghost use Rattle.rt_cdecl.specs.GoodDecls.{IsGoodDecls};
ghost use Rattle.rt_cdecl.specs.HeaderReadings.{IsFault, IsNoHeader};
ghost use Rattle.rt_cdecl.specs.Inside.Drafts.{decls_of, no_parts};
ghost use Rattle.rt_cdecl.specs.Inside.Steps.{IsAllowed, IsReachedAt, IsSound, IsTaken, parts_of};

use crate::declarations::Decls;
use crate::draft::Draft;
use crate::parts::first_line;
use crate::reading::read_row;
use rt_texts::TextFault;
use std::alloc::Global;

// The place after a line that begins at a place, and its line end.
fn place_after(place: u32, line: &[u8]) -> Option<u32>
    ensures { IfSome result (λ next. next ≡ place + length line.now + 1) }
{
    let length = u32::try_from(line.len()).ok()?;
    place.checked_add(length)?.checked_add(1)
}

// Adds the line that begins at a place, and gives the place of the next one. A line that no header's text goes on with is bad
// there.
fn step(alloc: Global, draft: &mut Draft, place: u32, line: &[u8]) -> Result<u32, TextFault>
    requires sound { IsSound draft.old }
    requires reached { IsReachedAt (parts_of draft.old) place }
    ensures taken { OnOk result (IsTaken draft.old line.now draft.new) }
    ensures next { IfOk result (λ next. next ≡ place + length line.now + 1) }
    ensures refused { IfErr result
        (λ fault. (fault ≡ Memory) ⊎ ((fault ≡ BadText place) × (IsAllowed (parts_of draft.old) line.now → ⊥))) }
{
    let row = match read_row(alloc, line) {
        Ok(row) => row,
        Err(TextFault::BadText(_)) => return Err(TextFault::BadText(place)),
        Err(TextFault::Memory) => return Err(TextFault::Memory),
    };
    match draft.may(&row) {
        Ok(true) => (),
        Ok(false) => return Err(TextFault::BadText(place)),
        Err(_) => return Err(TextFault::Memory),
    }
    match draft.add(row) {
        Ok(()) => (),
        Err(_) => return Err(TextFault::Memory),
    }
    let Some(next) = place_after(place, line) else {
        return Err(TextFault::Memory);
    };
    if !draft.can_end() {
        return Err(TextFault::BadText(place));
    }
    Ok(next)
}

// Reads the lines of a header into a draft of nothing, which is then whole.
fn read_lines(alloc: Global, draft: &mut Draft, text: &[u8]) -> Result<(), TextFault>
    requires sound { IsSound draft.old }
    requires none { parts_of draft.old ≡ no_parts }
    ensures good { OnOk result (IsGoodDecls (decls_of (parts_of draft.new))) }
    ensures text { OnOk result (decls_text (decls_of (parts_of draft.new)) ≡ text.now) }
    ensures place { IfErr result (IsFault text.now) }
{
    let mut rest = text;
    let mut place: u32 = 0;
    while let Some((line, more)) = first_line(rest) {
        place = step(alloc, draft, place, line)?;
        rest = more;
    }
    if !rest.is_empty() {
        return Err(TextFault::BadText(place));
    }
    if !draft.is_whole() {
        return Err(TextFault::BadText(place));
    }
    Ok(())
}

/// The declarations of a text, which is exactly theirs. Where the text is that of no well formed declarations the fault is
/// `BadText` of the byte where a line begins: that of the first line with which no header's text begins as this text does up to
/// it. The lines before it begin some header's text, so the types that they list can all be used. The end of the text counts as
/// one line more, and a last line without its line end is none of a header. Where that place is no `u32` the fault is out of
/// memory.
pub fn read(alloc: Global, text: &[u8]) -> Result<Decls, TextFault>
    ensures read { IfOk result (λ decls. IsGoodDecls decls × (decls_text decls ≡ text.now)) }
    ensures refused { IfErr result (λ fault. (fault ≡ Memory) ⊎ IsNoHeader text.now) }
    ensures place { IfErr result (IsFault text.now) }
{
    let mut draft = Draft::new(alloc);
    read_lines(alloc, &mut draft, text)?;
    Ok(draft.into_decls())
}
