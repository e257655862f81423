// Reports of procedures, and their text.
ghost use Rattle.std.specs.Prelude.{◌≡◌, ◌++◌, ◌∷◌, All, OnOk, OnErr, IfOk, [], codes, length};
ghost use Rattle.std.specs.List.{flat_map};
ghost use Rattle.rt_lines.specs.Lines.{HasConstantsBelow};
ghost use Rattle.rt_scheme.specs.NameTexts.{name_text};
ghost use Rattle.rt_scheme.specs.Reports.{global_text, heading_text, entry_text, report_text, AllConstantsBelow};

use crate::name::print_name;
use rt_base::{Bytes, Memory, Sequence};
use rt_lines::{Lines, Names};
use rt_texts::{print_lines, print_number};
use std::alloc::Global;

/// A place in the object.
#[derive(Clone, Copy, PartialEq, Eq)]
pub struct Place2 {
    /// The section's index.
    pub section: u16,
    /// The offset in the section, in bytes.
    pub offset: u32,
}

/// What was found of a procedure.
#[derive(Drop)]
pub struct Entry {
    /// The procedure's number.
    pub number: u32,
    /// Where the procedure begins.
    pub place: Place2,
    /// The procedure's name, empty where it has none.
    pub name: Bytes,
    /// What is known of the procedure's arguments and results.
    pub lines: Lines,
}

/// Globals, each by the index of its symbol and its name.
pub type Globals = Sequence<(u32, Bytes)>;

/// Procedures of a report.
pub type Entries = Sequence<Entry>;

/// What was found of an object: the globals that the lines name, and the procedures.
#[derive(Drop)]
pub struct Report {
    /// The globals, ascending.
    pub globals: Globals,
    /// The procedures, ascending.
    pub entries: Entries,
}

// Adds a name and the line's end.
fn push_name_line(name: &[u8], out: &mut Vec<u8>) -> Result<(), Memory>
    ensures { OnOk result (out.new.items ≡ out.old.items ++ (codes " name " ++ name_text name.now ++ 10 ∷ [])) }
{
    out.extend_from_slice(b" name ")?;
    print_name(name, out)?;
    out.extend_from_slice(b"\n")
}

// Adds a global's line.
fn push_global(number: u32, name: &[u8], out: &mut Vec<u8>) -> Result<(), Memory>
    ensures { OnOk result (out.new.items ≡ out.old.items ++ global_text (number, name.now)) }
{
    out.extend_from_slice(b"global g")?;
    print_number(number, out)?;
    push_name_line(name, out)
}

// Adds the lines of globals.
fn push_globals(globals: &[(u32, Bytes)], out: &mut Vec<u8>) -> Result<(), Memory>
    ensures { OnOk result (out.new.items ≡ out.old.items ++ flat_map global_text globals.now) }
{
    for (number, name) in globals {
        push_global(*number, name.items(), out)?;
    }
    Ok(())
}

// Adds the line that a procedure begins with.
fn push_heading(number: u32, place: Place2, name: &[u8], out: &mut Vec<u8>) -> Result<(), Memory>
    ensures { OnOk result (out.new.items ≡ out.old.items ++ heading_text number place name.now) }
{
    out.extend_from_slice(b"proc f")?;
    print_number(number, out)?;
    out.extend_from_slice(b" section ")?;
    print_number(u32::from(place.section), out)?;
    out.extend_from_slice(b" offset ")?;
    print_number(place.offset, out)?;
    push_name_line(name, out)
}

// Adds a procedure's heading, its lines and its end.
fn push_entry(entry: &Entry, names: &Names, out: &mut Vec<u8>) -> Result<(), Memory>
    requires { All (HasConstantsBelow (length names.now)) entry.now.lines }
    ensures { OnOk result (out.new.items ≡ out.old.items ++ entry_text names.now entry.now) }
{
    push_heading(entry.number, entry.place, entry.name.items(), out)?;
    print_lines(entry.lines.items(), names, out)?;
    out.extend_from_slice(b"end\n")
}

// Adds procedures.
fn push_entries(entries: &[Entry], names: &Names, out: &mut Vec<u8>) -> Result<(), Memory>
    requires { All (λ entry. All (HasConstantsBelow (length names.now)) entry.lines) entries.now }
    ensures { OnOk result (out.new.items ≡ out.old.items ++ flat_map (entry_text names.now) entries.now) }
{
    for entry in entries {
        push_entry(entry, names, out)?;
    }
    Ok(())
}

/// Adds the line that a procedure begins with, with its line end: the procedure's number, its place and its
/// name. Out of memory, the bytes are as they were.
pub fn print_heading(
    number: u32,
    place: Place2,
    name: &[u8],
    out: &mut Vec<u8>,
) -> Result<(), Memory>
    ensures ok { OnOk result (out.new.items ≡ out.old.items ++ heading_text number place name.now) }
    ensures err { OnErr result (out.new.items ≡ out.old.items) }
{
    let mut text = Vec::new(*out.allocator());
    push_heading(number, place, name, &mut text)?;
    out.extend_from_slice(&text)
}

/// The one text of a report. Every constant of its lines has a name.
pub fn print_report(alloc: Global, report: &Report, names: &Names) -> Result<Vec<u8>, Memory>
    requires { AllConstantsBelow (length names.now) report.now }
    ensures { IfOk result (λ text. text.items ≡ report_text names.now report.now) }
{
    let mut text = Vec::new(alloc);
    push_globals(report.globals.items(), &mut text)?;
    push_entries(report.entries.items(), names, &mut text)?;
    Ok(text)
}
