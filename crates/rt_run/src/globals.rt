// The globals that a report names.
ghost use Rattle.std.specs.Prelude.{◌≡◌, ◌<◌, [], All, IfOk, OnOk, fold, length, map};
ghost use Rattle.std.specs.BTreeSet.{insert_key};
ghost use Rattle.std.specs.List.Sorted.{IsStrictlyIncreasing};
ghost use Rattle.std.specs.Ordering.{nat_cmp};
ghost use Rattle.rt_texts.specs.Goods.{IsBase, IsDtv, IsNumber};
ghost use Rattle.rt_scheme.specs.NameReadings.{AreBytes};
ghost use Rattle.rt_table.specs.Lists.{HasGlobalsOf};
ghost use Rattle.rt_reports.specs.Globals.{base_globals, entries_globals, line_globals, lines_globals};
ghost use Rattle.rt_reports.specs.GoodReports.{IsGlobal, IsPlace};
ghost use Rattle.rt_run.specs.Globals.{AreGlobals, global_of};
ghost use Rattle.rt_run.specs.Inside.Goods.{HasGoodParts, HasGoodSides};

use rt_base::{Bytes, Memory};
use rt_elf::Object;
use rt_lines::{Base, Dtv, Line};
use rt_scheme::{Entry, Globals, Place2};
use std::alloc::Global;
use std::collections::BTreeSet;

// Adds a base, if it is a global.
fn note(base: Base, found: &mut BTreeSet<u32>) -> Result<(), Memory>
    ensures found { OnOk result (found.new.keys ≡ fold (insert_key nat_cmp) found.old.keys (base_globals base)) }
    ensures good { IsBase base }
{
    if let Base::Global(number) = base {
        found.insert(number)?;
    }
    Ok(())
}

// Adds the base of a variable, the letters of which are labels.
fn note_variable(x: &Dtv, found: &mut BTreeSet<u32>) -> Result<(), Memory>
    ensures found { OnOk result (found.new.keys ≡ fold (insert_key nat_cmp) found.old.keys (base_globals x.now.base)) }
    ensures good { IsDtv x.now }
{
    let _letters = x.word.items();
    note(x.base, found)
}

// Adds the globals of a line.
fn note_line(line: &Line, found: &mut BTreeSet<u32>) -> Result<(), Memory>
    ensures found { OnOk result (found.new.keys ≡ fold (insert_key nat_cmp) found.old.keys (line_globals line.now)) }
    ensures good { OnOk result (HasGoodSides line.now) }
{
    match line {
        Line::Var(x) | Line::Low(_, x) | Line::Up(x, _) => note_variable(x, found),
        Line::Same(x, y) | Line::Sub(x, y) => {
            note_variable(x, found)?;
            note_variable(y, found)
        }
    }
}

// Adds the globals of lines.
fn note_lines(lines: &[Line], found: &mut BTreeSet<u32>) -> Result<(), Memory>
    ensures found { OnOk result (found.new.keys ≡ fold (insert_key nat_cmp) found.old.keys (lines_globals lines.now)) }
    ensures good { OnOk result (All HasGoodSides lines.now) }
{
    for line in lines {
        note_line(line, found)?;
    }
    Ok(())
}

// A name has bytes below 256, a place a section below 2^16 and an offset below 2^32, and a number is below 2^32: by their types, which
// contracts see where they are read.
fn read_name(name: &[u8])
    ensures { AreBytes name.now }
{
    let _name = name;
}

fn read_place(place: Place2)
    ensures { IsPlace place }
{
    let _place = place;
}

fn read_number(number: u32)
    ensures { IsNumber number }
{
    let _number = number;
}

// Adds the globals of an entry.
fn note_entry(entry: &Entry, found: &mut BTreeSet<u32>) -> Result<(), Memory>
    ensures found { OnOk result (found.new.keys ≡ fold (insert_key nat_cmp) found.old.keys (lines_globals entry.now.lines)) }
    ensures good { OnOk result (HasGoodParts entry.now) }
{
    read_number(entry.number);
    read_place(entry.place);
    read_name(entry.name.items());
    note_lines(entry.lines.items(), found)
}

// The numbers of the globals of entries.
fn numbers_of(alloc: Global, entries: &[Entry]) -> Result<BTreeSet<u32>, Memory>
    ensures found { IfOk result (λ found. found.keys ≡ fold (insert_key nat_cmp) [] (entries_globals entries.now)) }
    ensures good { OnOk result (All HasGoodParts entries.now) }
{
    let mut found = BTreeSet::new(alloc);
    for entry in entries {
        note_entry(entry, &mut found)?;
    }
    Ok(found)
}

// The globals of numbers, in their order.
fn named(alloc: Global, object: &Object, numbers: BTreeSet<u32>) -> Result<Globals, Memory>
    requires { All (λ number. number < length object.now.symbols) numbers.keys }
    ensures named { IfOk result (λ globals. globals ≡ map (global_of object.now) numbers.keys) }
    ensures ascending { OnOk result (IsStrictlyIncreasing numbers.keys) }
{
    let symbols = object.symbols();
    let mut globals = Globals::new(alloc);
    for number in numbers {
        let name = symbols[number as usize].name.to_bytes(alloc)?;
        globals.push((number, name))?;
    }
    Ok(globals)
}

// Reads globals, the numbers and names of which are in range.
fn read_globals(globals: &[(u32, Bytes)])
    ensures { All IsGlobal globals.now }
{
    for (number, name) in globals {
        read_number(*number);
        read_name(name.items());
    }
}

/// The globals of entries, which name only symbols of the object.
pub fn globals_of(alloc: Global, object: &Object, entries: &[Entry]) -> Result<Globals, Memory>
    requires { All (λ entry. HasGlobalsOf object.now entry.lines) entries.now }
    ensures globals { IfOk result (AreGlobals object.now entries.now) }
    ensures good { IfOk result (All IsGlobal) }
    ensures parts { OnOk result (All HasGoodParts entries.now) }
{
    let numbers = numbers_of(alloc, entries)?;
    let globals = named(alloc, object, numbers)?;
    read_globals(globals.items());
    Ok(globals)
}
