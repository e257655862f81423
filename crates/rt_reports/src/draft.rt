// Reports that are read in part.
ghost use Rattle.std.specs.Prelude.{◌≡◌, ◌↔◌, ℕ, List, All, IsTrue, Contains, OnOk, fold, nat_eq};
ghost use Rattle.indexmap.specs.IndexSet.{insert_key};
ghost use Rattle.rt_scheme.specs.declared.report.Place2.{Place2};
ghost use Rattle.rt_reports.specs.declared.row.Row.TheVariants.{Listed, Heading, Stated, End};
ghost use Rattle.rt_reports.specs.GoodReports.{numbers_of};
ghost use Rattle.rt_reports.specs.Globals.{base_globals, line_globals};
ghost use Rattle.rt_reports.specs.Inside.Drafts.{AllNamed, Allows, Follows, IsKept, IsListing, IsUnfinished, IsWhole, no_parts, parts_of, report_of, unfinished_with, with_row};

use crate::listed::ListedGlobals;
use crate::numbers::Numbers;
use crate::row::Row;
use rt_base::{Bytes, Memory};
use rt_lines::{Base, Line, Lines};
use rt_scheme::{Entries, Entry, Place2, Report};
use rt_texts::TextFault;
use std::alloc::Global;

// A report that is read in part.
#[derive(Drop)]
pub struct Draft {
    // The globals.
    pub listed: ListedGlobals,
    // The entries with their ends.
    pub entries: Entries,
    // The entry whose end is still to come.
    pub unfinished: Option<Entry>,
    // The numbers of the globals that the lines name.
    pub named: Numbers,
    // The least number that the next entry may have.
    pub least: u64,
}

// Whether the globals list the base, if it is a global.
fn lists_base(listed: &ListedGlobals, base: Base) -> bool
    requires { IsListing listed.now.globals listed.now.numbers listed.now.least }
    ensures { IsTrue result ↔ All (Contains (numbers_of listed.now.globals)) (base_globals base) }
{
    match base {
        Base::Global(number) => listed.has(number),
        _ => true,
    }
}

// Whether the globals list each global of a line.
fn lists_line(listed: &ListedGlobals, line: &Line) -> bool
    requires { IsListing listed.now.globals listed.now.numbers listed.now.least }
    ensures { IsTrue result ↔ All (Contains (numbers_of listed.now.globals)) (line_globals line.now) }
{
    match line {
        Line::Var(x) | Line::Low(_, x) | Line::Up(x, _) => lists_base(listed, x.base),
        Line::Same(x, y) | Line::Sub(x, y) => {
            lists_base(listed, x.base) && lists_base(listed, y.base)
        }
    }
}

// Adds a base, if it is a global.
fn note_base(named: &mut Numbers, base: Base) -> Result<(), Memory>
    ensures { OnOk result (named.new ≡ fold (insert_key nat_eq) named.old (base_globals base)) }
{
    if let Base::Global(number) = base {
        named.add(number)?;
    }
    Ok(())
}

// Adds the globals of a line.
fn note_line(named: &mut Numbers, line: &Line) -> Result<(), Memory>
    ensures { OnOk result (named.new ≡ fold (insert_key nat_eq) named.old (line_globals line.now)) }
{
    match line {
        Line::Var(x) | Line::Low(_, x) | Line::Up(x, _) => note_base(named, x.base),
        Line::Same(x, y) | Line::Sub(x, y) => {
            note_base(named, x.base)?;
            note_base(named, y.base)
        }
    }
}

// Adds a line to the entry, if there is one.
fn push_line(unfinished: &mut Option<Entry>, line: Line) -> Result<(), Memory>
    ensures { OnOk result (unfinished.new ≡ unfinished_with unfinished.old line) }
{
    if let Some(entry) = unfinished {
        entry.lines.push(line)?;
    }
    Ok(())
}

impl Draft {
    // The draft of nothing read. It takes no memory, and keeps the allocator.
    pub fn new(alloc: Global) -> Draft
        ensures kept { IsKept result }
        ensures none { parts_of result ≡ no_parts }
    {
        Draft {
            listed: ListedGlobals::new(alloc),
            entries: Entries::new(alloc),
            unfinished: None,
            named: Numbers::new(alloc),
            least: 0,
        }
    }

    // Adds a line. Where no report goes on with the line the fault is `BadText(0)`.
    pub fn add(&mut self, row: Row) -> Result<(), TextFault>
        requires { IsKept self.old }
        ensures { Follows self.old row result self.new }
    {
        match row {
            Row::Listed(number, name) => self.add_global(number, name),
            Row::Heading(number, place, name) => self.add_heading(number, place, name),
            Row::Stated(line) => self.add_line(line),
            Row::End => self.add_end(),
        }
    }

    // Whether a global of the number may follow.
    fn may_list(&self, number: u32) -> bool
        requires { IsKept self.now }
        ensures { (name : List ℕ) → IsTrue result ↔ Allows (parts_of self.now) (Listed number name) }
    {
        self.unfinished.is_none()
            && self.entries.items().is_empty()
            && self.listed.may_follow(number)
    }

    // Adds a global's line.
    fn add_global(&mut self, number: u32, name: Bytes) -> Result<(), TextFault>
        requires { IsKept self.old }
        ensures { Follows self.old (Listed number name) result self.new }
    {
        if !self.may_list(number) {
            return Err(TextFault::BadText(0));
        }
        match self.listed.add(number, name) {
            Ok(()) => Ok(()),
            Err(_) => Err(TextFault::Memory),
        }
    }

    // Whether an entry of the number may begin.
    fn may_begin(&self, number: u32) -> bool
        requires { IsKept self.now }
        ensures { (place : Place2) (name : List ℕ) → IsTrue result ↔ Allows (parts_of self.now) (Heading number place name) }
    {
        self.unfinished.is_none() && self.least <= u64::from(number)
    }

    // Adds the first line of an entry.
    fn add_heading(&mut self, number: u32, place: Place2, name: Bytes) -> Result<(), TextFault>
        requires { IsKept self.old }
        ensures { Follows self.old (Heading number place name) result self.new }
    {
        if !self.may_begin(number) {
            return Err(TextFault::BadText(0));
        }
        let lines = Lines::new(self.entries.allocator());
        self.unfinished = Some(Entry {
            number,
            place,
            name,
            lines,
        });
        self.least = u64::from(number) + 1;
        Ok(())
    }

    // Whether a line of an entry may follow.
    fn may_state(&self, line: &Line) -> bool
        requires { IsKept self.now }
        ensures { IsTrue result ↔ Allows (parts_of self.now) (Stated line.now) }
    {
        self.unfinished.is_some() && lists_line(&self.listed, line)
    }

    // Adds a line of an entry.
    fn add_line(&mut self, line: Line) -> Result<(), TextFault>
        requires { IsKept self.old }
        ensures { Follows self.old (Stated line) result self.new }
    {
        if !self.may_state(&line) {
            return Err(TextFault::BadText(0));
        }
        match self.keep_line(line) {
            Ok(()) => Ok(()),
            Err(_) => Err(TextFault::Memory),
        }
    }

    // Adds a line to the entry, and its globals to those that are named.
    fn keep_line(&mut self, line: Line) -> Result<(), Memory>
        requires kept { IsKept self.old }
        requires begun { IsUnfinished self.old.unfinished }
        ensures after { OnOk result (parts_of self.new ≡ with_row (parts_of self.old) (Stated line)) }
        ensures kept { OnOk result (IsKept self.new) }
    {
        note_line(&mut self.named, &line)?;
        push_line(&mut self.unfinished, line)?;
        Ok(())
    }

    // Whether an entry's end may follow.
    fn may_end(&self) -> bool
        requires { IsKept self.now }
        ensures { IsTrue result ↔ Allows (parts_of self.now) End }
    {
        self.unfinished.is_some() && (self.least <= u64::from(u32::MAX) || self.names_all())
    }

    // Adds the end of an entry.
    fn add_end(&mut self) -> Result<(), TextFault>
        requires { IsKept self.old }
        ensures { Follows self.old End result self.new }
    {
        if !self.may_end() {
            return Err(TextFault::BadText(0));
        }
        match self.keep_end() {
            Ok(()) => Ok(()),
            Err(_) => Err(TextFault::Memory),
        }
    }

    // Adds the entry, if there is one, to those with their ends.
    fn keep_end(&mut self) -> Result<(), Memory>
        requires { IsKept self.old }
        ensures after { OnOk result (parts_of self.new ≡ with_row (parts_of self.old) End) }
        ensures kept { OnOk result (IsKept self.new) }
    {
        if let Some(entry) = self.unfinished.take() {
            self.entries.push(entry)?;
        }
        Ok(())
    }

    // Whether the lines name each global.
    fn names_all(&self) -> bool
        requires { IsKept self.now }
        ensures { IsTrue result ↔ AllNamed (parts_of self.now) }
    {
        self.listed.are_among(&self.named)
    }

    // Whether what was read is a whole report.
    pub fn is_whole(&self) -> bool
        requires { IsKept self.now }
        ensures { IsTrue result ↔ IsWhole (parts_of self.now) }
    {
        self.unfinished.is_none() && self.names_all()
    }

    // The globals and the entries.
    pub fn into_report(self) -> Report
        ensures { result ≡ report_of (parts_of self) }
    {
        Report {
            globals: self.listed.into_globals(),
            entries: self.entries,
        }
    }
}
