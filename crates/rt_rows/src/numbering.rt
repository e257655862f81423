// Names to numbers: the lines of rows.
ghost use Rattle.std.specs.Prelude.{◌≡◌, ℕ, List, [], All, IfOk, OnOk, flat_map, fold, get_or, map};
ghost use Rattle.indexmap.specs.IndexSet.{insert_key};
ghost use Rattle.rt_lines.specs.declared.variable.Base.{Base};
ghost use Rattle.rt_lines.specs.Lines.{HasConstantsBelow};
ghost use Rattle.rt_rules.specs.Laws.{NamesBase};
ghost use Rattle.rt_lines.specs.Numbering.{deduplicated};
ghost use Rattle.rt_scheme.specs.Splitting.{AreInterfaceLines};
ghost use Rattle.rt_rows.specs.Terms.{HasConstantBelow, IsBaseOf, IsGroupRow, group_lines, line_of};
ghost use Rattle.rt_rows.specs.Terms.{lines_by, name_eq, names_of, root_base, root_names, row_names, variable_of};

use crate::name::Name;
use crate::row::{Root, Row, Rows, Term};
use indexmap::IndexSet;
use rt_base::{Memory, Sequence};
use rt_lines::{Base, Dtv, Line, Lines, deduplicate};
use std::alloc::{AllocError, Global};

/// The lines of some lists of rows together: existentials are numbered from 0 in the order in which their names first
/// stand in all of the lists, the left side of a row before its right, and each list has each of its lines once, where it
/// first stands. The error is out of memory.
pub fn group_lines(alloc: Global, lists: Vec<Rows>) -> Result<Vec<Lines>, Memory>
    ensures lines { IfOk result (λ numbered. numbered.items ≡ group_lines lists.items) }
    ensures constants { IfOk result (λ numbered. (count : ℕ) → All (All (HasConstantBelow count)) lists.items →
        All (All (HasConstantsBelow count)) numbered.items) }
    ensures interfaces { IfOk result (λ numbered. All (All IsGroupRow) lists.items → All AreInterfaceLines numbered.items) }
    ensures bases { IfOk result (λ numbered. (i : ℕ) (b : Base) → NamesBase (get_or numbered.items i []) b →
        IsBaseOf (get_or lists.items i []) b) }
{
    let names = names_of(alloc, &lists)?;
    lists_by(alloc, &names, lists)
}

// The lines of each list of rows, where existentials have the places of their names as numbers.
fn lists_by(alloc: Global, names: &IndexSet<Name>, lists: Vec<Rows>) -> Result<Vec<Lines>, Memory>
    ensures { IfOk result (λ numbered. numbered.items ≡ map (λ rows. deduplicated (lines_by names.now.keys rows)) lists.items) }
{
    let mut numbered = Vec::with_capacity(alloc, lists.len())?;
    for rows in lists {
        numbered.push(lines_of(alloc, names, rows)?)?;
    }
    Ok(numbered)
}

// The names of all rows, each once, in the order in which they first stand.
fn names_of(alloc: Global, lists: &[Rows]) -> Result<IndexSet<Name>, AllocError>
    ensures { IfOk result (λ names. names.keys ≡ names_of (flat_map (λ rows. rows) lists.now)) }
{
    let mut names = IndexSet::new(alloc);
    for rows in lists {
        note_rows(&mut names, rows.items())?;
    }
    Ok(names)
}

// Adds the names of rows.
fn note_rows(names: &mut IndexSet<Name>, rows: &[Row]) -> Result<(), AllocError>
    ensures { OnOk result (names.new.keys ≡ fold (insert_key name_eq) names.old.keys (flat_map row_names rows.now)) }
{
    for row in rows {
        note_row(names, row)?;
    }
    Ok(())
}

// Adds the names of a row.
fn note_row(names: &mut IndexSet<Name>, row: &Row) -> Result<(), AllocError>
    ensures { OnOk result (names.new.keys ≡ fold (insert_key name_eq) names.old.keys (row_names row.now)) }
{
    match row {
        Row::Var(x) | Row::Low(_, x) | Row::Up(x, _) => note(names, x.root),
        Row::Same(x, y) | Row::Sub(x, y) => {
            note(names, x.root)?;
            note(names, y.root)
        }
    }
}

// Adds the name of a root, if it has one.
fn note(names: &mut IndexSet<Name>, root: Root) -> Result<(), AllocError>
    ensures { OnOk result (names.new.keys ≡ fold (insert_key name_eq) names.old.keys (root_names root)) }
{
    match root {
        Root::Named(name) => {
            names.insert(name)?;
            Ok(())
        }
        Root::Proc(_) | Root::Global(_) | Root::Outer(_) => Ok(()),
    }
}

// The lines of rows, each once, where existentials have the places of their names as numbers.
fn lines_of(alloc: Global, names: &IndexSet<Name>, rows: Rows) -> Result<Lines, Memory>
    ensures { IfOk result (λ lines. lines ≡ deduplicated (lines_by names.now.keys rows)) }
{
    let mut lines = Vec::with_capacity(alloc, rows.len())?;
    for row in rows.into_vec() {
        lines.push(line_of(names, row)?)?;
    }
    deduplicate(alloc, Sequence::from_vec(lines))
}

fn line_of(names: &IndexSet<Name>, row: Row) -> Result<Line, AllocError>
    ensures { IfOk result (λ line. line ≡ line_of names.now.keys row) }
{
    match row {
        Row::Var(x) => Ok(Line::Var(variable_of(names, x)?)),
        Row::Same(x, y) => Ok(Line::Same(variable_of(names, x)?, variable_of(names, y)?)),
        Row::Sub(x, y) => Ok(Line::Sub(variable_of(names, x)?, variable_of(names, y)?)),
        Row::Low(k, x) => Ok(Line::Low(k, variable_of(names, x)?)),
        Row::Up(x, k) => Ok(Line::Up(variable_of(names, x)?, k)),
    }
}

// The variable has the term's word, which is moved.
fn variable_of(names: &IndexSet<Name>, term: Term) -> Result<Dtv, AllocError>
    ensures { IfOk result (λ variable. variable ≡ variable_of names.now.keys term) }
{
    Ok(Dtv {
        base: base_of(names, term.root)?,
        word: term.word,
    })
}

// An existential's number is the place of its name. One that doesn't fit wants more memory than there is.
fn base_of(names: &IndexSet<Name>, root: Root) -> Result<Base, AllocError>
    ensures { IfOk result (λ base. base ≡ root_base names.now.keys root) }
{
    match root {
        Root::Proc(procedure) => Ok(Base::Proc(procedure)),
        Root::Global(symbol) => Ok(Base::Global(symbol)),
        Root::Outer(number) => Ok(Base::Outer(number)),
        Root::Named(name) => {
            let place = names.get_index_of(&name).unwrap_or(names.len());
            match u32::try_from(place) {
                Ok(place) => Ok(Base::Exist(place)),
                Err(_) => Err(AllocError),
            }
        }
    }
}
