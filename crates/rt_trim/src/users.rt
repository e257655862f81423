// Which lines use which variables, with loads in the place of stores.
ghost use Rattle.std.specs.Prelude.{◌≡◌, length, IfOk, OnOk};
ghost use Rattle.rt_lines.specs.Words.{IsLabel};
ghost use Rattle.rt_lines.specs.declared.variable.Dtv.{Dtv as Variable};
ghost use Rattle.rt_trim.specs.Idle.{as_load};
ghost use Rattle.rt_trim.specs.Trimming.{AreEntered, AreUsers, HasLoaded, loaded as with_loads};

use indexmap::IndexMap;
use rt_base::Memory;
use rt_lines::{Dtv, Label, Line, Word};
use std::alloc::Global;

// Indices of lines by variables.
pub(crate) type Users = IndexMap<Dtv, usize>;

// For each variable of a `<=` line or bound, with loads in the place of stores, the index of a line with it.
pub(crate) fn users(alloc: Global, lines: &[Line]) -> Result<Users, Memory>
    ensures { IfOk result (λ users. AreUsers lines.now (length lines.now) users.entries) }
{
    let mut users = IndexMap::new(alloc);
    for i in 0..lines.len() {
        enter_line(alloc, &lines[i], i, &mut users)?;
    }
    Ok(users)
}

// Enters the sides of a `<=` line or bound with an index.
fn enter_line(alloc: Global, line: &Line, i: usize, users: &mut Users) -> Result<(), Memory>
    ensures { OnOk result (AreEntered (HasLoaded line.now) i users.old.entries users.new.entries) }
{
    match line {
        Line::Var(_) | Line::Same(_, _) => Ok(()),
        Line::Sub(x, y) => {
            enter(alloc, x, i, users)?;
            enter(alloc, y, i, users)?;
            Ok(())
        }
        Line::Low(_, x) | Line::Up(x, _) => enter(alloc, x, i, users),
    }
}

// Enters the variable with an index, in the place of an earlier one.
fn enter(alloc: Global, x: &Dtv, i: usize, users: &mut Users) -> Result<(), Memory>
    ensures { OnOk result (AreEntered (λ (z : Variable). with_loads x.now ≡ z) i users.old.entries users.new.entries) }
{
    let loaded = loaded(alloc, x)?;
    users.insert(loaded, i)?;
    Ok(())
}

// The variable with loads in the place of stores.
fn loaded(alloc: Global, x: &Dtv) -> Result<Dtv, Memory>
    ensures { IfOk result (λ y. y ≡ with_loads x.now) }
{
    let mut word = Word::empty(alloc);
    for letter in x.word.items() {
        word.push(letter_as_load(*letter))?;
    }
    Ok(Dtv { base: x.base, word })
}

// The letter, with a load in the place of a store.
pub(crate) fn letter_as_load(letter: Label) -> Label
    requires { IsLabel letter }
    ensures is { result ≡ as_load letter }
    ensures good { IsLabel result }
{
    match letter {
        Label::Store => Label::Load,
        _ => letter,
    }
}
