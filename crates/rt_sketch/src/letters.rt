// The letters of lines.
ghost use Rattle.std.specs.Prelude.{◌++◌, All, IfOk, OnOk};
ghost use Rattle.rt_lines.specs.Words.{IsLabel};
ghost use Rattle.rt_sketch.specs.Inside.Letters.{AddsLetters, HasNext, line_letters, words_of};

use indexmap::IndexSet;
use rt_base::Memory;
use rt_lines::{Dtv, Label, Line};
use std::alloc::Global;

// The letters of the lines' variables, each once: whatever the lines derive goes on by one of these.
pub(crate) fn letters_of(alloc: Global, lines: &[Line]) -> Result<IndexSet<Label>, Memory>
    ensures next { IfOk result (λ letters. HasNext lines.now letters.keys) }
    ensures good { IfOk result (λ letters. All IsLabel letters.keys) }
{
    let mut letters = IndexSet::new(alloc);
    enter_lines(&mut letters, lines)?;
    Ok(letters)
}

// Adds the letters of lines.
fn enter_lines(letters: &mut IndexSet<Label>, lines: &[Line]) -> Result<(), Memory>
    ensures { OnOk result (AddsLetters (words_of lines.now) letters.old.keys letters.new.keys) }
{
    for line in lines {
        enter_line(letters, line)?;
    }
    Ok(())
}

// Adds the letters of a line.
fn enter_line(letters: &mut IndexSet<Label>, line: &Line) -> Result<(), Memory>
    ensures { OnOk result (AddsLetters (line_letters line.now) letters.old.keys letters.new.keys) }
{
    match line {
        Line::Var(x) | Line::Low(_, x) | Line::Up(x, _) => {
            enter_word(letters, x)?;
            Ok(())
        }
        Line::Same(x, y) | Line::Sub(x, y) => {
            enter_words(letters, x, y)?;
            Ok(())
        }
    }
}

// Adds the letters of two variables.
fn enter_words(letters: &mut IndexSet<Label>, x: &Dtv, y: &Dtv) -> Result<(), Memory>
    ensures { OnOk result (AddsLetters (x.now.word ++ y.now.word) letters.old.keys letters.new.keys) }
{
    enter_word(letters, x)?;
    enter_word(letters, y)?;
    Ok(())
}

// Adds the letters of a variable.
fn enter_word(letters: &mut IndexSet<Label>, x: &Dtv) -> Result<(), Memory>
    ensures { OnOk result (AddsLetters x.now.word letters.old.keys letters.new.keys) }
{
    for label in x.word.items() {
        letters.insert(*label)?;
    }
    Ok(())
}
