// Keys, by which variables are compared.
ghost use Rattle.std.specs.Prelude.{◌≡◌, ◌∷◌, ◌++◌, [], map, IfOk, OnOk};
ghost use Rattle.rt_texts.specs.Texts.{label_text};
ghost use Rattle.rt_reduction.specs.Before.{base_key, label_numbers, level, offset_numbers, variable_key};
ghost use Rattle.rt_emit.specs.Keys.{numbers};

use rt_base::Memory;
use rt_lines::{Base, Dtv, Label, Loc, Word};
use rt_texts::print_label;
use std::alloc::Global;

/// What a variable is compared by: its level, its base, and the texts of its letters.
pub type Key = Vec<Vec<u64>>;

// Adds the numbers of bytes.
fn push_bytes(bytes: &[u8], out: &mut Vec<u64>) -> Result<(), Memory>
    ensures { OnOk result (out.new.items ≡ out.old.items ++ bytes.now) }
{
    for byte in bytes {
        out.push(u64::from(*byte))?;
    }
    Ok(())
}

// A number for the offset's sign, and one for how far it is.
fn offset_numbers(offset: i32) -> (u64, u64)
    ensures { result.0 ∷ result.1 ∷ [] ≡ offset_numbers offset }
{
    if offset >= 0 {
        (0, offset as u64)
    } else {
        (1, -(i64::from(offset) + 1) as u64)
    }
}

// What decides between labels of one text.
fn label_numbers(alloc: Global, label: Label) -> Result<Vec<u64>, Memory>
    ensures { IfOk result (λ r. r.items ≡ label_numbers label) }
{
    let numbers = match label {
        Label::In(Loc::Arg(n)) => vec![in alloc; 0, 0, u64::from(n)]?,
        Label::In(Loc::Stack(k)) => vec![in alloc; 0, 1, u64::from(k)]?,
        Label::Out(n) => vec![in alloc; 1, u64::from(n)]?,
        Label::Load => vec![in alloc; 2]?,
        Label::Store => vec![in alloc; 3]?,
        Label::Field(width, offset) => {
            let (sign, size) = offset_numbers(offset);
            vec![in alloc; 4, u64::from(width), sign, size]?
        }
    };
    Ok(numbers)
}

fn base_key(alloc: Global, base: Base) -> Result<Vec<u64>, Memory>
    ensures { IfOk result (λ r. r.items ≡ base_key base) }
{
    let (kind, number) = match base {
        Base::Exist(n) => (0, n),
        Base::Global(n) => (1, n),
        Base::Proc(n) => (2, n),
        Base::Outer(n) => (3, n),
    };
    let numbers = vec![in alloc; kind, u64::from(number)]?;
    Ok(numbers)
}

// How many letters are after the base, where an argument or a result counts as the base.
fn level(x: &Dtv) -> usize
    ensures { result ≡ level x.now.base x.now.word }
{
    let letters = x.word.items().len();
    match x.base {
        Base::Proc(_) => letters.saturating_sub(1),
        Base::Global(_) | Base::Exist(_) | Base::Outer(_) => letters,
    }
}

// Adds the texts of the letters.
fn push_texts(alloc: Global, word: &Word, key: &mut Key) -> Result<(), Memory>
    ensures { OnOk result (numbers key.new ≡ numbers key.old ++ map label_text word.now) }
{
    let mut text = Vec::new(alloc);
    for label in word.items() {
        text.clear();
        print_label(*label, &mut text)?;
        let mut part = Vec::new(alloc);
        push_bytes(&text, &mut part)?;
        key.push(part)?;
    }
    Ok(())
}

// Adds what decides between letters of one text.
fn push_numbers(alloc: Global, word: &Word, key: &mut Key) -> Result<(), Memory>
    ensures { OnOk result (numbers key.new ≡ numbers key.old ++ map label_numbers word.now) }
{
    for label in word.items() {
        key.push(label_numbers(alloc, *label)?)?;
    }
    Ok(())
}

/// The variable's key: of several variables the one with the least key comes first, and stands for the others. The error is
/// out of memory.
pub fn key_of(alloc: Global, x: &Dtv) -> Result<Key, Memory>
    ensures { IfOk result (λ key. numbers key ≡ variable_key x.now) }
{
    let mut key = Vec::new(alloc);
    key.push(vec![in alloc; level(x) as u64]?)?;
    key.push(base_key(alloc, x.base)?)?;
    push_texts(alloc, &x.word, &mut key)?;
    push_numbers(alloc, &x.word, &mut key)?;
    Ok(key)
}
