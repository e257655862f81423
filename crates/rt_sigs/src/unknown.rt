// Lines that are none for their constant alone.
ghost use Rattle.std.specs.Prelude.{◌≡◌, ◌↔◌, ◌&&◌, List, ℕ, [], ◌∷◌, IfOk, IsTrue, MatchOption};
ghost use Rattle.rt_lines.specs.declared.line.Line.{Line as SomeLine};
ghost use Rattle.rt_sigs.specs.Signatures.{is_signature_line};
ghost use Rattle.rt_sigs.specs.Faults.{IsLineWith, IsUnknown, has_constant};

use crate::line::{after_front, is_signature_line};
use rt_base::Memory;
use rt_lines::{Line, Names, is_name};
use rt_texts::{TextFault, read_line, split_before};
use std::alloc::{AllocError, Global};

// The name of a line's constant.
fn constant_name(text: &[u8]) -> Option<&[u8]>
    ensures { MatchOption result ((name : List ℕ) (line : SomeLine) → IsLineWith name text.now line → ⊥)
        (λ found. (name : List ℕ) (line : SomeLine) → IsLineWith name text.now line → name ≡ found.now) }
{
    let (left, back) = split_before(text, b' ');
    if let Some(name) = after_front(left, b"#") {
        return Some(name);
    }
    after_front(back, b" <= #")
}

fn has_constant(line: &Line) -> bool
    ensures { result ≡ has_constant line.now }
{
    matches!(line, Line::Low(_, _) | Line::Up(_, _))
}

// Whether the line has a constant, and may stand in a signature.
fn is_constant_line(line: &Line) -> bool
    ensures { result ≡ (has_constant line.now && is_signature_line line.now) }
{
    has_constant(line) && is_signature_line(line)
}

// Whether the text would be that of a line of a signature if its constant's name were known.
pub fn is_unknown(alloc: Global, text: &[u8], names: &Names) -> Result<bool, Memory>
    ensures { IfOk result (λ r. IsTrue r ↔ IsUnknown names.now text.now) }
{
    let Some(name) = constant_name(text) else {
        return Ok(false);
    };
    if !is_name(name) {
        return Ok(false);
    }
    if let Some(_) = names.find(name) {
        return Ok(false);
    }
    let mut one = Names::new(alloc);
    one.push(name)?;
    match read_line(alloc, text, &one) {
        Ok(line) => Ok(is_constant_line(&line)),
        Err(TextFault::BadText(_)) => Ok(false),
        Err(TextFault::Memory) => Err(AllocError),
    }
}
