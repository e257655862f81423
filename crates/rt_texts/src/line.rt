// Readers of lines and judgements.
ghost use Rattle.std.specs.Prelude.{◌<◌, ◌++◌, codes, length};
ghost use Rattle.rt_texts.specs.Goods.{IsLine, IsJudge};
ghost use Rattle.rt_texts.specs.Readings.{Reads, ReadsOrFails};
ghost use Rattle.rt_texts.specs.Inside.Sides.{IsPair, IsBound, IsRelation, pair_texts, bound_texts, side_texts};
ghost use Rattle.rt_texts.specs.Texts.{dtv_text, constant_text, line_text, judge_text};

use crate::cut::{after_front, split_before};
use crate::fault::TextFault;
use crate::variable::read_variable;
use rt_lines::{Dtv, Judge, Line, Names};
use std::alloc::Global;

// Two variables.
#[derive(Drop)]
struct Pair {
    left: Dtv,
    right: Dtv,
}

// A constant and a variable.
#[derive(Drop)]
struct Bound {
    constant: u16,
    variable: Dtv,
}

// Reads two variables.
fn read_pair(alloc: Global, left: &[u8], right: &[u8]) -> Result<Pair, TextFault>
    ensures { ReadsOrFails IsPair pair_texts (left.now, right.now) result }
{
    let left = match read_variable(alloc, left) {
        Ok(left) => left,
        Err(fault) => return Err(fault),
    };
    match read_variable(alloc, right) {
        Ok(right) => Ok(Pair { left, right }),
        Err(fault) => Err(fault),
    }
}

// Reads a constant.
fn read_constant(text: &[u8], names: &Names) -> Option<u16>
    ensures { Reads (λ k. k < length names.now) (constant_text names.now) text.now result }
{
    match after_front(text, b"#") {
        None => None,
        Some(name) => names.find(name),
    }
}

// Reads a constant and a variable.
fn read_bound(
    alloc: Global,
    constant: &[u8],
    variable: &[u8],
    names: &Names,
) -> Result<Bound, TextFault>
    ensures { ReadsOrFails (IsBound (length names.now)) (bound_texts names.now) (constant.now, variable.now) result }
{
    let Some(constant) = read_constant(constant, names) else {
        return Err(TextFault::BadText(0));
    };
    match read_variable(alloc, variable) {
        Ok(variable) => Ok(Bound { constant, variable }),
        Err(fault) => Err(fault),
    }
}

// Reads a line of two sides with `<=` between them.
fn read_relation(alloc: Global, left: &[u8], right: &[u8], names: &Names) -> Result<Line, TextFault>
    ensures { ReadsOrFails (IsRelation (length names.now)) (side_texts names.now) (left.now, right.now) result }
{
    if let Some(_) = after_front(left, b"#") {
        return match read_bound(alloc, left, right, names) {
            Ok(bound) => Ok(Line::Low(bound.constant, bound.variable)),
            Err(fault) => Err(fault),
        };
    }
    if let Some(_) = after_front(right, b"#") {
        return match read_bound(alloc, right, left, names) {
            Ok(bound) => Ok(Line::Up(bound.variable, bound.constant)),
            Err(fault) => Err(fault),
        };
    }
    match read_pair(alloc, left, right) {
        Ok(pair) => Ok(Line::Sub(pair.left, pair.right)),
        Err(fault) => Err(fault),
    }
}

// Reads two variables with a space between them.
fn read_spaced(alloc: Global, text: &[u8]) -> Result<Pair, TextFault>
    ensures { ReadsOrFails IsPair (λ p. dtv_text p.left ++ codes " " ++ dtv_text p.right) text.now result }
{
    let (left, back) = split_before(text, b' ');
    let Some(right) = after_front(back, b" ") else {
        return Err(TextFault::BadText(0));
    };
    match read_pair(alloc, left, right) {
        Ok(pair) => Ok(pair),
        Err(fault) => Err(fault),
    }
}

/// The line that has the text, which has no line end. Where no line has it, the fault is `BadText(0)`: a
/// line has labels in range, numbers below 2^32 and constants with names.
pub fn read_line(alloc: Global, text: &[u8], names: &Names) -> Result<Line, TextFault>
    ensures { ReadsOrFails (IsLine (length names.now)) (line_text names.now) text.now result }
{
    if let Some(rest) = after_front(text, b"var ") {
        return match read_variable(alloc, rest) {
            Ok(x) => Ok(Line::Var(x)),
            Err(fault) => Err(fault),
        };
    }
    if let Some(rest) = after_front(text, b"same ") {
        return match read_spaced(alloc, rest) {
            Ok(pair) => Ok(Line::Same(pair.left, pair.right)),
            Err(fault) => Err(fault),
        };
    }
    let _names = names.items();
    let (left, back) = split_before(text, b' ');
    let Some(right) = after_front(back, b" <= ") else {
        return Err(TextFault::BadText(0));
    };
    match read_relation(alloc, left, right, names) {
        Ok(line) => Ok(line),
        Err(fault) => Err(fault),
    }
}

/// The judgement that has the text: that of a line, but for `same`. Where no judgement has it, the fault is
/// `BadText(0)`.
pub fn read_judge(alloc: Global, text: &[u8], names: &Names) -> Result<Judge, TextFault>
    ensures { ReadsOrFails (IsJudge (length names.now)) (judge_text names.now) text.now result }
{
    match read_line(alloc, text, names) {
        Ok(Line::Var(x)) => Ok(Judge::Var(x)),
        Ok(Line::Sub(x, y)) => Ok(Judge::Sub(x, y)),
        Ok(Line::Low(k, x)) => Ok(Judge::Low(k, x)),
        Ok(Line::Up(x, k)) => Ok(Judge::Up(x, k)),
        Ok(Line::Same(_, _)) => Err(TextFault::BadText(0)),
        Err(fault) => Err(fault),
    }
}
