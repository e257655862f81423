// Lines by the bytes of their texts.
ghost use Rattle.std.specs.Prelude.{◌≡◌, [], ◌++◌, map, option_map, slice_get, slice_index_or, All, IfOk, OnOk};
ghost use Rattle.std.specs.List.Sorted.{IsPermutation};
ghost use Rattle.rt_lattice.specs.Standard.{standard_names};
ghost use Rattle.rt_texts.specs.Texts.{constant_text, dtv_text, line_text};
ghost use Rattle.rt_settle.specs.Chosen.{AreInOrder};
ghost use Rattle.rt_settle.specs.Sorted.{padded, sort_names};

use rt_base::{Memory, Sequence};
use rt_lines::{Dtv, Line, Lines};
use rt_texts::{print_number, print_variable};
use std::alloc::Global;

// A line with its text.
#[derive(Drop)]
struct Written {
    text: Vec<u8>,
    line: Line,
}

// Adds a number with zeros in front to at least three digits.
fn push_padded(number: u16, out: &mut Vec<u8>) -> Result<(), Memory>
    ensures { OnOk result (out.new.items ≡ out.old.items ++ padded number) }
{
    let mut digits = Vec::new(*out.allocator());
    print_number(u32::from(number), &mut digits)?;
    for _ in digits.len()..3 {
        out.push(b'0')?;
    }
    out.extend_from_slice(&digits)
}

// The name of a constant in the standard lattice, if it has one there.
fn standard_name(constant: u16) -> Option<&'static str>
    ensures { option_map (λ name. name.now) result ≡ slice_get standard_names constant }
{
    let name = match constant {
        0 => "any",
        1 => "num32",
        2 => "int32",
        3 => "int16",
        4 => "int8",
        5 => "uint32",
        6 => "uint16",
        7 => "uint8",
        8 => "bool",
        9 => "code",
        10 => "str",
        11 => "none",
        _ => return None,
    };
    Some(name)
}

// Adds the name by which a constant is sorted.
fn push_name(constant: u16, out: &mut Vec<u8>) -> Result<(), Memory>
    ensures { OnOk result (out.new.items ≡ out.old.items ++ slice_index_or sort_names constant []) }
{
    match standard_name(constant) {
        Some(name) => out.extend_from_slice(name.as_bytes()),
        None => push_padded(constant, out),
    }
}

// Adds the text of a constant.
fn push_constant(constant: u16, out: &mut Vec<u8>) -> Result<(), Memory>
    ensures { OnOk result (out.new.items ≡ out.old.items ++ constant_text sort_names constant) }
{
    out.push(b'#')?;
    push_name(constant, out)
}

// Adds the texts of two variables with a separator between them.
fn push_pair(left: &Dtv, separator: &[u8], right: &Dtv, out: &mut Vec<u8>) -> Result<(), Memory>
    ensures { OnOk result (out.new.items ≡ out.old.items ++ (dtv_text left.now ++ separator.now ++ dtv_text right.now)) }
{
    print_variable(left, out)?;
    out.extend_from_slice(separator)?;
    print_variable(right, out)
}

// Adds the text by which a line is sorted.
fn push_text(line: &Line, out: &mut Vec<u8>) -> Result<(), Memory>
    ensures { OnOk result (out.new.items ≡ out.old.items ++ line_text sort_names line.now) }
{
    match line {
        Line::Var(x) => {
            out.extend_from_slice(b"var ")?;
            print_variable(x, out)
        }
        Line::Same(x, y) => {
            out.extend_from_slice(b"same ")?;
            push_pair(x, b" ", y, out)
        }
        Line::Sub(x, y) => push_pair(x, b" <= ", y, out),
        Line::Low(k, x) => {
            push_constant(*k, out)?;
            out.extend_from_slice(b" <= ")?;
            print_variable(x, out)
        }
        Line::Up(x, k) => {
            print_variable(x, out)?;
            out.extend_from_slice(b" <= ")?;
            push_constant(*k, out)
        }
    }
}

// The lines with their texts.
fn with_texts(alloc: Global, lines: Lines) -> Result<Vec<Written>, Memory>
    ensures lines { IfOk result (λ written. map (λ w. w.line) written.items ≡ lines) }
    ensures texts { IfOk result (λ written. All (λ w. w.text.items ≡ line_text sort_names w.line) written.items) }
{
    let mut written = Vec::with_capacity(alloc, lines.len())?;
    for line in lines.into_vec() {
        let mut text = Vec::new(alloc);
        push_text(&line, &mut text)?;
        written.push(Written { text, line })?;
    }
    Ok(written)
}

/// The lines by the bytes of their texts, in which constants have the names of the standard lattice, and those that have
/// none there their numbers. The error is out of memory.
pub fn sort_lines(alloc: Global, lines: Lines) -> Result<Lines, Memory>
    ensures same { IfOk result (IsPermutation lines) }
    ensures in_order { IfOk result (AreInOrder lines) }
{
    let mut written = with_texts(alloc, lines)?;
    written.sort_by(|a, b| a.text.cmp(&b.text))?;
    let sorted: Vec<Line> = written.into_iter().map(|w| w.line).collect(alloc)?;
    Ok(Sequence::from_vec(sorted))
}
