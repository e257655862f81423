// Printing of labels, variables and lines.
ghost use Rattle.std.specs.Prelude.{◌≡◌, ◌++◌, OnOk, OnErr, All, length, decimal};
ghost use Rattle.std.specs.Prelude.{◌<◌};
ghost use Rattle.rt_lines.specs.Lines.{HasConstantsBelow};
ghost use Rattle.rt_texts.specs.Texts.{label_text, base_text, word_text, dtv_text, constant_text, line_text, lines_text};

use itoa::Buffer;
use rt_base::Memory;
use rt_lines::{Base, Dtv, Label, Line, Loc, Names, Word};
use std::alloc::Global;

/// Adds a number in decimal at the end. When out of memory, the bytes are as they were.
pub fn print_number(n: u32, out: &mut Vec<u8>) -> Result<(), Memory>
    ensures ok { OnOk result (out.new.items ≡ out.old.items ++ decimal n) }
    ensures err { OnErr result (out.new.items ≡ out.old.items) }
{
    let mut buffer = Buffer::new();
    out.extend_from_slice(buffer.format(n).as_bytes())
}

/// Adds a fixed text and a number in decimal at the end. The error is out of memory.
pub fn print_numbered(front: &[u8], n: u32, out: &mut Vec<u8>) -> Result<(), Memory>
    ensures { OnOk result (out.new.items ≡ out.old.items ++ (front.now ++ decimal n)) }
{
    out.extend_from_slice(front)?;
    print_number(n, out)
}

// Adds a field's text.
fn push_field(width: u8, offset: i32, out: &mut Vec<u8>) -> Result<(), Memory>
    ensures { OnOk result (out.new.items ≡ out.old.items ++ label_text (Label.Field width offset)) }
{
    print_numbered(b"s", u32::from(width), out)?;
    out.extend_from_slice(b"@")?;
    let mut buffer = Buffer::new();
    out.extend_from_slice(buffer.format(offset).as_bytes())
}

/// Adds a label's text at the end. The error is out of memory.
pub fn print_label(label: Label, out: &mut Vec<u8>) -> Result<(), Memory>
    ensures { OnOk result (out.new.items ≡ out.old.items ++ label_text label) }
{
    match label {
        Label::In(Loc::Arg(n)) => print_numbered(b"in_a", u32::from(n), out),
        Label::In(Loc::Stack(k)) => print_numbered(b"in_stack", k, out),
        Label::Out(n) => print_numbered(b"out_a", u32::from(n), out),
        Label::Load => out.extend_from_slice(b"load"),
        Label::Store => out.extend_from_slice(b"store"),
        Label::Field(width, offset) => push_field(width, offset, out),
    }
}

// Adds a base's text.
fn push_base(base: Base, out: &mut Vec<u8>) -> Result<(), Memory>
    ensures { OnOk result (out.new.items ≡ out.old.items ++ base_text base) }
{
    match base {
        Base::Proc(n) => print_numbered(b"f", n, out),
        Base::Global(n) => print_numbered(b"g", n, out),
        Base::Exist(n) => print_numbered(b"t", n, out),
        Base::Outer(n) => print_numbered(b"x", n, out),
    }
}

// Adds a word's text.
fn push_word(word: &Word, out: &mut Vec<u8>) -> Result<(), Memory>
    ensures { OnOk result (out.new.items ≡ out.old.items ++ word_text word.now) }
{
    for label in word.items() {
        out.push(b'.')?;
        print_label(*label, out)?;
    }
    Ok(())
}

// Adds a variable's text.
fn push_variable(variable: &Dtv, out: &mut Vec<u8>) -> Result<(), Memory>
    ensures { OnOk result (out.new.items ≡ out.old.items ++ dtv_text variable.now) }
{
    push_base(variable.base, out)?;
    push_word(&variable.word, out)
}

// Adds a constant's text.
fn push_constant(constant: u16, names: &Names, out: &mut Vec<u8>) -> Result<(), Memory>
    requires { constant < length names.now }
    ensures { OnOk result (out.new.items ≡ out.old.items ++ constant_text names.now constant) }
{
    out.push(b'#')?;
    let name = &names.items()[usize::from(constant)];
    out.extend_from_slice(name.items())
}

// Adds two variables' texts with a separator between them.
fn push_pair(left: &Dtv, separator: &[u8], right: &Dtv, out: &mut Vec<u8>) -> Result<(), Memory>
    ensures { OnOk result (out.new.items ≡ out.old.items ++ (dtv_text left.now ++ separator.now ++ dtv_text right.now)) }
{
    push_variable(left, out)?;
    out.extend_from_slice(separator)?;
    push_variable(right, out)
}

// Adds a line's text.
fn push_line(line: &Line, names: &Names, out: &mut Vec<u8>) -> Result<(), Memory>
    requires { HasConstantsBelow (length names.now) line.now }
    ensures { OnOk result (out.new.items ≡ out.old.items ++ line_text names.now line.now) }
{
    match line {
        Line::Var(x) => {
            out.extend_from_slice(b"var ")?;
            push_variable(x, out)
        }
        Line::Same(x, y) => {
            out.extend_from_slice(b"same ")?;
            push_pair(x, b" ", y, out)
        }
        Line::Sub(x, y) => push_pair(x, b" <= ", y, out),
        Line::Low(k, x) => {
            push_constant(*k, names, out)?;
            out.extend_from_slice(b" <= ")?;
            push_variable(x, out)
        }
        Line::Up(x, k) => {
            push_variable(x, out)?;
            out.extend_from_slice(b" <= ")?;
            push_constant(*k, names, out)
        }
    }
}

/// Adds the one text of a derived variable at the end: its base, and a dot and a label for each letter.
/// When out of memory, the bytes are as they were.
pub fn print_variable(variable: &Dtv, out: &mut Vec<u8>) -> Result<(), Memory>
    ensures ok { OnOk result (out.new.items ≡ out.old.items ++ dtv_text variable.now) }
    ensures err { OnErr result (out.new.items ≡ out.old.items) }
{
    let mut text = Vec::new(*out.allocator());
    push_variable(variable, &mut text)?;
    out.extend_from_slice(&text)
}

/// Adds the one text of a line at the end, without a line end: a constant stands in it by its name, and
/// every constant of the line has one. When out of memory, the bytes are as they were.
pub fn print_line(line: &Line, names: &Names, out: &mut Vec<u8>) -> Result<(), Memory>
    requires { HasConstantsBelow (length names.now) line.now }
    ensures ok { OnOk result (out.new.items ≡ out.old.items ++ line_text names.now line.now) }
    ensures err { OnErr result (out.new.items ≡ out.old.items) }
{
    let mut text = Vec::new(*out.allocator());
    push_line(line, names, &mut text)?;
    out.extend_from_slice(&text)
}

// Adds the texts of lines, each with a line end.
fn push_lines(lines: &[Line], names: &Names, out: &mut Vec<u8>) -> Result<(), Memory>
    requires { All (HasConstantsBelow (length names.now)) lines.now }
    ensures { OnOk result (out.new.items ≡ out.old.items ++ lines_text names.now lines.now) }
{
    for line in lines {
        push_line(line, names, out)?;
        out.push(b'\n')?;
    }
    Ok(())
}

/// Adds the text of a list of lines at the end: each line's text and a line end (byte 10). Every constant
/// of the lines has a name. When out of memory, the bytes are as they were.
pub fn print_lines(lines: &[Line], names: &Names, out: &mut Vec<u8>) -> Result<(), Memory>
    requires { All (HasConstantsBelow (length names.now)) lines.now }
    ensures ok { OnOk result (out.new.items ≡ out.old.items ++ lines_text names.now lines.now) }
    ensures err { OnErr result (out.new.items ≡ out.old.items) }
{
    let mut text = Vec::new(*out.allocator());
    push_lines(lines, names, &mut text)?;
    out.extend_from_slice(&text)
}
