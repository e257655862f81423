// Readers of labels.
ghost use Rattle.std.specs.Prelude.{◌≡◌};
ghost use Rattle.rt_lines.specs.Words.{IsLabel};
ghost use Rattle.rt_texts.specs.Goods.{IsArg, IsStack, IsOut, IsPointer, IsField};
ghost use Rattle.rt_texts.specs.Readings.{Reads};
ghost use Rattle.rt_texts.specs.Texts.{label_text};

use crate::cut::{read_numbered, read_signed_after};
use rt_lines::{Label, Loc};

// Reads the label of an argument in a register.
fn read_arg(text: &[u8]) -> Option<Label>
    ensures { Reads IsArg label_text text.now result }
{
    match read_numbered(text, b"in_a") {
        Some(n) if n <= 7 => Some(Label::In(Loc::Arg(n as u8))),
        _ => None,
    }
}

// Reads the label of an argument on the stack.
fn read_stack(text: &[u8]) -> Option<Label>
    ensures { Reads IsStack label_text text.now result }
{
    match read_numbered(text, b"in_stack") {
        Some(k) if k % 4 == 0 && k <= 65532 => Some(Label::In(Loc::Stack(k))),
        _ => None,
    }
}

// Reads the label of a result.
fn read_out(text: &[u8]) -> Option<Label>
    ensures { Reads IsOut label_text text.now result }
{
    match read_numbered(text, b"out_a") {
        Some(n) if n <= 1 => Some(Label::Out(n as u8)),
        _ => None,
    }
}

// Reads the label of what is read or written through a pointer.
fn read_pointer(text: &[u8]) -> Option<Label>
    ensures { Reads IsPointer label_text text.now result }
{
    match text {
        b"load" => Some(Label::Load),
        b"store" => Some(Label::Store),
        _ => None,
    }
}

// Reads the label of a field.
fn read_field(text: &[u8]) -> Option<Label>
    ensures { Reads IsField label_text text.now result }
{
    if let Some(offset) = read_signed_after(text, b"s8@") {
        return Some(Label::Field(8, offset));
    }
    if let Some(offset) = read_signed_after(text, b"s16@") {
        return Some(Label::Field(16, offset));
    }
    if let Some(offset) = read_signed_after(text, b"s32@") {
        return Some(Label::Field(32, offset));
    }
    None
}

// Reads a label.
pub fn read_label(text: &[u8]) -> Option<Label>
    ensures { Reads IsLabel label_text text.now result }
{
    if let Some(label) = read_arg(text) {
        return Some(label);
    }
    if let Some(label) = read_stack(text) {
        return Some(label);
    }
    if let Some(label) = read_out(text) {
        return Some(label);
    }
    if let Some(label) = read_pointer(text) {
        return Some(label);
    }
    read_field(text)
}
