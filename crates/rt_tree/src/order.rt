// The order of labels' texts.
ghost use Rattle.std.specs.Prelude.{◌≡◌, ◌↔◌, IsTrue};
ghost use Rattle.std.specs.Fmt.{signed_decimal};
ghost use Rattle.std.specs.Ordering.{nat_cmp};
ghost use Rattle.std.specs.Cmp.Lexicographic.{slice_cmp};
ghost use Rattle.rt_lines.specs.Words.{IsLabel};
ghost use Rattle.rt_tree.specs.Labels.{label_cmp};
ghost use Rattle.rt_tree.specs.Kinds.{rank_of, number_of};

use itoa::Buffer;
use rt_lines::{Label, Loc};
use std::cmp::Ordering;

// Which of the kinds of labels this is, in the order of their texts.
pub(crate) fn rank(label: Label) -> u8
    ensures { result ≡ rank_of label }
{
    match label {
        Label::In(Loc::Arg(_)) => 0,
        Label::In(Loc::Stack(_)) => 1,
        Label::Load => 2,
        Label::Out(_) => 3,
        Label::Field(16, _) => 4,
        Label::Field(32, _) => 5,
        Label::Field(_, _) => 6,
        Label::Store => 7,
    }
}

/// Whether the label is a letter that words are made of.
pub(crate) fn is_label(label: Label) -> bool
    ensures { IsTrue result ↔ IsLabel label }
{
    match label {
        Label::In(Loc::Arg(n)) => n <= 7,
        Label::In(Loc::Stack(k)) => k % 4 == 0 && k <= 65532,
        Label::Out(n) => n <= 1,
        Label::Load | Label::Store => true,
        Label::Field(width, _) => width == 8 || width == 16 || width == 32,
    }
}

// The number in a label's text.
pub(crate) fn number(label: Label) -> i32
    requires { IsLabel label }
    ensures { result ≡ number_of label }
{
    match label {
        Label::In(Loc::Arg(n)) | Label::Out(n) => i32::from(n),
        Label::In(Loc::Stack(k)) => k as i32,
        Label::Load | Label::Store => 0,
        Label::Field(_, k) => k,
    }
}

// How two numbers compare as texts.
fn compare_numbers(a: i32, b: i32) -> Ordering
    ensures { result ≡ slice_cmp nat_cmp (signed_decimal a) (signed_decimal b) }
{
    let mut first = Buffer::new();
    let mut second = Buffer::new();
    first.format(a).as_bytes().cmp(second.format(b).as_bytes())
}

/// How two labels compare: as their texts do, byte by byte. It takes no memory.
pub(crate) fn compare(a: Label, b: Label) -> Ordering
    requires a { IsLabel a }
    requires b { IsLabel b }
    ensures { result ≡ label_cmp a b }
{
    match rank(a).cmp(&rank(b)) {
        Ordering::Equal => compare_numbers(number(a), number(b)),
        other => other,
    }
}
