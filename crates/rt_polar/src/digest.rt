// What is known of words and lines without reading all their letters again.
ghost use Rattle.std.specs.Prelude.{◌≡◌};
ghost use Rattle.rt_polar.specs.Inside.Digests.{base_code, followed, form_code, letter_code, mixed, summary, with_word};

use rt_lines::{Base, Dtv, Label, Line, Loc, Variance, Word, variance_of};

/// What is known of a variable.
#[derive(Clone, Copy, PartialEq, Eq)]
pub struct Summary {
    /// The digest of its base and its word.
    pub digest: u64,
    /// The variance of its word.
    pub variance: Variance,
}

// The number of a letter.
fn letter_code(letter: Label) -> u64
    ensures { result ≡ letter_code letter }
{
    match letter {
        Label::Load => 1,
        Label::Store => 2,
        Label::Out(n) => 3 + n as u64,
        Label::In(Loc::Arg(n)) => 512 + n as u64,
        Label::In(Loc::Stack(k)) => 0x1_0000_0000 + k as u64,
        Label::Field(width, offset) => {
            0x2_0000_0000 + 0x1_0000_0000 * width as u64 + offset.cast_unsigned() as u64
        }
    }
}

// The number of a base.
fn base_code(base: Base) -> u64
    ensures { result ≡ base_code base }
{
    match base {
        Base::Proc(n) => 0x4_0000_0000 + n as u64,
        Base::Global(n) => 0x8_0000_0000 + n as u64,
        Base::Exist(n) => 0x10_0000_0000 + n as u64,
        Base::Outer(n) => 0x20_0000_0000 + n as u64,
    }
}

/// A digest, and a number more.
pub fn mixed(digest: u64, code: u64) -> u64
    ensures { result ≡ mixed digest code }
{
    digest
        .wrapping_mul(0x9E37_79B9_7F4A_7C15)
        .wrapping_add(code)
}

// A digest, and the letters of a word more.
fn with_word(digest: u64, word: &Word) -> u64
    ensures { result ≡ with_word digest word.now }
{
    let mut longer = digest;
    for letter in word.items() {
        longer = mixed(longer, letter_code(*letter));
    }
    longer
}

/// The number of the line's form and of its constant.
pub fn form_code(line: &Line) -> u64
    ensures { result ≡ form_code line.now }
{
    match line {
        Line::Var(_) => 1,
        Line::Same(_, _) => 2,
        Line::Sub(_, _) => 3,
        Line::Low(k, _) => 0x1_0000 + *k as u64,
        Line::Up(_, k) => 0x2_0000 + *k as u64,
    }
}

impl Summary {
    /// What is known of the variable, all of which is read.
    pub fn of(x: &Dtv) -> Summary
        ensures { result ≡ summary x.now }
    {
        Summary {
            digest: with_word(base_code(x.base), &x.word),
            variance: variance_of(&x.word),
        }
    }

    /// What is known of the variable with a word more, of which the word alone is read.
    pub fn followed_by(self, word: &Word) -> Summary
        ensures { result ≡ followed self word.now }
    {
        Summary {
            digest: with_word(self.digest, word),
            variance: self.variance.times(variance_of(word)),
        }
    }
}
