// What a signature says of its function before its lines.
ghost use Rattle.std.specs.Prelude.{◌≡◌, ◌≢◌, ◌≤◌, ◌+◌, ◌<◌, ◌^◌, ◌++◌, List, ℕ, MatchOption, length};
ghost use Rattle.rt_sigs.specs.Signatures.{most_args};
ghost use Rattle.rt_sigs.specs.SignatureTexts.{count_text};
ghost use Rattle.rt_sigs.specs.Inside.Readings.{AreRemarks, IsCounted};

use crate::line::after_front;
use crate::version::Version;

// Whether a function returns, how many registers it takes where that is said, the text after the lines that say so, and the
// number of the first line of that text.
#[derive(Clone, Copy)]
pub struct Remarks<'a> {
    pub returns: bool,
    pub args: Option<u8>,
    pub rest: &'a [u8],
    pub number: u32,
}

// Reads the line that says how many registers a function takes; gives their number, and the text after the line.
fn read_count(text: &[u8]) -> Option<(u8, &[u8])>
    ensures { MatchOption result ((n : ℕ) (rest : List ℕ) → n ≤ most_args → text.now ≢ count_text n ++ rest)
        (λ p. (p.0 ≤ most_args) × (text.now ≡ count_text p.0 ++ p.1.now)) }
{
    let digits = after_front(text, b"args ")?;
    match digits {
        [digit @ b'0'..=b'8', b'\n', rest @ ..] => Some((digit - b'0', rest)),
        _ => None,
    }
}

// Reads the lines that a signature of a version may have before those of its scheme. The first of them has the number.
pub fn read_remarks(text: &[u8], version: Version, first: u32) -> Remarks<'_>
    requires { first + length text.now < 2 ^ 32 }
    ensures { AreRemarks version text.now first result }
{
    match version {
        Version::First => Remarks {
            returns: true,
            args: None,
            rest: text,
            number: first,
        },
        Version::Second => match after_front(text, b"noreturn\n") {
            Some(rest) => with_count(false, rest, first + 1),
            None => with_count(true, text, first),
        },
    }
}

// Reads the line that says how many registers a function takes, where there is one.
fn with_count(returns: bool, text: &[u8], first: u32) -> Remarks<'_>
    requires { first + length text.now < 2 ^ 32 }
    ensures { IsCounted returns text.now first result }
{
    match read_count(text) {
        Some((count, rest)) => Remarks {
            returns,
            args: Some(count),
            rest,
            number: first + 1,
        },
        None => Remarks {
            returns,
            args: None,
            rest: text,
            number: first,
        },
    }
}
