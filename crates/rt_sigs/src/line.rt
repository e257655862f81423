// Lines of a text.
ghost use Rattle.std.specs.Prelude.{◌≡◌, ◌≢◌, ◌∷◌, ◌++◌, List, ℕ, MatchOption, MatchResult, length};
ghost use Rattle.rt_texts.specs.Readings.{HasNo, IsCut, IsNoText};
ghost use Rattle.rt_texts.specs.Texts.{line_text};
ghost use Rattle.rt_sigs.specs.Signatures.{IsSignatureLine, begins_within, is_line_within, is_no_global};
ghost use Rattle.rt_sigs.specs.Signatures.{is_signature_line, is_taken, is_variable_within, is_within, names_no_global};
ghost use Rattle.rt_sigs.specs.Inside.Readings.{IsLineFault, IsRightLine};

use crate::fault::SigFault;
use crate::unknown::is_unknown;
use rt_lines::{Base, Dtv, Label, Line, Loc, Names, Word};
use rt_scheme::is_scheme_line;
use rt_texts::{TextFault, read_line, split_before};
use std::alloc::Global;

// The first line of a text, without its line end, and what follows. None where the text has no line end.
pub fn first_line(text: &[u8]) -> Option<(&[u8], &[u8])>
    ensures { MatchOption result (HasNo 10 text.now) (λ p. IsCut 10 text.now p.0.now (10 ∷ p.1.now)) }
{
    let (line, back) = split_before(text, b'\n');
    match back {
        [] => None,
        [_, more @ ..] => Some((line, more)),
    }
}

// What follows the prefix of a text.
pub fn after_front<'a>(text: &'a [u8], front: &[u8]) -> Option<&'a [u8]>
    ensures { MatchOption result ((rest : List ℕ) → text.now ≢ front.now ++ rest) (λ rest. text.now ≡ front.now ++ rest.now) }
{
    text.strip_prefix(front)
}

// Reads the line of this number, one of a signature that says so much of the arguments.
pub fn read_signature_line(
    alloc: Global,
    text: &[u8],
    names: &Names,
    args: Option<u8>,
    number: u32,
) -> Result<Line, SigFault>
    ensures { MatchResult result (IsRightLine names.now args text.now) (IsLineFault names.now args text.now number) }
{
    let _names = names.items();
    match read_line(alloc, text, names) {
        Ok(line) => {
            if !is_signature_line(&line) {
                return Err(fault_of(alloc, text, names, args, number));
            }
            if !is_within(args, &line) {
                return Err(SigFault::Args(number));
            }
            Ok(line)
        }
        Err(TextFault::BadText(_)) => Err(fault_of(alloc, text, names, args, number)),
        Err(TextFault::Memory) => Err(SigFault::Memory),
    }
}

// Why a text is that of no line of a signature.
fn fault_of(alloc: Global, text: &[u8], names: &Names, args: Option<u8>, number: u32) -> SigFault
    requires { IsNoText (IsSignatureLine (length names.now)) (line_text names.now) text.now }
    ensures { IsLineFault names.now args text.now number result }
{
    match is_unknown(alloc, text, names) {
        Ok(true) => SigFault::UnknownConst(number),
        Ok(false) => SigFault::BadLine(number),
        Err(_) => SigFault::Memory,
    }
}

fn is_no_global(base: Base) -> bool
    ensures { result ≡ is_no_global base }
{
    !matches!(base, Base::Global(_))
}

fn names_no_global(line: &Line) -> bool
    ensures { result ≡ names_no_global line.now }
{
    match line {
        Line::Var(x) | Line::Low(_, x) | Line::Up(x, _) => is_no_global(x.base),
        Line::Same(x, y) | Line::Sub(x, y) => is_no_global(x.base) && is_no_global(y.base),
    }
}

// Whether the line may stand in a signature.
pub fn is_signature_line(line: &Line) -> bool
    ensures { result ≡ is_signature_line line.now }
{
    is_scheme_line(0, line) && names_no_global(line)
}

// Whether the argument is one of a function that takes so many registers.
fn is_taken(count: u8, loc: Loc) -> bool
    ensures { result ≡ is_taken count loc }
{
    match loc {
        Loc::Arg(k) => k < count,
        Loc::Stack(_) => count == 8,
    }
}

// Whether a word of such a function begins with no other argument.
fn begins_within(count: u8, word: &Word) -> bool
    ensures { result ≡ begins_within count word.now }
{
    match word.items() {
        [Label::In(loc), ..] => is_taken(count, *loc),
        _ => true,
    }
}

fn is_variable_within(count: u8, x: &Dtv) -> bool
    ensures { result ≡ is_variable_within count x.now }
{
    match x.base {
        Base::Proc(_) => begins_within(count, &x.word),
        Base::Global(_) | Base::Exist(_) | Base::Outer(_) => true,
    }
}

fn is_line_within(count: u8, line: &Line) -> bool
    ensures { result ≡ is_line_within count line.now }
{
    match line {
        Line::Var(x) | Line::Low(_, x) | Line::Up(x, _) => is_variable_within(count, x),
        Line::Same(x, y) | Line::Sub(x, y) => {
            is_variable_within(count, x) && is_variable_within(count, y)
        }
    }
}

// Whether the line names no argument of the function but those that it takes, where their count is said.
pub fn is_within(args: Option<u8>, line: &Line) -> bool
    ensures { result ≡ is_within args line.now }
{
    match args {
        Some(count) => is_line_within(count, line),
        None => true,
    }
}
