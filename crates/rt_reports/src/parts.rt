// Reading of the lines of reports.
ghost use Rattle.std.specs.Prelude.{◌≡◌, ◌≢◌, ◌∷◌, ◌++◌, List, ℕ, MatchOption, decimal, length, slice_index};
ghost use Rattle.rt_texts.specs.Goods.{IsNumber};
ghost use Rattle.rt_texts.specs.Readings.{HasNo, IsCut, ReadsOrFails};
ghost use Rattle.rt_reports.specs.GoodReports.{IsGlobal};
ghost use Rattle.rt_reports.specs.Inside.Rows.{IsBegun, IsRow, begun_text, listed_text, row_text};

use crate::row::Row;
use rt_base::Bytes;
use rt_lines::Names;
use rt_scheme::{Place2, read_name};
use rt_texts::{TextFault, after_front, read_line, read_number, split_before};
use std::alloc::Global;

// The first line of a text, without its line end, and what follows. None where the text has no line end.
pub fn first_line(text: &[u8]) -> Option<(&[u8], &[u8])>
    ensures { MatchOption result (HasNo 10 text.now) (λ p. IsCut 10 text.now p.0.now (10 ∷ p.1.now)) }
{
    let (line, back) = split_before(text, b'\n');
    match back {
        [] => None,
        [_, more @ ..] => Some((line, more)),
    }
}

// The number that stands before a word, which begins with a space, and what follows the word.
fn number_before<'a>(text: &'a [u8], word: &[u8]) -> Option<(u32, &'a [u8])>
    requires { slice_index word.now 0 ≡ 32 }
    ensures { MatchOption result ((n : ℕ) (rest : List ℕ) → IsNumber n → decimal n ++ (word.now ++ rest) ≢ text.now)
        (λ p. IsNumber p.0 × (decimal p.0 ++ (word.now ++ p.1.now) ≡ text.now)) }
{
    let (digits, back) = split_before(text, b' ');
    let Some(number) = read_number(digits) else {
        return None;
    };
    match after_front(back, word) {
        None => None,
        Some(rest) => Some((number, rest)),
    }
}

// Reads what stands in a global's line after `global g`.
fn read_listed(alloc: Global, text: &[u8]) -> Result<(u32, Bytes), TextFault>
    ensures { ReadsOrFails IsGlobal listed_text text.now result }
{
    let Some((number, escaped)) = number_before(text, b" name ") else {
        return Err(TextFault::BadText(0));
    };
    match read_name(alloc, escaped) {
        Ok(name) => Ok((number, name)),
        Err(fault) => Err(fault),
    }
}

// Reads what stands in the first line of an entry after `proc f`.
fn read_begun(alloc: Global, text: &[u8]) -> Result<(u32, Place2, Bytes), TextFault>
    ensures { ReadsOrFails IsBegun begun_text text.now result }
{
    let Some((number, text)) = number_before(text, b" section ") else {
        return Err(TextFault::BadText(0));
    };
    let Some((section, text)) = number_before(text, b" offset ") else {
        return Err(TextFault::BadText(0));
    };
    let Some((offset, escaped)) = number_before(text, b" name ") else {
        return Err(TextFault::BadText(0));
    };
    let Ok(section) = u16::try_from(section) else {
        return Err(TextFault::BadText(0));
    };
    match read_name(alloc, escaped) {
        Ok(name) => Ok((number, Place2 { section, offset }, name)),
        Err(fault) => Err(fault),
    }
}

// Reads a line of a report.
pub fn read_row(alloc: Global, text: &[u8], names: &Names) -> Result<Row, TextFault>
    ensures { ReadsOrFails (IsRow (length names.now)) (row_text names.now) text.now result }
{
    if text == b"end".as_slice() {
        return Ok(Row::End);
    }
    if let Some(rest) = after_front(text, b"global g") {
        return match read_listed(alloc, rest) {
            Ok((number, name)) => Ok(Row::Listed(number, name)),
            Err(fault) => Err(fault),
        };
    }
    if let Some(rest) = after_front(text, b"proc f") {
        return match read_begun(alloc, rest) {
            Ok((number, place, name)) => Ok(Row::Heading(number, place, name)),
            Err(fault) => Err(fault),
        };
    }
    match read_line(alloc, text, names) {
        Ok(line) => Ok(Row::Stated(line)),
        Err(fault) => Err(fault),
    }
}
