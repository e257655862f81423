// Reading of lines.
ghost use Rattle.std.specs.Prelude.{◌≡◌, ◌≢◌, ◌≤◌, ◌∷◌, ◌++◌, List, ℕ, IsTrue, ◌↔◌, MatchOption, MatchResult, codes, decimal};
ghost use Rattle.rt_lines.specs.declared.label.Loc.{Loc};
ghost use Rattle.rt_texts.specs.declared.fault.TextFault.TheVariants.{Memory};
ghost use Rattle.rt_texts.specs.Goods.{IsNumber};
ghost use Rattle.rt_texts.specs.Readings.{Reads, ReadsOrFails};
ghost use Rattle.rt_cdecl.specs.declared.declarations.CType.{CType};
ghost use Rattle.rt_cdecl.specs.declared.declarations.CField.{CField};
ghost use Rattle.rt_cdecl.specs.Types.{IsField, IsTypedef, IsWide};
ghost use Rattle.rt_cdecl.specs.Rows.{Typedef, Gap, Member, Half, Stated, args_text, loc_text, returns_text, row_text};
ghost use Rattle.rt_cdecl.specs.Rows.{type_text, typedef_text};
ghost use Rattle.rt_cdecl.specs.GoodDecls.{AreArgs, place_of};
ghost use Rattle.rt_cdecl.specs.Inside.GoodRows.{IsReturned, IsRow, IsStructLine};
ghost use Rattle.rt_cdecl.specs.Inside.Guesses.{Gives, StopsDigits};

use crate::declarations::{CArgs, CField, CType};
use crate::goods::is_row;
use crate::parts::{after_digits, before_back, read_scalar, take_number, take_type};
use crate::printing::push_row;
use crate::row::{Returns, Row};
use rt_lines::Loc;
use rt_texts::{TextFault, after_front, read_number, split_before};
use std::alloc::Global;

// Whether two texts are the same.
fn is_text(text: &[u8], other: &[u8]) -> bool
    ensures { IsTrue result ↔ (text.now ≡ other.now) }
{
    text == other
}

// The line of a type of what stands after `typedef unsigned `.
fn guess_typedef(alloc: Global, text: &[u8]) -> Result<Row, TextFault>
    ensures { (t : CType) → IsTypedef t → typedef_text t ≡ codes "typedef unsigned " ++ text.now → Gives (Typedef t) result }
{
    if is_text(text, b"int rt_unused;") {
        return Ok(Row::Typedef(CType::Unused));
    }
    let (_, back) = split_before(text, b' ');
    let Some(rest) = after_front(back, b" rt_") else {
        return Err(TextFault::BadText(0));
    };
    let Some(named) = before_back(rest, b";") else {
        return Err(TextFault::BadText(0));
    };
    match read_scalar(alloc, named) {
        Ok(kind) => Ok(Row::Typedef(kind)),
        Err(fault) => Err(fault),
    }
}

// The number that stands before a fixed end.
fn number_before(text: &[u8], back: &[u8]) -> Option<u32>
    ensures { Reads IsNumber (λ n. decimal n ++ back.now) text.now result }
{
    match before_back(text, back) {
        Some(digits) => read_number(digits),
        None => None,
    }
}

// The line of a gap of what stands after `  unsigned char p`.
fn guess_gap(text: &[u8]) -> Result<Row, TextFault>
    ensures { (k n : ℕ) → IsNumber k → IsNumber n → decimal k ++ (codes "[" ++ (decimal n ++ codes "];")) ≡ text.now →
        Gives (Gap k n) result }
{
    let Some((from, back)) = take_number(text) else {
        return Err(TextFault::BadText(0));
    };
    let Some(rest) = after_front(back, b"[") else {
        return Err(TextFault::BadText(0));
    };
    match number_before(rest, b"];") {
        Some(count) => Ok(Row::Gap(from, count)),
        None => Err(TextFault::BadText(0)),
    }
}

// The line of a field, or of a result in a pair, of what stands after two spaces.
fn guess_field(alloc: Global, text: &[u8]) -> Result<Row, TextFault>
    ensures member { (field : CField) → IsField field →
        type_text field.kind ++ (codes "m" ++ (decimal field.offset ++ codes ";")) ≡ text.now → Gives (Member field) result }
    ensures half { (r : ℕ) (t : CType) → (r ≤ 1) × IsWide t →
        type_text t ++ (codes "a" ++ (decimal r ++ codes ";")) ≡ text.now → Gives (Half r t) result }
{
    let (kind, rest) = match take_type(alloc, text) {
        Ok(taken) => taken,
        Err(fault) => return Err(fault),
    };
    if let Some(offset) = number_between(rest, b"m", b";") {
        return Ok(Row::Member(CField { offset, kind }));
    }
    match number_between(rest, b"a", b";") {
        Some(r) => Ok(Row::Half(r, kind)),
        None => Err(TextFault::BadText(0)),
    }
}

// The number that stands between two fixed texts.
fn number_between(text: &[u8], front: &[u8], back: &[u8]) -> Option<u32>
    ensures { Reads IsNumber (λ n. front.now ++ (decimal n ++ back.now)) text.now result }
{
    match after_front(text, front) {
        Some(rest) => number_before(rest, back),
        None => None,
    }
}

// A line that names or begins a struct, or begins a pair of results.
fn read_struct_line(text: &[u8]) -> Option<Row>
    ensures { Reads IsStructLine row_text text.now result }
{
    if let Some(n) = number_between(text, b"struct s", b";") {
        return Some(Row::Named(n));
    }
    if let Some(n) = number_between(text, b"struct s", b" {") {
        return Some(Row::Opened(n));
    }
    match number_between(text, b"struct r", b" {") {
        Some(n) => Some(Row::Pair(n)),
        None => None,
    }
}

// What a function gives, which a text begins with, and what follows it.
fn take_returns(alloc: Global, text: &[u8]) -> Result<(Returns, &[u8]), TextFault>
    ensures { (returns : Returns) (n : ℕ) (rest : List ℕ) → IsReturned returns → IsNumber n →
        returns_text n returns ++ rest ≡ text.now →
        MatchResult result (λ p. (p.0 ≡ returns) × (p.1.now ≡ rest)) (λ e. e ≡ Memory) }
{
    if let Some(rest) = after_front(text, b"void ") {
        return Ok((Returns::Nothing, rest));
    }
    if let Some(rest) = after_front(text, b"struct r") {
        return take_both(rest);
    }
    match take_type(alloc, text) {
        Ok((kind, rest)) => Ok((Returns::Value(kind), rest)),
        Err(fault) => Err(fault),
    }
}

// The pair of two results of what stands after `struct r`, and what follows it.
fn take_both(text: &[u8]) -> Result<(Returns, &[u8]), TextFault>
    ensures { (n : ℕ) (rest : List ℕ) → IsNumber n → decimal n ++ (codes " " ++ rest) ≡ text.now →
        MatchResult result (λ p. (p.0 ≡ Returns.Both) × (p.1.now ≡ rest)) (λ e. e ≡ Memory) }
{
    let Some((_, back)) = take_number(text) else {
        return Err(TextFault::BadText(0));
    };
    match after_front(back, b" ") {
        Some(rest) => Ok((Returns::Both, rest)),
        None => Err(TextFault::BadText(0)),
    }
}

// The place of the argument of an index.
fn place(i: u32) -> Loc
    requires { i ≤ 16392 }
    ensures { result ≡ place_of i }
{
    if i < 8 {
        Loc::Arg(i as u8)
    } else {
        Loc::Stack(4 * (i - 8))
    }
}

// What follows the name of an argument, which a text begins with.
fn after_place(text: &[u8]) -> &[u8]
    ensures { (i : ℕ) (rest : List ℕ) → i ≤ 16392 → StopsDigits rest → loc_text (place_of i) ++ rest ≡ text.now →
        result.now ≡ rest }
{
    match text {
        [] => text,
        [_, more @ ..] => after_digits(more),
    }
}

// The arguments of a text that goes on to the end of a line, of which there are some.
fn take_args(alloc: Global, text: &[u8]) -> Result<CArgs, TextFault>
    ensures { (arg : Loc × CType) (args : List (Loc × CType)) → AreArgs (arg ∷ args) →
        args_text (arg ∷ args) ++ codes ");" ≡ text.now →
        Gives (arg ∷ args) result }
{
    let mut args = CArgs::new(alloc);
    let mut rest = text;
    for i in 0..16392 {
        let (kind, more) = match take_type(alloc, rest) {
            Ok(taken) => taken,
            Err(fault) => return Err(fault),
        };
        match args.push((place(i), kind)) {
            Ok(()) => (),
            Err(_) => return Err(TextFault::Memory),
        }
        match after_front(after_place(more), b", ") {
            Some(next) => rest = next,
            None => return Ok(args),
        }
    }
    Err(TextFault::BadText(0))
}

// The arguments of a text that goes on to the end of a line.
fn guess_args(alloc: Global, text: &[u8]) -> Result<CArgs, TextFault>
    ensures { (args : List (Loc × CType)) → AreArgs args → args_text args ++ codes ");" ≡ text.now → Gives args result }
{
    if is_text(text, b"void);") {
        return Ok(CArgs::new(alloc));
    }
    take_args(alloc, text)
}

// The line of a function.
fn guess_stated(alloc: Global, text: &[u8]) -> Result<Row, TextFault>
    ensures { (returns : Returns) (n : ℕ) (args : List (Loc × CType)) → IsRow (Stated returns n args) →
        row_text (Stated returns n args) ≡ text.now → Gives (Stated returns n args) result }
{
    let (returns, rest) = match take_returns(alloc, text) {
        Ok(taken) => taken,
        Err(fault) => return Err(fault),
    };
    let Some(numbered) = after_front(rest, b"f") else {
        return Err(TextFault::BadText(0));
    };
    let Some((n, back)) = take_number(numbered) else {
        return Err(TextFault::BadText(0));
    };
    let Some(listed) = after_front(back, b"(") else {
        return Err(TextFault::BadText(0));
    };
    match guess_args(alloc, listed) {
        Ok(args) => Ok(Row::Stated(returns, n, args)),
        Err(fault) => Err(fault),
    }
}

// The line of a text, if it is that of one.
fn guess_row(alloc: Global, text: &[u8]) -> Result<Row, TextFault>
    ensures { (row : Row) → IsRow row → row_text row ≡ text.now → Gives row result }
{
    if is_text(text, b"};") {
        return Ok(Row::Closed);
    }
    if let Some(rest) = after_front(text, b"typedef unsigned ") {
        return guess_typedef(alloc, rest);
    }
    if let Some(rest) = after_front(text, b"  unsigned char p") {
        return guess_gap(rest);
    }
    if let Some(rest) = after_front(text, b"  ") {
        return guess_field(alloc, rest);
    }
    match read_struct_line(text) {
        Some(row) => Ok(row),
        None => guess_stated(alloc, text),
    }
}

// Whether a line has the text.
fn has_text(alloc: Global, row: &Row, text: &[u8]) -> Result<bool, TextFault>
    ensures { MatchResult result (λ has. IsTrue has ↔ (row_text row.now ≡ text.now)) (λ e. e ≡ Memory) }
{
    let mut printed = Vec::new(alloc);
    match push_row(row, &mut printed) {
        Ok(()) => (),
        Err(_) => return Err(TextFault::Memory),
    }
    match before_back(&printed, b"\n") {
        Some(front) => Ok(is_text(front, text)),
        None => Ok(false),
    }
}

// Reads a line of a header.
pub fn read_row(alloc: Global, text: &[u8]) -> Result<Row, TextFault>
    ensures { ReadsOrFails IsRow row_text text.now result }
{
    let row = match guess_row(alloc, text) {
        Ok(row) => row,
        Err(TextFault::BadText(_)) => return Err(TextFault::BadText(0)),
        Err(TextFault::Memory) => return Err(TextFault::Memory),
    };
    if !is_row(&row) {
        return Err(TextFault::BadText(0));
    }
    match has_text(alloc, &row, text) {
        Ok(true) => Ok(row),
        Ok(false) => Err(TextFault::BadText(0)),
        Err(_) => Err(TextFault::Memory),
    }
}
