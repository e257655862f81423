// Reading of the parts of lines: what is read is right where the text begins with such a part.
ghost use Rattle.std.specs.Prelude.{◌≡◌, ◌≢◌, ◌∷◌, ◌++◌, List, ℕ, MatchOption, MatchResult, codes, decimal};
ghost use Rattle.rt_texts.specs.declared.fault.TextFault.TheVariants.{Memory};
ghost use Rattle.rt_texts.specs.Goods.{IsNumber};
ghost use Rattle.rt_texts.specs.Readings.{HasNo, IsCut};
ghost use Rattle.rt_cdecl.specs.declared.declarations.CType.{CType};
ghost use Rattle.rt_cdecl.specs.declared.declarations.CType.TheVariants.{Unused, Scalar, Pointer};
ghost use Rattle.rt_cdecl.specs.Types.{IsType, IsWidth};
ghost use Rattle.rt_cdecl.specs.Rows.{scalar_text, type_text};
ghost use Rattle.rt_cdecl.specs.Inside.Guesses.{AreDigits, AreFirstDigits, Gives, StopsDigits};

use crate::declarations::CType;
use rt_base::Bytes;
use rt_texts::{TextFault, after_front, read_number, split_before};
use std::alloc::Global;

// The first line of a text, without its line end, and what follows. None where the text has no line end.
pub fn first_line(text: &[u8]) -> Option<(&[u8], &[u8])>
    ensures { MatchOption result (HasNo 10 text.now) (λ p. IsCut 10 text.now p.0.now (10 ∷ p.1.now)) }
{
    let (line, back) = split_before(text, b'\n');
    match back {
        [] => None,
        [_, more @ ..] => Some((line, more)),
    }
}

// The digits that a text begins with, and what follows them.
fn split_digits(text: &[u8]) -> (&[u8], &[u8])
    ensures { AreFirstDigits text.now result.0.now result.1.now }
{
    for (k, here) in text.iter().enumerate() {
        if *here < 48 || *here > 57 {
            return (&text[..k], &text[k..]);
        }
    }
    (text, b"")
}

// The number that a text begins with, and what follows it.
pub fn take_number(text: &[u8]) -> Option<(u32, &[u8])>
    ensures { (n : ℕ) (rest : List ℕ) → IsNumber n → StopsDigits rest → decimal n ++ rest ≡ text.now →
        MatchOption result ⊥ (λ p. (p.0 ≡ n) × (p.1.now ≡ rest)) }
{
    let (digits, rest) = split_digits(text);
    match read_number(digits) {
        Some(n) => Some((n, rest)),
        None => None,
    }
}

// What follows the digits that a text begins with.
pub fn after_digits(text: &[u8]) -> &[u8]
    ensures { (digits rest : List ℕ) → AreDigits digits → StopsDigits rest → digits ++ rest ≡ text.now → result.now ≡ rest }
{
    let (_, rest) = split_digits(text);
    rest
}

// What stands before the back of a text; none where the text does not end with the back.
pub fn before_back<'a>(text: &'a [u8], back: &[u8]) -> Option<&'a [u8]>
    ensures { MatchOption result ((front : List ℕ) → text.now ≢ front ++ back.now) (λ front. text.now ≡ front.now ++ back.now) }
{
    text.strip_suffix(back)
}

// The name and the width of a scalar, of what stands after `rt_`.
fn scalar_parts(text: &[u8]) -> Option<(&[u8], u8)>
    ensures { (name : List ℕ) (bits : ℕ) → IsWidth bits → name ++ 95 ∷ decimal bits ≡ text.now →
        MatchOption result ⊥ (λ p. (p.0.now ≡ name) × (p.1 ≡ bits)) }
{
    if let Some(name) = before_back(text, b"_8") {
        return Some((name, 8));
    }
    if let Some(name) = before_back(text, b"_16") {
        return Some((name, 16));
    }
    if let Some(name) = before_back(text, b"_32") {
        return Some((name, 32));
    }
    None
}

// The scalar of what stands after `rt_`.
pub fn read_scalar(alloc: Global, text: &[u8]) -> Result<CType, TextFault>
    ensures { (name : List ℕ) (bits : ℕ) → IsWidth bits → name ++ 95 ∷ decimal bits ≡ text.now →
        Gives (Scalar name bits) result }
{
    let Some((name, bits)) = scalar_parts(text) else {
        return Err(TextFault::BadText(0));
    };
    match name.to_vec(alloc) {
        Ok(name) => Ok(CType::Scalar(Bytes::from_vec(name), bits)),
        Err(_) => Err(TextFault::Memory),
    }
}

// The pointer of what stands after `struct s`, and what follows it.
fn take_pointer(text: &[u8]) -> Result<(CType, &[u8]), TextFault>
    ensures { (n : ℕ) (rest : List ℕ) → IsNumber n → decimal n ++ (codes " *" ++ rest) ≡ text.now →
        MatchResult result (λ p. (p.0 ≡ Pointer n) × (p.1.now ≡ rest)) (λ e. e ≡ Memory) }
{
    let Some((n, back)) = take_number(text) else {
        return Err(TextFault::BadText(0));
    };
    match after_front(back, b" *") {
        Some(rest) => Ok((CType::Pointer(n), rest)),
        None => Err(TextFault::BadText(0)),
    }
}

// The scalar that a text begins with, up to a space, and what follows the space.
fn take_scalar(alloc: Global, text: &[u8]) -> Result<(CType, &[u8]), TextFault>
    ensures { (name : List ℕ) (bits : ℕ) (rest : List ℕ) → IsType (Scalar name bits) →
        scalar_text name bits ++ 32 ∷ rest ≡ text.now →
        MatchResult result (λ p. (p.0 ≡ Scalar name bits) × (p.1.now ≡ rest)) (λ e. e ≡ Memory) }
{
    let (front, back) = split_before(text, b' ');
    let [_, rest @ ..] = back else {
        return Err(TextFault::BadText(0));
    };
    let Some(named) = after_front(front, b"rt_") else {
        return Err(TextFault::BadText(0));
    };
    match read_scalar(alloc, named) {
        Ok(kind) => Ok((kind, rest)),
        Err(fault) => Err(fault),
    }
}

// The type that a text begins with, and what follows it.
pub fn take_type(alloc: Global, text: &[u8]) -> Result<(CType, &[u8]), TextFault>
    ensures { (t : CType) (rest : List ℕ) → IsType t → type_text t ++ rest ≡ text.now →
        MatchResult result (λ p. (p.0 ≡ t) × (p.1.now ≡ rest)) (λ e. e ≡ Memory) }
{
    if let Some(rest) = after_front(text, b"struct s") {
        return take_pointer(rest);
    }
    if let Some(rest) = after_front(text, b"rt_unused ") {
        return Ok((CType::Unused, rest));
    }
    take_scalar(alloc, text)
}
