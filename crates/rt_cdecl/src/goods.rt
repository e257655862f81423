// Which lines a header may have.
ghost use Rattle.std.specs.Prelude.{◌≡◌, ◌↔◌, ◌≤◌, All, IsTrue, List, ℕ, length, map};
ghost use Rattle.rt_lines.specs.declared.label.Loc.{Loc};
ghost use Rattle.rt_cdecl.specs.declared.declarations.CType.{CType};
ghost use Rattle.rt_cdecl.specs.Types.{IsField, IsPresent, IsType, IsTypedef, IsWide, IsWidth};
ghost use Rattle.rt_cdecl.specs.GoodDecls.{AreArgs, ArePlaced, IsArgument, IsLastPresent, arg_types, place_of};
ghost use Rattle.rt_cdecl.specs.Inside.GoodRows.{IsReturned, IsRow};

use crate::declarations::{CField, CType};
use crate::row::{Returns, Row};
use rt_lines::{Loc, is_name};

// Whether scalars have the width.
fn is_width(bits: u8) -> bool
    ensures { IsTrue result ↔ IsWidth bits }
{
    bits == 8 || bits == 16 || bits == 32
}

// Whether a scalar has a name and a width.
fn is_type(kind: &CType) -> bool
    ensures { IsTrue result ↔ IsType kind.now }
{
    match kind {
        CType::Scalar(name, bits) => is_name(name.items()) && is_width(*bits),
        CType::Unused => true,
        CType::Pointer(number) => {
            let _number = *number;
            true
        }
    }
}

// Whether a type is that of something.
pub fn is_present(kind: &CType) -> bool
    ensures { IsTrue result ↔ IsPresent kind.now }
{
    match kind {
        CType::Unused => false,
        CType::Scalar(_, _) | CType::Pointer(_) => true,
    }
}

// Whether a type has a line of its own.
fn is_typedef(kind: &CType) -> bool
    ensures { IsTrue result ↔ IsTypedef kind.now }
{
    match kind {
        CType::Unused => true,
        CType::Scalar(name, bits) => is_name(name.items()) && is_width(*bits),
        CType::Pointer(_) => false,
    }
}

// Whether a type is one of an argument or a result.
fn is_wide(kind: &CType) -> bool
    ensures { IsTrue result ↔ IsWide kind.now }
{
    match kind {
        CType::Scalar(name, bits) => *bits == 32 && is_name(name.items()),
        CType::Unused => true,
        CType::Pointer(number) => {
            let _number = *number;
            true
        }
    }
}

// Whether a field is one.
fn is_field(field: &CField) -> bool
    ensures { IsTrue result ↔ IsField field.now }
{
    is_type(&field.kind) && is_present(&field.kind) && field.offset < 2147483648
}

// Whether the place is that of the argument of this index.
fn is_place(loc: Loc, i: u32) -> bool
    requires { i ≤ 16392 }
    ensures { IsTrue result ↔ (loc ≡ place_of i) }
{
    match loc {
        Loc::Arg(n) => i < 8 && u32::from(n) == i,
        Loc::Stack(k) => i >= 8 && k == 4 * (i - 8),
    }
}

// Whether arguments, of which there are not too many, stand at the first places.
fn are_placed(args: &[(Loc, CType)]) -> bool
    requires { length args.now ≤ 16392 }
    ensures { IsTrue result ↔ ArePlaced 0 args.now }
{
    for (i, (loc, _)) in args.iter().enumerate() {
        if !is_place(*loc, i as u32) {
            return false;
        }
    }
    true
}

// Whether arguments have types of arguments.
fn are_wide(args: &[(Loc, CType)]) -> bool
    ensures { IsTrue result ↔ All IsArgument args.now }
{
    args.iter().all(|(_, kind)| is_wide(kind))
}

// Whether the last argument, if there is any, is used.
fn is_last_present(args: &[(Loc, CType)]) -> bool
    ensures { IsTrue result ↔ IsLastPresent (arg_types args.now) }
{
    match args {
        [] => true,
        [.., (_, kind)] => is_present(kind),
    }
}

// Whether arguments are those of a function.
fn are_args(args: &[(Loc, CType)]) -> bool
    ensures { IsTrue result ↔ AreArgs args.now }
{
    args.len() <= 16392 && are_placed(args) && are_wide(args) && is_last_present(args)
}

// Whether a function may give this.
fn is_returned(returns: &Returns) -> bool
    ensures { IsTrue result ↔ IsReturned returns.now }
{
    match returns {
        Returns::Value(kind) => is_wide(kind) && is_present(kind),
        Returns::Nothing | Returns::Both => true,
    }
}

// Whether the parts of a line are in range.
pub fn is_row(row: &Row) -> bool
    ensures { IsTrue result ↔ IsRow row.now }
{
    match row {
        Row::Typedef(kind) => is_typedef(kind),
        Row::Member(field) => is_field(field),
        Row::Half(r, kind) => *r <= 1 && is_wide(kind),
        Row::Stated(returns, number, args) => {
            let _number = *number;
            is_returned(returns) && are_args(args.items())
        }
        Row::Named(number) | Row::Opened(number) | Row::Pair(number) => {
            let _number = *number;
            true
        }
        Row::Gap(from, count) => {
            let (_from, _count) = (*from, *count);
            true
        }
        Row::Closed => true,
    }
}
