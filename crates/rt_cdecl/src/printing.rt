// Printing of declarations.
ghost use Rattle.std.specs.Prelude.{◌≡◌, ◌≤◌, ◌/◌, ◌++◌, ◌∷◌, [], All, OnOk, IfOk, codes, length, map, decimal};
ghost use Rattle.std.specs.List.{flat_map};
ghost use Rattle.rt_cdecl.specs.Types.{IsField, IsTypedef, bits_of};
ghost use Rattle.rt_cdecl.specs.Rows.{Typedef, Named, Opened, Gap, Member, Closed, Pair, Half, Stated};
ghost use Rattle.rt_cdecl.specs.Rows.{arg_text, args_text, carrier_text, more_args_text, returns_text};
ghost use Rattle.rt_cdecl.specs.Rows.{row_text, rows_text, scalar_text, type_text, typedef_text};
ghost use Rattle.rt_cdecl.specs.Texts.{decls_text, fields_rows, function_rows, gap_rows, pair_rows, returns_of, stated_row, struct_rows};
ghost use Rattle.rt_cdecl.specs.GoodDecls.{FitFrom, IsGoodDecls, IsStruct};

use crate::declarations::{CField, CFunction, CStruct, CType, Decls};
use crate::row::{Returns, Row};
use rt_base::Memory;
use rt_lines::Loc;
use rt_texts::print_number;
use std::alloc::Global;

// The width of a type in bytes.
pub fn width(kind: &CType) -> u32
    ensures { result ≡ bits_of kind.now / 8 }
{
    match kind {
        CType::Scalar(_, bits) => u32::from(*bits) / 8,
        CType::Unused | CType::Pointer(_) => 4,
    }
}

// The C type that a scalar of so many bits stands for.
fn carrier(bits: u8) -> &'static [u8]
    ensures { result.now ≡ carrier_text bits }
{
    match bits {
        8 => b"char",
        16 => b"short",
        _ => b"int",
    }
}

// Adds a number between two fixed texts.
fn push_number(front: &[u8], n: u32, back: &[u8], out: &mut Vec<u8>) -> Result<(), Memory>
    ensures { OnOk result (out.new.items ≡ out.old.items ++ (front.now ++ (decimal n ++ back.now))) }
{
    out.extend_from_slice(front)?;
    print_number(n, out)?;
    out.extend_from_slice(back)
}

// Adds the name of a scalar.
fn push_scalar(name: &[u8], bits: u8, out: &mut Vec<u8>) -> Result<(), Memory>
    ensures { OnOk result (out.new.items ≡ out.old.items ++ scalar_text name.now bits) }
{
    out.extend_from_slice(b"rt_")?;
    out.extend_from_slice(name)?;
    out.extend_from_slice(b"_")?;
    print_number(u32::from(bits), out)
}

// Adds a type.
fn push_type(kind: &CType, out: &mut Vec<u8>) -> Result<(), Memory>
    ensures { OnOk result (out.new.items ≡ out.old.items ++ type_text kind.now) }
{
    match kind {
        CType::Unused => out.extend_from_slice(b"rt_unused "),
        CType::Scalar(name, bits) => {
            push_scalar(name.items(), *bits, out)?;
            out.extend_from_slice(b" ")
        }
        CType::Pointer(n) => push_number(b"struct s", *n, b" *", out),
    }
}

// Adds a text between two fixed texts.
fn push_between(front: &[u8], text: &[u8], back: &[u8], out: &mut Vec<u8>) -> Result<(), Memory>
    ensures { OnOk result (out.new.items ≡ out.old.items ++ (front.now ++ (text.now ++ back.now))) }
{
    out.extend_from_slice(front)?;
    out.extend_from_slice(text)?;
    out.extend_from_slice(back)
}

// Adds the line of a scalar.
fn push_scalar_line(name: &[u8], bits: u8, out: &mut Vec<u8>) -> Result<(), Memory>
    ensures { OnOk result (out.new.items ≡ out.old.items ++
        (codes "typedef unsigned " ++ (carrier_text bits ++ (codes " " ++ (scalar_text name.now bits ++ codes ";"))))) }
{
    push_between(b"typedef unsigned ", carrier(bits), b" ", out)?;
    push_scalar(name, bits, out)?;
    out.extend_from_slice(b";")?;
    Ok(())
}

// Adds the line of a type, without the line's end.
pub fn push_typedef_text(kind: &CType, out: &mut Vec<u8>) -> Result<(), Memory>
    ensures { OnOk result (out.new.items ≡ out.old.items ++ typedef_text kind.now) }
{
    match kind {
        CType::Unused => out.extend_from_slice(b"typedef unsigned int rt_unused;"),
        CType::Scalar(name, bits) => push_scalar_line(name.items(), *bits, out),
        CType::Pointer(_) => Ok(()),
    }
}

// Adds the line of a type.
fn push_typedef(kind: &CType, out: &mut Vec<u8>) -> Result<(), Memory>
    ensures { OnOk result (out.new.items ≡ out.old.items ++ (row_text (Typedef kind.now) ++ 10 ∷ [])) }
{
    push_typedef_text(kind, out)?;
    out.push(b'\n')?;
    Ok(())
}

// Adds the lines of types.
fn push_typedefs(kinds: &[CType], out: &mut Vec<u8>) -> Result<(), Memory>
    ensures { OnOk result (out.new.items ≡ out.old.items ++ rows_text (map Typedef kinds.now)) }
{
    for kind in kinds {
        push_typedef(kind, out)?;
    }
    Ok(())
}

// Adds the lines that name structs.
fn push_names(structs: &[CStruct], out: &mut Vec<u8>) -> Result<(), Memory>
    ensures { OnOk result (out.new.items ≡ out.old.items ++ rows_text (map (λ s. Named s.number) structs.now)) }
{
    for item in structs {
        push_number(b"struct s", item.number, b";\n", out)?;
    }
    Ok(())
}

// Adds the line of a gap.
fn push_gap(from: u32, to: u32, out: &mut Vec<u8>) -> Result<(), Memory>
    requires { from ≤ to }
    ensures { OnOk result (out.new.items ≡ out.old.items ++ rows_text (gap_rows from to)) }
{
    if from == to {
        return Ok(());
    }
    push_number(b"  unsigned char p", from, b"[", out)?;
    push_number(b"", to - from, b"];\n", out)
}

// Adds the line of a field.
fn push_field(field: &CField, out: &mut Vec<u8>) -> Result<(), Memory>
    ensures { OnOk result (out.new.items ≡ out.old.items ++ (row_text (Member field.now) ++ 10 ∷ [])) }
{
    out.extend_from_slice(b"  ")?;
    push_type(&field.kind, out)?;
    push_number(b"m", field.offset, b";\n", out)
}

// Adds the lines of fields.
fn push_fields(fields: &[CField], out: &mut Vec<u8>) -> Result<(), Memory>
    requires good { All IsField fields.now }
    requires fit { FitFrom 0 fields.now }
    ensures { OnOk result (out.new.items ≡ out.old.items ++ rows_text (fields_rows 0 fields.now)) }
{
    let mut from = 0;
    for field in fields {
        push_gap(from, field.offset, out)?;
        push_field(field, out)?;
        from = field.offset + width(&field.kind);
    }
    Ok(())
}

// Adds the lines of a struct.
fn push_struct(item: &CStruct, out: &mut Vec<u8>) -> Result<(), Memory>
    requires good { All IsField item.now.fields }
    requires fit { FitFrom 0 item.now.fields }
    ensures { OnOk result (out.new.items ≡ out.old.items ++ rows_text (struct_rows item.now)) }
{
    push_number(b"struct s", item.number, b" {\n", out)?;
    push_fields(item.fields.items(), out)?;
    out.extend_from_slice(b"};\n")
}

// Adds the lines of structs.
fn push_structs(structs: &[CStruct], out: &mut Vec<u8>) -> Result<(), Memory>
    requires { All (IsStruct (length structs.now)) structs.now }
    ensures { OnOk result (out.new.items ≡ out.old.items ++ rows_text (flat_map struct_rows structs.now)) }
{
    for item in structs {
        push_struct(item, out)?;
    }
    Ok(())
}

// Adds a line of the pair of two results.
fn push_half(r: u32, kind: &CType, out: &mut Vec<u8>) -> Result<(), Memory>
    ensures { OnOk result (out.new.items ≡ out.old.items ++ (row_text (Half r kind.now) ++ 10 ∷ [])) }
{
    out.extend_from_slice(b"  ")?;
    push_type(kind, out)?;
    push_number(b"a", r, b";\n", out)
}

// Adds the lines of the pair of two results, and nothing where none is in a1.
fn push_pair(number: u32, out0: &CType, out1: &CType, out: &mut Vec<u8>) -> Result<(), Memory>
    ensures { OnOk result (out.new.items ≡ out.old.items ++ rows_text (pair_rows number out0.now out1.now)) }
{
    if let CType::Unused = out1 {
        return Ok(());
    }
    push_number(b"struct r", number, b" {\n", out)?;
    push_half(0, out0, out)?;
    push_half(1, out1, out)?;
    out.extend_from_slice(b"};\n")
}

// Adds what a function gives.
fn push_returns(number: u32, out0: &CType, out1: &CType, out: &mut Vec<u8>) -> Result<(), Memory>
    ensures { OnOk result (out.new.items ≡ out.old.items ++ returns_text number (returns_of out0.now out1.now)) }
{
    match (out0, out1) {
        (CType::Unused, CType::Unused) => out.extend_from_slice(b"void "),
        (_, CType::Unused) => push_type(out0, out),
        _ => push_number(b"struct r", number, b" ", out),
    }
}

// Adds an argument.
fn push_arg(loc: Loc, kind: &CType, out: &mut Vec<u8>) -> Result<(), Memory>
    ensures { OnOk result (out.new.items ≡ out.old.items ++ arg_text (loc, kind.now)) }
{
    push_type(kind, out)?;
    match loc {
        Loc::Arg(n) => push_number(b"a", u32::from(n), b"", out),
        Loc::Stack(k) => push_number(b"k", k, b"", out),
    }
}

// Adds arguments that follow others.
fn push_more_args(args: &[(Loc, CType)], out: &mut Vec<u8>) -> Result<(), Memory>
    ensures { OnOk result (out.new.items ≡ out.old.items ++ more_args_text args.now) }
{
    for (loc, kind) in args {
        out.extend_from_slice(b", ")?;
        push_arg(*loc, kind, out)?;
    }
    Ok(())
}

// Adds arguments.
fn push_args(args: &[(Loc, CType)], out: &mut Vec<u8>) -> Result<(), Memory>
    ensures { OnOk result (out.new.items ≡ out.old.items ++ args_text args.now) }
{
    let [(loc, kind), more @ ..] = args else {
        return out.extend_from_slice(b"void");
    };
    push_arg(*loc, kind, out)?;
    push_more_args(more, out)
}

// Adds what stands in a function's line after what it gives, with the line's end.
fn push_after_returns(number: u32, args: &[(Loc, CType)], out: &mut Vec<u8>) -> Result<(), Memory>
    ensures { OnOk result (out.new.items ≡ out.old.items ++
        ((codes "f" ++ (decimal number ++ (codes "(" ++ (args_text args.now ++ codes ");")))) ++ 10 ∷ [])) }
{
    push_number(b"f", number, b"(", out)?;
    push_args(args, out)?;
    out.extend_from_slice(b");\n")
}

// Adds the line of a function alone.
fn push_stated(function: &CFunction, out: &mut Vec<u8>) -> Result<(), Memory>
    ensures { OnOk result (out.new.items ≡ out.old.items ++ (row_text (stated_row function.now) ++ 10 ∷ [])) }
{
    push_returns(function.number, &function.out0, &function.out1, out)?;
    push_after_returns(function.number, function.args.items(), out)
}

// Adds the lines of a function.
fn push_function(function: &CFunction, out: &mut Vec<u8>) -> Result<(), Memory>
    ensures { OnOk result (out.new.items ≡ out.old.items ++ rows_text (function_rows function.now)) }
{
    push_pair(function.number, &function.out0, &function.out1, out)?;
    push_stated(function, out)
}

// Adds the lines of functions.
fn push_functions(functions: &[CFunction], out: &mut Vec<u8>) -> Result<(), Memory>
    ensures { OnOk result (out.new.items ≡ out.old.items ++ rows_text (flat_map function_rows functions.now)) }
{
    for function in functions {
        push_function(function, out)?;
    }
    Ok(())
}

/// The text of well formed declarations, line by line: the types, the names of the structs, the structs with a line for each
/// field and each gap before one, and the functions, each after the pair of its results where it has two. Widths and offsets
/// are in bytes there. The error is out of memory.
pub fn print(alloc: Global, decls: &Decls) -> Result<Vec<u8>, Memory>
    requires { IsGoodDecls decls.now }
    ensures { IfOk result (λ text. text.items ≡ decls_text decls.now) }
{
    let mut text = Vec::new(alloc);
    push_typedefs(decls.typedefs.items(), &mut text)?;
    push_names(decls.structs.items(), &mut text)?;
    push_structs(decls.structs.items(), &mut text)?;
    push_functions(decls.functions.items(), &mut text)?;
    Ok(text)
}

// Adds what a function of this number gives.
fn push_given(number: u32, returns: &Returns, out: &mut Vec<u8>) -> Result<(), Memory>
    ensures { OnOk result (out.new.items ≡ out.old.items ++ returns_text number returns.now) }
{
    match returns {
        Returns::Nothing => out.extend_from_slice(b"void "),
        Returns::Value(kind) => push_type(kind, out),
        Returns::Both => push_number(b"struct r", number, b" ", out),
    }
}

// Adds the line of a function.
fn push_function_line(
    returns: &Returns,
    number: u32,
    args: &[(Loc, CType)],
    out: &mut Vec<u8>,
) -> Result<(), Memory>
    ensures { OnOk result (out.new.items ≡ out.old.items ++ (row_text (Stated returns.now number args.now) ++ 10 ∷ [])) }
{
    push_given(number, returns, out)?;
    push_after_returns(number, args, out)
}

// Adds the line of a gap of so many bytes.
fn push_gap_line(from: u32, count: u32, out: &mut Vec<u8>) -> Result<(), Memory>
    ensures { OnOk result (out.new.items ≡ out.old.items ++ (row_text (Gap from count) ++ 10 ∷ [])) }
{
    push_number(b"  unsigned char p", from, b"[", out)?;
    push_number(b"", count, b"];\n", out)
}

// Adds a line, with its line end.
pub fn push_row(row: &Row, out: &mut Vec<u8>) -> Result<(), Memory>
    ensures { OnOk result (out.new.items ≡ out.old.items ++ (row_text row.now ++ 10 ∷ [])) }
{
    match row {
        Row::Typedef(kind) => push_typedef(kind, out),
        Row::Named(n) => push_number(b"struct s", *n, b";\n", out),
        Row::Opened(n) => push_number(b"struct s", *n, b" {\n", out),
        Row::Gap(from, count) => push_gap_line(*from, *count, out),
        Row::Member(field) => push_field(field, out),
        Row::Closed => out.extend_from_slice(b"};\n"),
        Row::Pair(n) => push_number(b"struct r", *n, b" {\n", out),
        Row::Half(r, kind) => push_half(*r, kind, out),
        Row::Stated(returns, n, args) => push_function_line(returns, *n, args.items(), out),
    }
}
