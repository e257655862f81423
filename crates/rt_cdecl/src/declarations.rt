// The types of declarations.
use rt_base::{Bytes, Sequence};
use rt_lines::Loc;

/// The type of an argument, of a result or of a field.
#[derive(Drop)]
pub enum CType {
    /// No type: an argument or a result that is not used. It is 32 bits wide.
    Unused,
    /// A scalar: its name, and its width in bits, which is 8, 16 or 32, and 32 in arguments and results.
    Scalar(Bytes, u8),
    /// A pointer to the struct of this number. It is 32 bits wide.
    Pointer(u32),
}

/// A field of a struct.
#[derive(Drop)]
pub struct CField {
    /// Where it begins, in bytes from the start of the struct.
    pub offset: u32,
    /// A scalar or a pointer.
    pub kind: CType,
}

/// The fields of a struct, by offset.
pub type CFields = Sequence<CField>;

/// A struct.
#[derive(Drop)]
pub struct CStruct {
    /// Its number.
    pub number: u32,
    /// Its fields, which rise and do not overlap.
    pub fields: CFields,
}

/// Arguments, each with the place where it is passed, in the order of the header.
pub type CArgs = Sequence<(Loc, CType)>;

/// A function.
#[derive(Drop)]
pub struct CFunction {
    /// The number of its procedure.
    pub number: u32,
    /// Its arguments up to the last that is used: those of the registers, then those of the stack.
    pub args: CArgs,
    /// The result in a0, `Unused` where there is none.
    pub out0: CType,
    /// The result in a1, `Unused` where there is none.
    pub out1: CType,
}

/// A list of types.
pub type CTypes = Sequence<CType>;

/// A list of structs.
pub type CStructs = Sequence<CStruct>;

/// A list of functions.
pub type CFunctions = Sequence<CFunction>;

/// Declarations of types, structs and functions.
#[derive(Drop)]
pub struct Decls {
    /// The scalars that are used, and `Unused` where that is used, in the byte order of their lines.
    pub typedefs: CTypes,
    /// The structs, numbered from 0 in this order.
    pub structs: CStructs,
    /// The functions, by number.
    pub functions: CFunctions,
}
