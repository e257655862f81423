//! C declarations, and their text. The text of well formed declarations is a C header; each has one, which is read again.
#![tactic(auto)]

mod declarations;
mod draft;
mod goods;
mod kinds;
pub mod laws;
mod lines;
mod listed;
mod parts;
mod printing;
mod reader;
mod reading;
mod row;
mod stage;

pub use declarations::{
    CArgs, CField, CFields, CFunction, CFunctions, CStruct, CStructs, CType, CTypes, Decls,
};
pub use lines::typedefs;
pub use printing::print;
pub use reader::read;
