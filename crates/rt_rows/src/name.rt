// What existentials stand for.
use rt_lines::Label;

/// What an existential of a group's lines stands for, in the procedure of a number.
///
/// - Definition: what a site writes into a register.
/// - Merge: what the definitions of a register that reach a site bring there together.
/// - Object: the object of the frame that begins at an offset.
/// - Port: the argument or result of a label, in the instance that a call of a site, by its number among the site's calls, makes of a
///   scheme.
/// - Inner: another existential of that instance, by its number there.
/// - Result: the result of a call of which nothing is known.
#[derive(Clone, Copy, PartialEq, Eq, Hash)]
pub enum Name {
    Definition {
        procedure: u32,
        site: u32,
        register: u8,
    },
    Merge {
        procedure: u32,
        site: u32,
        register: u8,
    },
    Object {
        procedure: u32,
        start: i32,
    },
    Port {
        procedure: u32,
        site: u32,
        call: u32,
        label: Label,
    },
    Inner {
        procedure: u32,
        site: u32,
        call: u32,
        number: u32,
    },
    Result {
        procedure: u32,
        site: u32,
        call: u32,
    },
}
