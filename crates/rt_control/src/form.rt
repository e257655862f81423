// What sites do.
use rt_base::Sequence;
use rt_insn::Insn;
use rt_link::Place;

/// Where a jump leads: to code at a good place, or to an undefined symbol, by its index.
#[derive(Clone, Copy)]
pub enum Target {
    Code(Place),
    Outside(u32),
}

/// What a call calls: code at a good place, an undefined symbol, by its index, or what a register holds.
#[derive(Clone, Copy)]
pub enum Called {
    Code(Place),
    Outside(u32),
    Register(u8),
}

/// How an instruction that calls nothing goes on. All places are good.
///
/// - On: to its continuation.
/// - Jump: to the target of a JAL with rd x0.
/// - Branch: to its target or to its continuation.
/// - Leave: a JAL with rd x0 to an undefined symbol, by its index.
/// - Table: to an entry of a table of addresses, by a JALR with rd x0. Each place that the entries lead to stands once,
///   in the order of the entries.
#[derive(Drop)]
pub enum Way {
    On(Place),
    Jump(Place),
    Branch { target: Place, after: Place },
    Leave(u32),
    Table(Sequence<Place>),
}

/// What a site does.
///
/// - Plain: an instruction that calls nothing, and how it goes on.
/// - Call: what it calls, the register that takes the return address, and the continuation, where that is good.
/// - Tail: a far call that keeps no return address, rd being x0.
/// - Return: `jalr x0,0(ra)`.
/// - Stop: EBREAK.
#[derive(Drop)]
pub enum Form {
    Plain {
        insn: Insn,
        way: Way,
    },
    Call {
        called: Called,
        link: u8,
        after: Option<Place>,
    },
    Tail(Target),
    Return,
    Stop,
}
