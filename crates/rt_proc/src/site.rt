// The sites of procedures.
use rt_base::Sequence;
use rt_control::Place;
use rt_insn::Insn;

/// Whom a site calls: a procedure by its number, an undefined symbol by its index, or what a register holds.
#[derive(Clone, Copy)]
pub enum Callee {
    Proc(u32),
    Extern(u32),
    Unknown(u8),
}

/// What a site is: an instruction that goes on, a call with the register that takes the return address, a return, or an
/// end. An end is an EBREAK, or a far call that keeps no return address, whose callee is a tail.
#[derive(Clone, Copy)]
pub enum Kind {
    Plain(Insn),
    Call(Callee, u8),
    Return,
    Stop,
}

/// Places, in the order of the steps to them.
pub type Places = Sequence<Place>;

/// Callees, in the order of the steps to them.
pub type Callees = Sequence<Callee>;

/// A site of a body: its place, what it is, the places in the body that it steps to, and the procedures and symbols in
/// which it goes on for good. `next` and `tails` have each place or callee once, a target before a continuation.
#[derive(Drop)]
pub struct Site {
    pub place: Place,
    pub kind: Kind,
    pub next: Places,
    pub tails: Callees,
}

/// Sites, by their places.
pub type Sites = Sequence<Site>;
