// What is known of calls.
ghost use Rattle.std.specs.Prelude.{◌≡◌};

use rt_base::Sequence;
use rt_proc::Callee;

/// What is known of a call that a site makes, or of a procedure or function in which it goes on for good.
#[derive(Clone, Copy)]
pub struct Call {
    /// Whom.
    pub callee: Callee,
    /// Of the argument registers a0 to a7, whether the callee takes each there.
    pub takes: [bool; 8],
    /// Of the result registers a0 and a1, whether the callee gives each.
    pub gives: [bool; 2],
    /// Whether the site is a jump to what a register holds, with nothing added to it.
    pub is_plain: bool,
}

impl Call {
    ghost use Rattle.rt_liveness.specs.Calls.{gives_result, takes_register};

    /// Whether the callee takes a register of an argument: a0 to a7 are x10 to x17.
    pub fn takes_register(&self, register: u8) -> bool
        ensures { result ≡ takes_register self.now register }
    {
        10 <= register && register <= 17 && self.takes[usize::from(register - 10)]
    }

    /// Whether the callee gives the result of a number: 0 is that in a0, and 1 that in a1.
    pub fn gives_result(&self, r: u8) -> bool
        ensures { result ≡ gives_result self.now r }
    {
        r < 2 && self.gives[usize::from(r)]
    }
}

/// The calls of a procedure's sites: for each site those that it makes, and then those in which it goes on for good.
pub type Calls = Sequence<Sequence<Call>>;
