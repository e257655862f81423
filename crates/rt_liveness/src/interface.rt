// What procedures give and take.
ghost use Rattle.std.specs.Prelude.{◌≡◌, ◌<◌, ℕ, IfOk, get_or, length};
ghost use Rattle.rt_proc.specs.declared.proc.Proc.{Proc as TheProc};
ghost use Rattle.rt_body.specs.declared.body.Body.{Body as TheBody};
ghost use Rattle.rt_body.specs.Told.{sites_in};
ghost use Rattle.rt_liveness.specs.Inside.Interfaces.{IsInterface};

use crate::closure::closure;
use crate::gives::gives_rules;
use crate::named::{Named, named_symbols};
use crate::rule::Port;
use crate::takes::takes_rules;
use indexmap::IndexSet;
use rt_base::Memory;
use rt_body::Body;
use rt_elf::Object;
use rt_proc::Proc;
use rt_sigs::Sigs;
use std::alloc::Global;

// What procedures give and take, and what signatures name.
#[derive(Drop)]
pub(crate) struct Interface {
    // Of the functions outside, by symbols.
    pub(crate) named: Vec<Named>,
    // The registers of results that procedures give.
    pub(crate) given: IndexSet<Port>,
    // The registers of arguments that procedures take.
    pub(crate) taken: IndexSet<Port>,
}

/// What procedures give and take, of which there are so many.
pub(crate) fn interface_of(
    alloc: Global,
    object: &Object,
    procs: &[Proc],
    bodies: &[Body],
    sigs: &Sigs,
    count: u32,
) -> Result<Interface, Memory>
    requires procs { count ≡ length procs.now }
    requires bodies { count ≡ length bodies.now }
    requires each { (q : ℕ) (proc : TheProc) (body : TheBody) → q < count
        → length (get_or procs.now q proc).sites ≡ sites_in (get_or bodies.now q body) }
    ensures { IfOk result (IsInterface object.now procs.now bodies.now sigs.now) }
{
    let named = named_symbols(alloc, object, sigs)?;
    let gives = gives_rules(alloc, &named, procs, bodies, count)?;
    let given = closure(alloc, gives.items())?;
    let takes = takes_rules(alloc, &given, &named, procs, bodies, count)?;
    let taken = closure(alloc, takes.items())?;
    Ok(Interface {
        named,
        given,
        taken,
    })
}
