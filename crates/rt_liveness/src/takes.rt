// Which argument registers procedures take.
ghost use Rattle.std.specs.Prelude.{◌≡◌, ◌<◌, ◌≤◌, ◌||◌, ◌↔◌, ℕ, Contains, IfOk, OnOk, get_or, length};
ghost use Rattle.std.specs.List.{list_any};
ghost use Rattle.rt_proc.specs.declared.proc.Proc.{Proc as TheProc};
ghost use Rattle.rt_body.specs.declared.body.Body.{Body as TheBody};
ghost use Rattle.rt_body.specs.Told.{reading_of, sites_in};
ghost use Rattle.rt_liveness.specs.declared.rule.Rule.{Rule};
ghost use Rattle.rt_liveness.specs.Inside.Additions.{Adds};
ghost use Rattle.rt_liveness.specs.Inside.Conditions.{begins_with_entry, is_among, is_own, is_real, returns_real, when_taken};
ghost use Rattle.rt_liveness.specs.Programs.{callees_of};
ghost use Rattle.rt_liveness.specs.Reads.{reads_of};
ghost use Rattle.rt_liveness.specs.Inside.TakesRules.{IsReadRule, AreTakenRules, AreRegisterRules, AreRegistersRules, AreTakesRules, AreAllRules};

use crate::closure::is_met;
use crate::gives::{when_true, when_written};
use crate::named::{Named, is_taken};
use crate::procedure::Procedure;
use crate::reads::{is_return, reads};
use crate::rule::{Port, Rule, When};
use indexmap::IndexSet;
use rt_base::{Memory, Sequence};
use rt_body::Body;
use rt_flow::Def;
use rt_insn::registers::A0;
use rt_proc::{Callee, Callees, Kind, Proc, Site};
use std::alloc::Global;

/// Whom a site calls, and in whom it goes on for good. The error is out of memory.
pub(crate) fn callees_of(alloc: Global, site: &Site) -> Result<Callees, Memory>
    ensures { IfOk result (λ callees. callees ≡ callees_of site.now) }
{
    let mut callees = Callees::new(alloc);
    if let Kind::Call(callee, _) = site.kind {
        callees.push(callee)?;
    }
    for callee in site.tails.items() {
        callees.push(*callee)?;
    }
    Ok(callees)
}

// Whether Entry stands first among definitions.
fn begins_with_entry(defs: &[Def]) -> bool
    ensures { result ≡ begins_with_entry defs.now }
{
    matches!(defs, [Def::Entry, ..])
}

// Whether a definition is that of an instruction that is no call.
fn is_own(sites: &[Site], def: Def) -> bool
    ensures { result ≡ is_own sites.now def }
{
    let Def::At(site) = def else {
        return false;
    };
    match sites.get(site as usize) {
        Some(site) => !matches!(site.kind, Kind::Call(..)),
        None => false,
    }
}

// Whether one of some definitions is.
fn has_own(sites: &[Site], defs: &[Def]) -> bool
    ensures { result ≡ list_any (is_own sites.now) defs.now }
{
    defs.iter().any(|def| is_own(sites, *def))
}

// Whether a definition of the register of a result is real.
fn is_real(given: &IndexSet<Port>, named: &[Named], sites: &[Site], r: u8, def: Def) -> bool
    requires { r < 2 }
    ensures { result ≡ is_real given.now.keys named.now sites.now r def }
{
    let Def::At(site) = def else {
        return false;
    };
    match sites.get(site as usize) {
        Some(site) => is_met(given, when_written(named, site.kind, r)),
        None => false,
    }
}

// Whether one of some definitions is.
fn has_real(given: &IndexSet<Port>, named: &[Named], sites: &[Site], r: u8, defs: &[Def]) -> bool
    requires { r < 2 }
    ensures { result ≡ list_any (is_real given.now.keys named.now sites.now r) defs.now }
{
    defs.iter().any(|def| is_real(given, named, sites, r, *def))
}

// Whether a site of a kind is a return that reads an argument register, of which these definitions reach it, as a result.
fn returns_real(
    given: &IndexSet<Port>,
    named: &[Named],
    sites: &[Site],
    kind: Kind,
    register: u8,
    defs: &[Def],
) -> bool
    requires { 10 ≤ register }
    ensures { result ≡ returns_real given.now.keys named.now sites.now kind register defs.now }
{
    is_return(kind) && register <= 11 && has_real(given, named, sites, register - A0, defs)
}

// Whether a site of a kind reads an argument register itself, of which these definitions reach it.
fn is_read(
    given: &IndexSet<Port>,
    named: &[Named],
    sites: &[Site],
    kind: Kind,
    register: u8,
    defs: &[Def],
) -> bool
    requires { 10 ≤ register }
    ensures { result ≡ (is_among (reads_of kind) register || returns_real given.now.keys named.now sites.now kind register defs.now) }
{
    reads(kind, register) || returns_real(given, named, sites, kind, register, defs)
}

/// When a callee takes an argument register, of which these definitions reach the site that calls it.
pub(crate) fn when_taken(
    named: &[Named],
    sites: &[Site],
    defs: &[Def],
    callee: Callee,
    register: u8,
) -> When
    requires low { 10 ≤ register }
    requires high { register < 18 }
    ensures { result ≡ when_taken named.now sites.now defs.now callee register }
{
    match callee {
        Callee::Proc(procedure) => When::If(Port {
            procedure,
            register,
        }),
        Callee::Extern(symbol) => when_true(is_taken(named, symbol, register - A0)),
        Callee::Unknown(_) => when_true(has_own(sites, defs)),
    }
}

// Adds the rule of a site that reads an argument register itself.
fn add_read(
    rules: &mut Sequence<Rule>,
    given: &IndexSet<Port>,
    named: &[Named],
    procedure: &Procedure<'_>,
    kind: Kind,
    register: u8,
    defs: &[Def],
) -> Result<(), Memory>
    requires { 10 ≤ register }
    ensures { OnOk result (Adds rules.old rules.new
        (IsReadRule given.now.keys named.now procedure.now.sites.now procedure.now.number kind register defs.now)) }
{
    let is_read = is_read(given, named, procedure.sites, kind, register, defs);
    rules.push(Rule {
        when: when_true(is_read),
        port: Port {
            procedure: procedure.number,
            register,
        },
    })
}

// Adds the rules of callees that take an argument register.
fn add_taken(
    rules: &mut Sequence<Rule>,
    named: &[Named],
    procedure: &Procedure<'_>,
    callees: &[Callee],
    register: u8,
    defs: &[Def],
) -> Result<(), Memory>
    requires low { 10 ≤ register }
    requires high { register < 18 }
    ensures { OnOk result (Adds rules.old rules.new
        (AreTakenRules named.now procedure.now.sites.now procedure.now.number callees.now register defs.now)) }
{
    for callee in callees {
        rules.push(Rule {
            when: when_taken(named, procedure.sites, defs, *callee, register),
            port: Port {
                procedure: procedure.number,
                register,
            },
        })?;
    }
    Ok(())
}

// Adds the rules of a site for an argument register, of which these definitions reach it.
fn add_register(
    rules: &mut Sequence<Rule>,
    given: &IndexSet<Port>,
    named: &[Named],
    procedure: &Procedure<'_>,
    kind: Kind,
    callees: &[Callee],
    register: u8,
    defs: &[Def],
) -> Result<(), Memory>
    requires low { 10 ≤ register }
    requires high { register < 18 }
    ensures { OnOk result (Adds rules.old rules.new
        (AreRegisterRules given.now.keys named.now procedure.now.sites.now procedure.now.number kind callees.now register defs.now)) }
{
    if !begins_with_entry(defs) {
        return Ok(());
    }
    add_read(rules, given, named, procedure, kind, register, defs)?;
    add_taken(rules, named, procedure, callees, register, defs)
}

// Adds the rules of a site, the one of a number.
fn add_site(
    alloc: Global,
    rules: &mut Sequence<Rule>,
    given: &IndexSet<Port>,
    named: &[Named],
    procedure: &Procedure<'_>,
    number: u32,
    site: &Site,
) -> Result<(), Memory>
    requires { number < sites_in procedure.now.body.now }
    ensures { OnOk result (Adds rules.old rules.new
        (AreRegistersRules given.now.keys named.now procedure.now.sites.now
        (reading_of procedure.now.body.now).reaching procedure.now.number number site.now)) }
{
    let callees = callees_of(alloc, site)?;
    for n in 0..8 {
        let defs = procedure.body.reaching(number, A0 + n);
        add_register(
            rules,
            given,
            named,
            procedure,
            site.kind,
            callees.items(),
            A0 + n,
            defs,
        )?;
    }
    Ok(())
}

// Adds the rules of a procedure.
fn add_procedure(
    alloc: Global,
    rules: &mut Sequence<Rule>,
    given: &IndexSet<Port>,
    named: &[Named],
    procedure: &Procedure<'_>,
) -> Result<(), Memory>
    ensures { OnOk result (Adds rules.old rules.new
        (AreTakesRules given.now.keys named.now procedure.now.sites.now
        (reading_of procedure.now.body.now).reaching procedure.now.number)) }
{
    let count = procedure.body.actions().len() as u32;
    for site in 0..count {
        let here = &procedure.sites[site as usize];
        add_site(alloc, rules, given, named, procedure, site, here)?;
    }
    Ok(())
}

/// The rules of what procedures take, by what they give. There are so many.
pub(crate) fn takes_rules(
    alloc: Global,
    given: &IndexSet<Port>,
    named: &[Named],
    procs: &[Proc],
    bodies: &[Body],
    count: u32,
) -> Result<Sequence<Rule>, Memory>
    requires procs { count ≡ length procs.now }
    requires bodies { count ≡ length bodies.now }
    requires each { (q : ℕ) (proc : TheProc) (body : TheBody) → q < count
        → length (get_or procs.now q proc).sites ≡ sites_in (get_or bodies.now q body) }
    ensures { IfOk result
        (λ rules. (rule : Rule) → Contains rules rule ↔ AreAllRules given.now.keys named.now procs.now bodies.now rule) }
{
    let mut rules = Sequence::new(alloc);
    for number in 0..count {
        let procedure = Procedure {
            number,
            sites: procs[number as usize].sites.items(),
            body: &bodies[number as usize],
        };
        add_procedure(alloc, &mut rules, given, named, &procedure)?;
    }
    Ok(rules)
}
