// Which results procedures give.
ghost use Rattle.std.specs.Prelude.{◌≡◌, ◌<◌, ◌↔◌, ℕ, Contains, IfOk, OnOk, get_or, length};
ghost use Rattle.rt_body.specs.declared.body.Body.{Body as TheBody};
ghost use Rattle.rt_proc.specs.declared.proc.Proc.{Proc as TheProc};
ghost use Rattle.rt_body.specs.Told.{reading_of, sites_in};
ghost use Rattle.rt_liveness.specs.declared.rule.Rule.{Rule};
ghost use Rattle.rt_liveness.specs.Inside.Additions.{Adds};
ghost use Rattle.rt_liveness.specs.Inside.Conditions.{when_true, when_given, when_written};
ghost use Rattle.rt_liveness.specs.Inside.GivesRules.{IsWriterRule, AreWriterRules, AreReturnRules, AreReturnedRules, AreCalleeRules};
ghost use Rattle.rt_liveness.specs.Inside.GivesRules.{AreTailRules, AreSiteRules, AreGivesRules, AreAllRules};

use crate::named::{Named, is_given};
use crate::procedure::Procedure;
use crate::reads::is_return;
use crate::rule::{Port, Rule, When};
use rt_base::{Memory, Sequence};
use rt_body::Body;
use rt_flow::Def;
use rt_insn::registers::A0;
use rt_proc::{Callee, Kind, Proc, Site};
use std::alloc::Global;

// Always or never.
pub(crate) fn when_true(holds: bool) -> When
    ensures { result ≡ when_true holds }
{
    if holds { When::Always } else { When::Never }
}

/// When a callee gives the result of a number.
pub(crate) fn when_given(named: &[Named], callee: Callee, r: u8) -> When
    requires { r < 2 }
    ensures { result ≡ when_given named.now callee r }
{
    match callee {
        Callee::Proc(procedure) => When::If(Port {
            procedure,
            register: A0 + r,
        }),
        Callee::Extern(symbol) => when_true(is_given(named, symbol, r)),
        Callee::Unknown(_) => when_true(r == 0),
    }
}

/// When what a site of a kind writes in the register of a result is one: a call's callee gives it, and any other
/// instruction wrote it.
pub(crate) fn when_written(named: &[Named], kind: Kind, r: u8) -> When
    requires { r < 2 }
    ensures { result ≡ when_written named.now kind r }
{
    match kind {
        Kind::Call(callee, _) => when_given(named, callee, r),
        _ => When::Always,
    }
}

// Adds the rule of a definition that reaches a return.
fn add_writer(
    rules: &mut Sequence<Rule>,
    named: &[Named],
    procedure: &Procedure<'_>,
    r: u8,
    def: Def,
) -> Result<(), Memory>
    requires { r < 2 }
    ensures { OnOk result (Adds rules.old rules.new (IsWriterRule named.now procedure.now.sites.now procedure.now.number r def)) }
{
    let Def::At(site) = def else {
        return Ok(());
    };
    match procedure.sites.get(site as usize) {
        Some(writer) => rules.push(Rule {
            when: when_written(named, writer.kind, r),
            port: Port {
                procedure: procedure.number,
                register: A0 + r,
            },
        }),
        None => Ok(()),
    }
}

// Adds the rules of the definitions of a result's register that reach a return.
fn add_writers(
    rules: &mut Sequence<Rule>,
    named: &[Named],
    procedure: &Procedure<'_>,
    r: u8,
    defs: &[Def],
) -> Result<(), Memory>
    requires { r < 2 }
    ensures { OnOk result (Adds rules.old rules.new (AreWriterRules named.now procedure.now.sites.now procedure.now.number r defs.now)) }
{
    for def in defs {
        add_writer(rules, named, procedure, r, *def)?;
    }
    Ok(())
}

// Adds the rules of a return.
fn add_return(
    rules: &mut Sequence<Rule>,
    named: &[Named],
    procedure: &Procedure<'_>,
    site: u32,
) -> Result<(), Memory>
    requires { site < sites_in procedure.now.body.now }
    ensures { OnOk result (Adds rules.old rules.new
        (AreReturnRules named.now procedure.now.sites.now
        (reading_of procedure.now.body.now).reaching procedure.now.number site)) }
{
    for r in 0..2 {
        let defs = procedure.body.reaching(site, A0 + r);
        add_writers(rules, named, procedure, r, defs)?;
    }
    Ok(())
}

// Adds the rules of a site of a kind, which are those of a return if it is one.
fn add_returned(
    rules: &mut Sequence<Rule>,
    named: &[Named],
    procedure: &Procedure<'_>,
    site: u32,
    kind: Kind,
) -> Result<(), Memory>
    requires { site < sites_in procedure.now.body.now }
    ensures { OnOk result (Adds rules.old rules.new
        (AreReturnedRules named.now procedure.now.sites.now
        (reading_of procedure.now.body.now).reaching procedure.now.number site kind)) }
{
    if is_return(kind) {
        add_return(rules, named, procedure, site)
    } else {
        Ok(())
    }
}

// Adds the rules of a procedure that goes on in a callee for good.
fn add_callee(
    rules: &mut Sequence<Rule>,
    named: &[Named],
    procedure: u32,
    callee: Callee,
) -> Result<(), Memory>
    ensures { OnOk result (Adds rules.old rules.new (AreCalleeRules named.now procedure callee)) }
{
    for r in 0..2 {
        rules.push(Rule {
            when: when_given(named, callee, r),
            port: Port {
                procedure,
                register: A0 + r,
            },
        })?;
    }
    Ok(())
}

// Adds the rules of a procedure that goes on in callees for good.
fn add_tails(
    rules: &mut Sequence<Rule>,
    named: &[Named],
    procedure: u32,
    tails: &[Callee],
) -> Result<(), Memory>
    ensures { OnOk result (Adds rules.old rules.new (AreTailRules named.now procedure tails.now)) }
{
    for callee in tails {
        add_callee(rules, named, procedure, *callee)?;
    }
    Ok(())
}

// Adds the rules of a site, the one of a number.
fn add_site(
    rules: &mut Sequence<Rule>,
    named: &[Named],
    procedure: &Procedure<'_>,
    number: u32,
    site: &Site,
) -> Result<(), Memory>
    requires { number < sites_in procedure.now.body.now }
    ensures { OnOk result (Adds rules.old rules.new
        (AreSiteRules named.now procedure.now.sites.now
        (reading_of procedure.now.body.now).reaching procedure.now.number number site.now)) }
{
    add_returned(rules, named, procedure, number, site.kind)?;
    add_tails(rules, named, procedure.number, site.tails.items())
}

// Adds the rules of a procedure.
fn add_procedure(
    rules: &mut Sequence<Rule>,
    named: &[Named],
    procedure: &Procedure<'_>,
) -> Result<(), Memory>
    ensures { OnOk result (Adds rules.old rules.new
        (AreGivesRules named.now procedure.now.sites.now
        (reading_of procedure.now.body.now).reaching procedure.now.number)) }
{
    let count = procedure.body.actions().len() as u32;
    for site in 0..count {
        add_site(
            rules,
            named,
            procedure,
            site,
            &procedure.sites[site as usize],
        )?;
    }
    Ok(())
}

/// The rules of what procedures give. There are so many.
pub(crate) fn gives_rules(
    alloc: Global,
    named: &[Named],
    procs: &[Proc],
    bodies: &[Body],
    count: u32,
) -> Result<Sequence<Rule>, Memory>
    requires procs { count ≡ length procs.now }
    requires bodies { count ≡ length bodies.now }
    requires each { (q : ℕ) (proc : TheProc) (body : TheBody) → q < count
        → length (get_or procs.now q proc).sites ≡ sites_in (get_or bodies.now q body) }
    ensures { IfOk result (λ rules. (rule : Rule) → Contains rules rule ↔ AreAllRules named.now procs.now bodies.now rule) }
{
    let mut rules = Sequence::new(alloc);
    for number in 0..count {
        let procedure = Procedure {
            number,
            sites: procs[number as usize].sites.items(),
            body: &bodies[number as usize],
        };
        add_procedure(&mut rules, named, &procedure)?;
    }
    Ok(rules)
}
