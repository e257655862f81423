// What follows from rules.
ghost use Rattle.std.specs.Prelude.{◌≡◌, ◌↔◌, ◌≤◌, ℕ, Contains, IfOk, OnOk, IsTrue, length};
ghost use Rattle.rt_liveness.specs.declared.rule.Port.{Port};
ghost use Rattle.rt_liveness.specs.declared.rule.Rule.{Rule};
ghost use Rattle.rt_liveness.specs.Inside.Additions.{Adds};
ghost use Rattle.rt_liveness.specs.Inside.Closures.{Says, IsSaid, Follows, is_met, IsPremise, rules_at};

use crate::rule::{Port, Rule, When};
use indexmap::IndexSet;
use rt_base::{Memory, Sequence};
use std::alloc::Global;

// Adds what a rule says to hold then.
fn note(found: &mut IndexSet<Port>, rule: Rule, when: When) -> Result<(), Memory>
    ensures { OnOk result (Adds found.old.keys found.new.keys (Says when rule)) }
{
    if rule.when == when {
        found.insert(rule.port)?;
    }
    Ok(())
}

// Adds what rules say to hold then.
fn note_all(found: &mut IndexSet<Port>, rules: &[Rule], when: When) -> Result<(), Memory>
    ensures { OnOk result (Adds found.old.keys found.new.keys (IsSaid rules.now when)) }
{
    for rule in rules {
        note(found, *rule, when)?;
    }
    Ok(())
}

// Adds empty lists until there are so many.
fn grow(alloc: Global, table: &mut Vec<Sequence<Rule>>, count: usize) -> Result<(), Memory>
    ensures long { OnOk result (count ≤ length table.new.items) }
    ensures same { OnOk result ((p : ℕ) → rules_at table.new.items p ≡ rules_at table.old.items p) }
{
    while table.len() < count {
        table.push(Sequence::new(alloc))?;
    }
    Ok(())
}

// Adds a rule to those of its premise's procedure, if it has a premise.
fn add_rule(alloc: Global, table: &mut Vec<Sequence<Rule>>, rule: Rule) -> Result<(), Memory>
    ensures { OnOk result ((p : ℕ) → Adds (rules_at table.old.items p) (rules_at table.new.items p)
        (λ other. (other ≡ rule) × IsPremise p rule)) }
{
    match rule.when {
        When::If(premise) => {
            let procedure = premise.procedure as usize;
            grow(alloc, table, procedure + 1)?;
            table[procedure].push(rule)
        }
        _ => Ok(()),
    }
}

// For each procedure the rules that have it as their premise.
fn by_premise(alloc: Global, rules: &[Rule]) -> Result<Vec<Sequence<Rule>>, Memory>
    ensures { IfOk result (λ table. (p : ℕ) (rule : Rule)
        → Contains (rules_at table.items p) rule ↔ (Contains rules.now rule × IsPremise p rule)) }
{
    let mut table = Vec::new(alloc);
    for rule in rules {
        add_rule(alloc, &mut table, *rule)?;
    }
    Ok(table)
}

// Adds what rules of a table say to hold if a premise does.
fn follow(found: &mut IndexSet<Port>, table: &[Sequence<Rule>], premise: Port) -> Result<(), Memory>
    ensures { OnOk result (Adds found.old.keys found.new.keys (IsSaid (rules_at table.now premise.procedure) (When.If premise))) }
{
    match table.get(premise.procedure as usize) {
        Some(rules) => note_all(found, rules.items(), When::If(premise)),
        None => Ok(()),
    }
}

/// What follows from rules. The error is out of memory.
///
/// Time and memory are linear in the rules.
pub(crate) fn closure(alloc: Global, rules: &[Rule]) -> Result<IndexSet<Port>, Memory>
    ensures { IfOk result (λ found. (port : Port) → Contains found.keys port ↔ Follows rules.now port) }
{
    let table = by_premise(alloc, rules)?;
    let mut found = IndexSet::new(alloc);
    note_all(&mut found, rules, When::Always)?;
    let mut index = 0;
    while index < found.len() {
        let premise = found[index];
        follow(&mut found, &table, premise)?;
        index += 1;
    }
    Ok(found)
}

/// Whether something holds, by what follows.
pub(crate) fn is_met(found: &IndexSet<Port>, when: When) -> bool
    ensures { result ≡ is_met found.now.keys when }
{
    match when {
        When::Never => false,
        When::Always => true,
        When::If(port) => found.contains(&port),
    }
}
