// The items of calls.
ghost use Rattle.std.specs.Prelude.{◌≡◌, ◌<◌, ◌≤◌, ◌++◌, ◌∷◌, [], OnOk};
ghost use Rattle.rt_body.specs.Told.{sites_in};
ghost use Rattle.rt_liveness.specs.Calls.{HasCallRegister};
ghost use Rattle.rt_table.specs.Inside.Parts.{IsTargetWithin, both_results, call_items, call_rows, comes_back, places_of};
ghost use Rattle.rt_table.specs.Table.{Member, Scheme as SchemeTarget, call_by, calls_from, linked_at, pointer_call, tail_result, told};
ghost use Rattle.rt_table.specs.Inside.Told.{context_of, linked_call, target_in, target_of};

use crate::context::Context;
use crate::item::Item;
use crate::labels::{port_arguments, push_words, register_arguments};
use crate::receiver::Receiver;
use crate::results::names_result;
use crate::side::Side;
use crate::target::Target;
use crate::targets::ports_of;
use rt_base::Memory;
use rt_lattice::Role;
use rt_lines::Label;
use rt_liveness::Call;
use rt_rows::{Row, Rows, Term};
use rt_scheme::Scheme;
use std::alloc::AllocError;

/// Adds rows.
pub(crate) fn push_told(rows: Rows, items: &mut Vec<Item>) -> Result<(), Memory>
    ensures { OnOk result (items.new.items ≡ items.old.items ++ told rows) }
{
    for row in rows.into_vec() {
        items.push(Item::Told(row))?;
    }
    Ok(())
}

// Adds the place of an instance, where a target is a scheme.
fn push_place(site: u32, call: u32, target: Target<'_>, items: &mut Vec<Item>) -> Result<(), Memory>
    ensures { OnOk result (items.new.items ≡ items.old.items ++ places_of site call (target_of target.entry)) }
{
    match target {
        Target::Scheme { .. } => {
            items.push(Item::Instance { site, call })?;
            Ok(())
        }
        _ => Ok(()),
    }
}

impl Context<'_> {
    // Adds the rows of a call of a procedure of the group, which takes these words of the stack.
    fn member_rows(
        &self,
        site: u32,
        call: &Call,
        procedure: u32,
        words: &[u32],
        rows: &mut Rows,
    ) -> Result<(), Memory>
        requires site { site < sites_in self.now.body.now }
        requires words { IsTargetWithin (Member procedure words.now) }
        ensures { OnOk result (rows.new
            ≡ rows.old ++ call_rows (context_of self.now) site 0 call.now (Member procedure words.now)) }
    {
        let mut labels = register_arguments(self.alloc, call)?;
        push_words(words, &mut labels)?;
        self.passed(site, &Receiver::Member(procedure), &labels, rows)
    }

    // Adds what is passed to the instance of a scheme that a call of a site makes, where its signature covers so many argument
    // registers.
    fn passed_to_instance(
        &self,
        site: u32,
        index: u32,
        call: &Call,
        scheme: &Scheme,
        covered: Option<u8>,
        rows: &mut Rows,
    ) -> Result<(), Memory>
        requires site { site < sites_in self.now.body.now }
        ensures { OnOk result (rows.new
            ≡ rows.old ++ call_rows (context_of self.now) site index call.now (SchemeTarget scheme.now.base scheme.now.lines covered)) }
    {
        let ports = ports_of(self.alloc, scheme)?;
        let labels = port_arguments(self.alloc, &ports, covered)?;
        self.passed(site, &Receiver::Instance(index), &labels, rows)
    }

    // Adds the rows of a call of what is known of a pointer: it is code, and takes what is passed.
    fn pointer_rows(
        &self,
        site: u32,
        call: &Call,
        held: Option<Side>,
        rows: &mut Rows,
    ) -> Result<(), Memory>
        requires site { site < sites_in self.now.body.now }
        ensures { OnOk result (rows.new ≡ rows.old ++ pointer_call (context_of self.now) site call.now held) }
    {
        match held {
            Some(Side::Variable(term)) => {
                let labels = register_arguments(self.alloc, call)?;
                rows.push(Row::Up(term.copy()?, self.constant(Role::Code)))?;
                self.passed(site, &Receiver::Pointer(&term), &labels, rows)
            }
            Some(Side::Code) | None => Ok(()),
        }
    }

    // Adds the rows of a call of a site.
    fn call_rows(
        &self,
        site: u32,
        index: u32,
        call: &Call,
        target: Target<'_>,
        rows: &mut Rows,
    ) -> Result<(), Memory>
        requires site { site < sites_in self.now.body.now }
        requires target { IsTargetWithin (target_of target) }
        ensures { OnOk result (rows.new
            ≡ rows.old ++ call_rows (context_of self.now) site index call.now (target_of target.entry)) }
    {
        match target {
            Target::Member { procedure, words } => {
                self.member_rows(site, call, procedure, words, rows)
            }
            Target::Scheme { scheme, covered } => {
                self.passed_to_instance(site, index, call, scheme, covered, rows)
            }
            Target::Held(register) => {
                let held = self.use_side(site, register)?;
                self.pointer_rows(site, call, held, rows)
            }
            Target::Unknown => Ok(()),
        }
    }

    // Adds what a call in which the procedure goes on for good gives as a result, if it gives it, into the procedure's own.
    fn tail_result(
        &self,
        site: u32,
        index: u32,
        call: &Call,
        result_number: u8,
        rows: &mut Rows,
    ) -> Result<(), Memory>
        requires site { site < sites_in self.now.body.now }
        requires register { HasCallRegister call.now }
        requires result_number { result_number ≤ 1 }
        ensures { OnOk result (rows.new
            ≡ rows.old ++ tail_result (context_of self.now) site index (linked_call self.now.outside call.now) result_number) }
    {
        if !call.gives_result(result_number) {
            return Ok(());
        }
        let target = self.target(call);
        let held = self.held_side(site, target)?;
        let named = names_result(target, result_number);
        let side = self.result_by(site, index, result_number, call, target, named, held)?;
        let to = Term::port(self.alloc, self.procedure, Label::Out(result_number))?;
        self.flow_or_exists(side, to, rows)
    }

    // Adds both results of such a call.
    fn both_results(
        &self,
        site: u32,
        index: u32,
        call: &Call,
        items: &mut Vec<Item>,
    ) -> Result<(), Memory>
        requires site { site < sites_in self.now.body.now }
        requires register { HasCallRegister call.now }
        ensures { OnOk result (items.new.items
            ≡ items.old.items ++ told (both_results (context_of self.now) site index (linked_call self.now.outside call.now))) }
    {
        let mut rows = Rows::new(self.alloc);
        self.tail_result(site, index, call, 0, &mut rows)?;
        self.tail_result(site, index, call, 1, &mut rows)?;
        push_told(rows, items)
    }

    // Adds the items of a call of a site.
    fn call_by(
        &self,
        site: u32,
        index: u32,
        call: &Call,
        items: &mut Vec<Item>,
    ) -> Result<(), Memory>
        requires site { site < sites_in self.now.body.now }
        requires register { HasCallRegister call.now }
        ensures { OnOk result (items.new.items
            ≡ items.old.items ++ call_by (context_of self.now) site index call.now (target_in self.now.outside call.now)) }
    {
        let target = self.target(call);
        let mut rows = Rows::new(self.alloc);
        self.call_rows(site, index, call, target, &mut rows)?;
        push_place(site, index, target, items)?;
        push_told(rows, items)
    }

    // Whether the call of a number comes back: the first one, where the site is a call.
    fn comes_back(&self, site: u32, index: u32) -> bool
        ensures { result ≡ comes_back (context_of self.now) site index }
    {
        self.is_call_site(site) && index == 0
    }

    // Adds the items of a call of a site, and its results where it doesn't come back.
    fn call_items(
        &self,
        site: u32,
        index: u32,
        call: &Call,
        items: &mut Vec<Item>,
    ) -> Result<(), Memory>
        requires site { site < sites_in self.now.body.now }
        requires register { HasCallRegister call.now }
        ensures { OnOk result (items.new.items
            ≡ items.old.items ++ call_items (context_of self.now) site index (linked_call self.now.outside call.now)) }
    {
        self.call_by(site, index, call, items)?;
        if self.comes_back(site, index) {
            return Ok(());
        }
        self.both_results(site, index, call, items)
    }

    /// Adds the items of the calls of a site. The error is out of memory.
    pub(crate) fn calls(&self, site: u32, items: &mut Vec<Item>) -> Result<(), Memory>
        requires { site < sites_in self.now.body.now }
        ensures { OnOk result (items.new.items
            ≡ items.old.items ++ calls_from (context_of self.now) site 0 (linked_at (context_of self.now) site)) }
    {
        let calls = self.calls_at(site);
        for (index, call) in calls.iter().enumerate() {
            let Ok(number) = u32::try_from(index) else {
                return Err(AllocError);
            };
            self.call_items(site, number, call, items)?;
        }
        Ok(())
    }
}
