// The sides of the results of calls.
ghost use Rattle.std.specs.Prelude.{◌≡◌, ◌<◌, ◌≤◌, ◌&&◌, nat_le, ◌∷◌, [], ℕ, Option, IfOk, false, slice_index_or};
ghost use Rattle.rt_body.specs.Told.{sites_in};
ghost use Rattle.rt_liveness.specs.Calls.{HasCallRegister};
ghost use Rattle.rt_table.specs.Inside.Parts.{IsOutcome, IsTargetWithin, held_side, named_results, names_result, result_of_calls, uses_by};
ghost use Rattle.rt_table.specs.Table.{def_written, if_first, pointer_result, result_by, unknown_result, written_by, written_side};
ghost use Rattle.rt_table.specs.Inside.Told.{context_of, linked_call, target_in, target_of};
ghost use Rattle.rt_table.specs.declared.side.Side.{Side as TheSide};

use crate::context::Context;
use crate::side::Side;
use crate::target::Target;
use crate::traced::Traced;
use rt_base::Memory;
use rt_lines::Label;
use rt_liveness::Call;
use rt_rows::{Name, Term};
use rt_track::Value;

/// Whether the scheme that a target is names the result of a number.
pub(crate) fn names_result(target: Target<'_>, result_number: u8) -> bool
    ensures { result ≡ names_result (target_of target.entry) result_number }
{
    match target {
        Target::Scheme { scheme, .. } => scheme.names(Label::Out(result_number)),
        Target::Member { .. } => false,
        Target::Held(_) => false,
        Target::Unknown => false,
    }
}

// Of what is said of both results, that of the result of a number.
fn named_of(named: [bool; 2], result_number: u8) -> bool
    requires { result_number ≤ 1 }
    ensures { result ≡ slice_index_or named result_number false }
{
    named[usize::from(result_number)]
}

// Whether a register is that of a result, a0 or a1.
fn is_result(register: u8) -> bool
    ensures { result ≡ (nat_le 10 register && nat_le register 11) }
{
    10 <= register && register <= 11
}

impl Context<'_> {
    // What the result of a call of which nothing is known is.
    fn unknown_result(&self, site: u32, call: u32) -> Side
        ensures { result ≡ unknown_result (context_of self.now) site call }
    {
        let name = Name::Result {
            procedure: self.procedure,
            site,
            call,
        };
        Side::Variable(Term::named(self.alloc, name))
    }

    // The result in a0 of a call of what a side is.
    fn pointer_result(&self, site: u32, call: u32, called: Option<Side>) -> Result<Side, Memory>
        ensures { IfOk result (λ side. side ≡ pointer_result (context_of self.now) site call called) }
    {
        match called {
            Some(Side::Variable(term)) => Ok(Side::Variable(term.along(&[Label::Out(0)])?)),
            Some(Side::Code) | None => Ok(self.unknown_result(site, call)),
        }
    }

    // The side of what the register holds that a target goes through.
    pub(crate) fn held_side(&self, site: u32, target: Target<'_>) -> Result<Option<Side>, Memory>
        requires site { site < sites_in self.now.body.now }
        requires target { IsTargetWithin (target_of target) }
        ensures { IfOk result (λ side. side ≡ held_side (context_of self.now) site (target_of target.entry)) }
    {
        match target {
            Target::Held(register) => self.use_side(site, register),
            _ => Ok(None),
        }
    }

    // The result of a number of a call of a site, where `named` says whether the scheme that the target may be names it, and the
    // register that the call may go through holds something of this side.
    pub(crate) fn result_by(
        &self,
        site: u32,
        index: u32,
        result_number: u8,
        call: &Call,
        target: Target<'_>,
        named: bool,
        held: Option<Side>,
    ) -> Result<Option<Side>, Memory>
        requires number { result_number ≤ 1 }
        requires named { named ≡ names_result (target_of target) result_number }
        ensures { IfOk result (λ side. side
            ≡ result_by (context_of self.now) (λ (s r : ℕ). held) site index result_number call.now (target_of target.entry)) }
    {
        let label = Label::Out(result_number);
        match target {
            Target::Member { procedure, .. } => {
                if !call.gives_result(result_number) {
                    return Ok(None);
                }
                let port = Term::port(self.alloc, procedure, label)?;
                Ok(Some(Side::Variable(port)))
            }
            Target::Scheme { .. } => {
                if !named {
                    return Ok(None);
                }
                Ok(Some(Side::Variable(self.port_of(site, index, label))))
            }
            Target::Held(_) => {
                if result_number != 0 {
                    return Ok(None);
                }
                let side = self.pointer_result(site, index, held)?;
                Ok(Some(side))
            }
            Target::Unknown => {
                if result_number != 0 {
                    return Ok(None);
                }
                Ok(Some(self.unknown_result(site, index)))
            }
        }
    }

    // What the side of what a site wrote into a register comes to.
    fn traced(&self, site: u32, register: u8) -> Result<Traced, Memory>
        ensures { IfOk result (IsOutcome (context_of self.now) site
            (λ (written : ℕ → ℕ → Option TheSide). written_side (context_of self.now) (uses_by (context_of self.now) written) site
            register)) }
    {
        if !self.is_call_site(site) {
            let written = Side::Variable(self.definition(site, register));
            return Ok(Traced::Known(Some(written)));
        }
        match self.calls_at(site).first() {
            Some(call) => self.traced_call(site, register, call, self.named_at(site)),
            None => Ok(Traced::Known(None)),
        }
    }

    // What the side of what the first call of a site wrote into a register comes to, where `named` says which results the scheme names
    // by which the call is stated.
    fn traced_call(
        &self,
        site: u32,
        register: u8,
        call: &Call,
        named: [bool; 2],
    ) -> Result<Traced, Memory>
        requires site { site < sites_in self.now.body.now }
        requires register { HasCallRegister call.now }
        requires named { named ≡ named_results (linked_call self.now.outside call.now ∷ []) }
        ensures { IfOk result (IsOutcome (context_of self.now) site
            (λ (written : ℕ → ℕ → Option TheSide).
            written_by (context_of self.now) (uses_by (context_of self.now) written) site register
            (linked_call self.now.outside call.now ∷ []))) }
    {
        if is_result(register) {
            self.traced_result(site, register - 10, call, named)
        } else {
            Ok(Traced::Known(None))
        }
    }

    // What the side of a result of the first call of a site comes to.
    fn traced_result(
        &self,
        site: u32,
        result_number: u8,
        call: &Call,
        named: [bool; 2],
    ) -> Result<Traced, Memory>
        requires site { site < sites_in self.now.body.now }
        requires register { HasCallRegister call.now }
        requires result_number { result_number ≤ 1 }
        requires named { named ≡ named_results (linked_call self.now.outside call.now ∷ []) }
        ensures { IfOk result (IsOutcome (context_of self.now) site
            (λ (written : ℕ → ℕ → Option TheSide). result_by (context_of self.now) (uses_by (context_of self.now) written) site 0
            result_number call.now (target_in self.now.outside call.now))) }
    {
        let target = self.target(call);
        match target {
            Target::Held(register) => self.traced_pointer(site, result_number, register),
            _ => {
                let names = named_of(named, result_number);
                let side = self.result_by(site, 0, result_number, call, target, names, None)?;
                Ok(Traced::Known(side))
            }
        }
    }

    // What the side of a result of a call of what a register holds comes to.
    fn traced_pointer(&self, site: u32, result_number: u8, register: u8) -> Result<Traced, Memory>
        requires site { site < sites_in self.now.body.now }
        requires register { register < 32 }
        ensures { IfOk result (IsOutcome (context_of self.now) site
            (λ (written : ℕ → ℕ → Option TheSide). if_first result_number
            (pointer_result (context_of self.now) site 0 (uses_by (context_of self.now) written site register)))) }
    {
        if result_number != 0 {
            return Ok(Traced::Known(None));
        }
        let value = self.body.value_at(site, register);
        match value {
            Value::At(from, written, offset) => {
                if offset == 0 {
                    Ok(Traced::Through {
                        site: from,
                        register: written,
                    })
                } else {
                    Ok(Traced::Known(Some(self.unknown_result(site, 0))))
                }
            }
            _ => {
                let called = self.plain_side(self.merge_name(site, register), value)?;
                let side = self.pointer_result(site, 0, called)?;
                Ok(Traced::Known(Some(side)))
            }
        }
    }

    // The side of the result of the first of some calls, each of which calls the result of the next, and the last one what this side is.
    fn result_of_calls(
        &self,
        mut calls: Vec<u32>,
        side: Option<Side>,
    ) -> Result<Option<Side>, Memory>
        ensures { IfOk result (λ found. found ≡ result_of_calls (context_of self.now) calls.items side) }
    {
        let mut side = side;
        while let Some(site) = calls.pop() {
            side = Some(self.pointer_result(site, 0, side)?);
        }
        Ok(side)
    }

    // The side of what a site wrote into a register. Where a call calls the result of another one, and so on, it goes through as many
    // of them as there are sites at most.
    pub(crate) fn at_side(&self, site: u32, register: u8) -> Result<Option<Side>, Memory>
        ensures { IfOk result (λ side. side ≡ def_written (context_of self.now) site register) }
    {
        let mut calls = Vec::new(self.alloc);
        let mut writer = site;
        let mut written = register;
        for _ in 0..self.body.actions().len() {
            match self.traced(writer, written)? {
                Traced::Known(side) => return self.result_of_calls(calls, side),
                Traced::Through { site, register } => {
                    calls.push(writer)?;
                    writer = site;
                    written = register;
                }
            }
        }
        self.result_of_calls(calls, None)
    }
}
