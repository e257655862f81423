// How calls are stated, and those of sites.
ghost use Rattle.std.specs.Prelude.{◌≡◌, ◌<◌, [], All, IfOk, IsTrue, get_or, length, map, option_copied, slice_index_or};
ghost use Rattle.rt_body.specs.Symbols.{symbol_of};
ghost use Rattle.rt_body.specs.Told.{sites_in};
ghost use Rattle.rt_liveness.specs.Calls.{HasCallRegister};
ghost use Rattle.rt_liveness.specs.Programs.{args_at, signature_at};
ghost use Rattle.rt_scheme.specs.Instances.{IsInstance, instance_ports};
ghost use Rattle.rt_table.specs.Lists.{scheme_target, words_at};
ghost use Rattle.rt_table.specs.Inside.Parts.{IsTargetWithin, named_results};
ghost use Rattle.rt_table.specs.Table.{is_call_site, linked_at};
ghost use Rattle.rt_table.specs.Inside.Told.{context_of, known_in, linked_call, linked_of, program_in, procedure_target, target_in, target_of};
ghost use Rattle.rt_table.specs.Inside.Words.{AreStackWords};

use crate::context::{Context, Outside};
use crate::results::names_result;
use crate::target::Target;
use rt_base::{Memory, Sequence};
use rt_body::Action;
use rt_liveness::Call;
use rt_proc::Callee;
use rt_scheme::{Instance, Ports, Scheme, instantiate, laws};
use std::alloc::{AllocError, Global};

// By a scheme, where there is one, and how many argument registers a signature covers.
fn scheme_target(covered: Option<u8>, scheme: Option<&Scheme>) -> Target<'_>
    ensures target { target_of result ≡ scheme_target covered (option_copied scheme.entry) }
    ensures within { IsTargetWithin (target_of result) }
{
    match scheme {
        Some(scheme) => Target::Scheme { scheme, covered },
        None => Target::Unknown,
    }
}

/// The ports of the instance of a scheme whose existentials are numbered from 0 on, without its lines. The error is out of memory, as
/// for the instance.
pub(crate) fn ports_of(alloc: Global, scheme: &Scheme) -> Result<Ports, Memory>
    ensures { IfOk result (λ ports. ports ≡ instance_ports scheme.now.base scheme.now.lines 0) }
{
    laws::few_are_new();
    if scheme.lines.len() >= 2_147_483_648 {
        return Err(AllocError);
    }
    scheme.ports(alloc, 0)
}

/// The instance of a scheme whose existentials are numbered from 0 on. The error is out of memory; a scheme of 2^31 lines or more
/// wants more than there is.
pub(crate) fn instance_of(alloc: Global, scheme: &Scheme) -> Result<Instance, Memory>
    ensures { IfOk result (IsInstance scheme.now.base scheme.now.lines 0) }
{
    laws::few_are_new();
    if scheme.lines.len() >= 2_147_483_648 {
        return Err(AllocError);
    }
    instantiate(alloc, scheme, 0)
}

impl<'a> Outside<'a> {
    // The offsets of the words of the stack that the procedure of a number takes.
    fn words(&self, procedure: u32) -> &'a [u32]
        ensures words { result.now ≡ words_at (known_in self.now.facts.now) procedure }
        ensures stack { AreStackWords result.now }
    {
        match self.facts.frames.get(procedure as usize) {
            Some(framed) => framed.words.items(),
            None => &[],
        }
    }

    // The signature of the function outside that a symbol names, if there is one.
    fn signature(&self, symbol: u32) -> Option<&'a Scheme>
        ensures { option_copied result ≡ signature_at (program_in self.now.facts.now) symbol }
    {
        match self.facts.object.symbols().get(symbol as usize) {
            Some(symbol) => self.facts.sigs.find(symbol.name.items()),
            None => self.facts.sigs.find(b""),
        }
    }

    // How many argument registers the signature covers of the function outside that a symbol names, where it says so.
    fn covered(&self, symbol: u32) -> Option<u8>
        ensures { result ≡ args_at (program_in self.now.facts.now) symbol }
    {
        match self.facts.object.symbols().get(symbol as usize) {
            Some(symbol) => self.facts.sigs.args(symbol.name.items()),
            None => self.facts.sigs.args(b""),
        }
    }

    // How a call is stated.
    fn target(&self, call: &Call) -> Target<'a>
        requires register { HasCallRegister call.now }
        ensures target { target_of result ≡ target_in self.now call.now }
        ensures within { IsTargetWithin (target_of result) }
    {
        match call.callee {
            Callee::Proc(procedure) => self.procedure_target(procedure),
            Callee::Extern(symbol) => scheme_target(self.covered(symbol), self.signature(symbol)),
            Callee::Unknown(register) => {
                if call.is_plain {
                    Target::Held(register)
                } else {
                    Target::Unknown
                }
            }
        }
    }

    // How a procedure is stated: by its own variables, where it is of the group, else by its scheme.
    fn procedure_target(&self, procedure: u32) -> Target<'a>
        ensures target { target_of result ≡ procedure_target self.now procedure }
        ensures within { IsTargetWithin (target_of result) }
    {
        if self.members.contains(&procedure) {
            let words = self.words(procedure);
            Target::Member { procedure, words }
        } else {
            scheme_target(None, self.schemes.get(procedure))
        }
    }

    // The calls of the sites of the procedure of a number.
    pub(crate) fn calls(&self, number: u32) -> &'a [Sequence<Call>]
        requires within { number < length self.now.facts.now.calls }
        ensures calls { result.now ≡ get_or self.now.facts.now.calls number [] }
        ensures registers { All (All HasCallRegister) result.now }
    {
        self.facts.calls.items()[number as usize].items()
    }

    // Of results 0 and 1 of the first of some calls, whether the scheme names them by which it is stated.
    fn first_named(&self, calls: &[Call]) -> [bool; 2]
        requires registers { All HasCallRegister calls.now }
        ensures { result ≡ named_results (map (linked_call self.now) calls.now) }
    {
        match calls.first() {
            Some(call) => {
                let target = self.target(call);
                let first = names_result(target, 0);
                let second = names_result(target, 1);
                [first, second]
            }
            None => [false, false],
        }
    }

    /// Of the results of the first call of each site, whether the scheme names them by which it is stated. It is asked of each site once,
    /// since what a call gives may be used many times. The error is out of memory.
    pub(crate) fn named_results(
        &self,
        alloc: Global,
        calls: &[Sequence<Call>],
    ) -> Result<Vec<[bool; 2]>, Memory>
        requires registers { All (All HasCallRegister) calls.now }
        ensures { IfOk result (λ named. named.items ≡ map named_results (linked_of self.now calls.now)) }
    {
        let mut named = Vec::with_capacity(alloc, calls.len())?;
        for here in calls {
            named.push(self.first_named(here.items()))?;
        }
        Ok(named)
    }
}

impl<'a> Context<'a> {
    // Whether a site is a call.
    pub(crate) fn is_call_site(&self, site: u32) -> bool
        ensures is_call { result ≡ is_call_site (context_of self.now) site }
        ensures within { IsTrue result → site < sites_in self.now.body.now }
    {
        match self.body.actions().get(site as usize) {
            Some(Action::Call { .. }) => true,
            _ => false,
        }
    }

    // The calls of a site.
    pub(crate) fn calls_at(&self, site: u32) -> &'a [Call]
        ensures calls { result.now ≡ slice_index_or self.now.calls.now site [] }
        ensures registers { All HasCallRegister result.now }
    {
        match self.calls.get(site as usize) {
            Some(calls) => calls.items(),
            None => &[],
        }
    }

    // Of the results of the first call of a site, whether the scheme names them by which it is stated.
    pub(crate) fn named_at(&self, site: u32) -> [bool; 2]
        ensures { result ≡ named_results (linked_at (context_of self.now) site) }
    {
        match self.named.get(site as usize) {
            Some(named) => *named,
            None => [false, false],
        }
    }

    // How a call is stated.
    pub(crate) fn target(&self, call: &Call) -> Target<'a>
        requires register { HasCallRegister call.now }
        ensures target { target_of result ≡ target_in self.now.outside call.now }
        ensures within { IsTargetWithin (target_of result) }
    {
        self.outside.target(call)
    }
}
