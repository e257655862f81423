// Words of the frame itself: which definitions of their bytes reach a site, and what these put there.
ghost use Rattle.std.specs.Prelude.{◌≡◌, ◌<◌, ◌≤◌, ◌++◌, pos, ◌+ℤ◌, IfOk, OnOk, flat_map};
ghost use Rattle.rt_body.specs.Readings.{action_at};
ghost use Rattle.rt_body.specs.Told.{reading_of, sites_in};
ghost use Rattle.rt_frame.specs.Frames.{is_frame};
ghost use Rattle.rt_table.specs.Table.{byte_defs, def_below, load_word, merged, stored_side, word_defs, word_flow};
ghost use Rattle.rt_table.specs.Inside.Told.{context_of};

use crate::context::Context;
use crate::side::Side;
use crate::variables::is_stack_word;
use rt_base::Memory;
use rt_body::{Action, Width};
use rt_flow::Def;
use rt_frame::questions::address_value;
use rt_rows::{Row, Rows, Term};
use rt_track::Value;
use std::alloc::Global;

// The first byte of the frame among locations: those of bytes at positive offsets follow it.
const FRAME: i64 = 4_294_967_296;

// Whether a definition comes before another: Entry first, then sites ascending.
fn is_below(first: Def, second: Def) -> bool
    ensures { result ≡ def_below first second }
{
    match (first, second) {
        (_, Def::Entry) => false,
        (Def::Entry, Def::At(_)) => true,
        (Def::At(first), Def::At(second)) => first < second,
    }
}

// The definitions of two lists in order, each once, in order.
fn merged(alloc: Global, left: &[Def], right: &[Def]) -> Result<Vec<Def>, Memory>
    ensures { IfOk result (λ all. all.items ≡ merged left.now right.now) }
{
    let mut all = Vec::new(alloc);
    let mut i = 0;
    let mut j = 0;
    while i < left.len() && j < right.len() {
        let first = left[i];
        let second = right[j];
        if is_below(first, second) {
            all.push(first)?;
            i += 1;
        } else if is_below(second, first) {
            all.push(second)?;
            j += 1;
        } else {
            all.push(first)?;
            i += 1;
            j += 1;
        }
    }
    all.extend_from_slice(&left[i..])?;
    all.extend_from_slice(&right[j..])?;
    Ok(all)
}

// Whether a value is the frame at an offset.
fn is_frame(offset: i32, value: Value) -> bool
    ensures { result ≡ is_frame offset value }
{
    match value {
        Value::Frame(start) => start == offset,
        _ => false,
    }
}

impl Context<'_> {
    // The definitions that reach a site of one of the bytes of a word at an offset of the frame.
    fn byte_defs(&self, site: u32, offset: i32, byte: u8) -> &[Def]
        requires site { site < sites_in self.now.body.now }
        requires byte { byte < 4 }
        ensures { result.now ≡ byte_defs (context_of self.now) site offset byte }
    {
        self.frame
            .reaching(site, FRAME + (i64::from(offset) + i64::from(byte)))
    }

    // The definitions that reach a site of any of the bytes, each once, in order.
    fn word_defs(&self, site: u32, offset: i32) -> Result<Vec<Def>, Memory>
        requires { site < sites_in self.now.body.now }
        ensures { IfOk result (λ defs. defs.items ≡ word_defs (context_of self.now) site offset) }
    {
        let low = merged(
            self.alloc,
            self.byte_defs(site, offset, 0),
            self.byte_defs(site, offset, 1),
        )?;
        let high = merged(
            self.alloc,
            self.byte_defs(site, offset, 2),
            self.byte_defs(site, offset, 3),
        )?;
        merged(self.alloc, low.as_slice(), high.as_slice())
    }

    // The side of what a site stores as a word at an offset of the frame; there is none where it stores anything else.
    fn stored_side(&self, offset: i32, site: u32) -> Result<Option<Side>, Memory>
        ensures { IfOk result (λ side. side ≡ stored_side (context_of self.now) offset site
            (action_at (reading_of self.now.body.now).actions site)) }
    {
        match self.body.actions().get(site as usize) {
            Some(
                Action::Store {
                    width: Width::Word,
                    data,
                    address,
                },
            ) => {
                if is_frame(offset, address_value(self.body, site, *address)) {
                    self.use_side(site, *data)
                } else {
                    Ok(None)
                }
            }
            _ => Ok(None),
        }
    }

    // Adds what a definition of a byte of the word at an offset brings into a variable: the argument that the caller passed
    // there, or what was stored.
    fn word_flow(&self, offset: i32, to: Term, def: Def, rows: &mut Rows) -> Result<(), Memory>
        ensures { OnOk result (rows.new ≡ rows.old ++ word_flow (context_of self.now) offset to def) }
    {
        match def {
            Def::Entry => {
                if !is_stack_word(offset) {
                    return Ok(());
                }
                let argument = self.stack_argument(offset)?;
                rows.push(Row::Sub(argument, to))
            }
            Def::At(site) => {
                let side = self.stored_side(offset, site)?;
                self.flow(side, to, rows)
            }
        }
    }

    // Adds what the definitions of the bytes of a word at an offset bring into a variable.
    pub(crate) fn word_flows(
        &self,
        site: u32,
        offset: i32,
        to: &Term,
        rows: &mut Rows,
    ) -> Result<(), Memory>
        requires { site < sites_in self.now.body.now }
        ensures { OnOk result (rows.new ≡ rows.old ++
            flat_map (word_flow (context_of self.now) offset to.now) (word_defs (context_of self.now) site offset)) }
    {
        let defs = self.word_defs(site, offset)?;
        for def in &defs {
            self.word_flow(offset, to.copy()?, *def, rows)?;
        }
        Ok(())
    }

    // Adds what a load of a word at an offset of the frame itself reads: what was put there.
    pub(crate) fn load_word(
        &self,
        site: u32,
        to: u8,
        offset: i32,
        rows: &mut Rows,
    ) -> Result<(), Memory>
        requires { site < sites_in self.now.body.now }
        ensures { OnOk result (rows.new ≡ rows.old ++ load_word (context_of self.now) site to offset) }
    {
        if to == 0 {
            return Ok(());
        }
        let read = self.definition(site, to);
        self.word_flows(site, offset, &read, rows)
    }
}
