// What the lines of a header that were read stand in.
ghost use Rattle.std.specs.Prelude.{◌≡◌, ◌↔◌, IsTrue, OnOk};
ghost use Rattle.rt_cdecl.specs.Types.{bits_of};
ghost use Rattle.rt_cdecl.specs.Inside.Drafts.{BeginsAt, MayClose, MayGap, MayHalf, gapped_of, half_of, member_of};

use crate::declarations::{CField, CFields, CType};
use crate::goods::is_present;
use crate::printing::width;
use rt_base::Memory;

// What the lines that were read stand in.
#[derive(Drop)]
pub enum Stage {
    // Nothing.
    Idle,
    // A struct of these fields up to an end in bytes, and whether a gap was read after the last of them.
    InStruct(CFields, u64, bool),
    // The pair of the results of the function of this number.
    InPair(u32),
    // Such a pair, and its result in a0.
    HalfRead(u32, CType),
    // Such a pair, and both its results.
    BothRead(u32, CType, CType),
    // Such a pair with its end, before its function's line.
    PairClosed(u32, CType, CType),
}

impl Stage {
    // Whether it is nothing.
    pub fn is_idle(&self) -> bool
        ensures { IsTrue result ↔ (self.now ≡ Stage.Idle) }
    {
        matches!(self, Stage::Idle)
    }

    // Whether a gap of so many bytes at an offset may follow.
    pub fn may_gap(&self, offset: u32, count: u32) -> bool
        ensures { IsTrue result ↔ MayGap self.now offset count }
    {
        match self {
            Stage::InStruct(_, from, false) => {
                u64::from(offset) == *from
                    && count > 0
                    && u64::from(offset) + u64::from(count) < 2147483648
            }
            _ => false,
        }
    }

    // Whether a field may follow at an offset.
    pub fn begins_at(&self, offset: u32) -> bool
        ensures { IsTrue result ↔ BeginsAt self.now offset }
    {
        match self {
            Stage::InStruct(_, from, _) => u64::from(offset) == *from,
            _ => false,
        }
    }

    // Whether the end of a struct or of a pair may follow.
    pub fn may_close(&self) -> bool
        ensures { IsTrue result ↔ MayClose self.now }
    {
        matches!(
            self,
            Stage::InStruct(_, _, false) | Stage::BothRead(_, _, _)
        )
    }

    // Whether a result of a pair may follow.
    pub fn may_half(&self, r: u32, kind: &CType) -> bool
        ensures { IsTrue result ↔ MayHalf self.now r kind.now }
    {
        match self {
            Stage::InPair(_) => r == 0,
            Stage::HalfRead(_, _) => r == 1 && is_present(kind),
            _ => false,
        }
    }

    // Goes past a gap that may follow.
    pub fn add_gap(&mut self, offset: u32, count: u32)
        requires { MayGap self.old offset count }
        ensures { self.new ≡ gapped_of self.old count }
    {
        if let Stage::InStruct(_, from, gapped) = self {
            *from += u64::from(count);
            *gapped = true;
        }
    }

    // Adds a field to a struct.
    pub fn add_field(&mut self, field: CField) -> Result<(), Memory>
        ensures { OnOk result (self.new ≡ member_of self.old field) }
    {
        if let Stage::InStruct(fields, from, gapped) = self {
            let end = u64::from(field.offset) + u64::from(width(&field.kind));
            fields.push(field)?;
            *from = end;
            *gapped = false;
        }
        Ok(())
    }

    // After a result of a pair.
    pub fn with_half(self, kind: CType) -> Stage
        ensures { result ≡ half_of self kind }
    {
        match self {
            Stage::InPair(number) => Stage::HalfRead(number, kind),
            Stage::HalfRead(number, out0) => Stage::BothRead(number, out0, kind),
            other => other,
        }
    }
}
