// Headers that are read in part.
ghost use Rattle.std.specs.Prelude.{◌≡◌, ◌↔◌, ◌<◌, ◌≤◌, ◌^◌, [], All, IsTrue, IfOk, OnOk, length};
ghost use Rattle.rt_cdecl.specs.Types.{IsField, IsTypedef, IsWide};
ghost use Rattle.rt_cdecl.specs.Rows.{Typedef, Named, Opened, Gap, Member, Pair, Half, Stated};
ghost use Rattle.rt_cdecl.specs.GoodDecls.{IsArgument, arg_types};
ghost use Rattle.rt_cdecl.specs.Inside.GoodRows.{IsReturned, IsRow};
ghost use Rattle.rt_cdecl.specs.Inside.Endings.{CanEnd, Drops, FitFunctions, FitStruct, HasPresent, HasRoom, IsFew, IsReached};
ghost use Rattle.rt_cdecl.specs.Inside.Drafts.{Fits, IsListed, IsWhole, MayReturn, MayState};
ghost use Rattle.rt_cdecl.specs.Inside.Drafts.{closed_stage, closed_structs, decls_of, line_types, no_parts, stated_of};
ghost use Rattle.rt_cdecl.specs.Inside.Steps.{HasMore, IsSound, parts_of};

use crate::declarations::{CArgs, CField, CFields, CFunction, CStruct, CStructs, CType, Decls};
use crate::kinds::{Counts, Kinds};
use crate::listed::{AscendingFunctions, Typedefs};
use crate::row::{Returns, Row};
use crate::stage::Stage;
use rt_base::Memory;
use rt_lines::Loc;
use std::alloc::{AllocError, Global};
use std::mem;

// A header that is read in part.
#[derive(Drop)]
pub struct Draft {
    typedefs: Typedefs,
    // The types that are listed and not yet used.
    left: Kinds,
    named: u64,
    structs: CStructs,
    functions: AscendingFunctions,
    stage: Stage,
}

impl Draft {
    // The draft of nothing read. It takes no memory, and keeps the allocator.
    pub fn new(alloc: Global) -> Draft
        ensures parts { parts_of result ≡ no_parts }
        ensures left { result.left ≡ [] }
    {
        Draft {
            typedefs: Typedefs::new(alloc),
            left: Kinds::new(alloc),
            named: 0,
            structs: CStructs::new(alloc),
            functions: AscendingFunctions::new(alloc),
            stage: Stage::Idle,
        }
    }

    // Whether a type is listed, if it has a line, and leads to a struct that was named.
    fn lists(&self, kind: &CType) -> bool
        ensures { IsTrue result ↔ IsListed (parts_of self.now) kind.now }
    {
        match kind {
            CType::Pointer(number) => u64::from(*number) < self.named,
            _ => self.typedefs.has(kind),
        }
    }

    // Whether those of arguments are.
    fn lists_args(&self, args: &[(Loc, CType)]) -> bool
        ensures { IsTrue result ↔ All (IsListed (parts_of self.now)) (arg_types args.now) }
    {
        for (_, kind) in args {
            if !self.lists(kind) {
                return false;
            }
        }
        true
    }

    // Whether the line of a type may follow.
    fn may_typedef(&self, kind: &CType) -> Result<bool, Memory>
        ensures { IfOk result (λ may. IsTrue may ↔ Fits (parts_of self.now) (Typedef kind.now)) }
    {
        if !self.stage.is_idle() || self.named != 0 || !self.functions.is_empty() {
            return Ok(false);
        }
        self.typedefs.may_follow(kind)
    }

    // Whether the name of a struct may follow.
    fn may_name(&self, number: u32) -> bool
        ensures { IsTrue result ↔ Fits (parts_of self.now) (Named number) }
    {
        self.stage.is_idle()
            && self.structs.items().is_empty()
            && self.functions.is_empty()
            && u64::from(number) == self.named
    }

    // Whether the first line of a struct may follow.
    fn may_open(&self, number: u32) -> bool
        ensures { IsTrue result ↔ Fits (parts_of self.now) (Opened number) }
    {
        self.stage.is_idle()
            && self.functions.is_empty()
            && number as usize == self.structs.len()
            && u64::from(number) < self.named
    }

    // Whether a function of the number may follow the structs and functions.
    fn may_state(&self, number: u32) -> bool
        ensures { IsTrue result ↔ MayState (parts_of self.now) number }
    {
        self.structs.len() as u64 == self.named && self.functions.may_follow(number)
    }

    // Whether a function's line may follow that gives this.
    fn may_return(&self, returns: &Returns, number: u32) -> bool
        ensures { IsTrue result ↔ MayReturn (parts_of self.now) self.now.stage returns.now number }
    {
        match (&self.stage, returns) {
            (Stage::Idle, Returns::Nothing) => self.may_state(number),
            (Stage::Idle, Returns::Value(kind)) => self.may_state(number) && self.lists(kind),
            (Stage::PairClosed(begun, _, _), Returns::Both) => number == *begun,
            _ => false,
        }
    }

    // Whether the line may follow. The error is out of memory.
    pub fn may(&self, row: &Row) -> Result<bool, Memory>
        ensures { IfOk result (λ may. IsTrue may ↔ Fits (parts_of self.now) row.now) }
    {
        match row {
            Row::Typedef(kind) => self.may_typedef(kind),
            Row::Named(number) => Ok(self.may_name(*number)),
            Row::Opened(number) => Ok(self.may_open(*number)),
            Row::Gap(offset, count) => Ok(self.stage.may_gap(*offset, *count)),
            Row::Member(field) => Ok(self.stage.begins_at(field.offset) && self.lists(&field.kind)),
            Row::Closed => Ok(self.stage.may_close()),
            Row::Pair(number) => Ok(self.stage.is_idle() && self.may_state(*number)),
            Row::Half(r, kind) => Ok(self.stage.may_half(*r, kind) && self.lists(kind)),
            Row::Stated(returns, number, args) => {
                Ok(self.may_return(returns, *number) && self.lists_args(args.items()))
            }
        }
    }

    // Adds a line, which may follow. When out of memory, what was read may be lost.
    pub fn add(&mut self, row: Row) -> Result<(), Memory>
        requires good { IsRow row }
        requires fits { Fits (parts_of self.old) row }
        ensures { OnOk result (HasMore self.old row self.new) }
    {
        match row {
            Row::Typedef(kind) => self.add_typedef(kind),
            Row::Named(number) => {
                self.add_name(number);
                Ok(())
            }
            Row::Opened(number) => {
                self.add_struct(number);
                Ok(())
            }
            Row::Gap(offset, count) => {
                self.add_gap(offset, count);
                Ok(())
            }
            Row::Member(field) => self.add_field(field),
            Row::Closed => self.add_end(),
            Row::Pair(number) => {
                self.add_pair(number);
                Ok(())
            }
            Row::Half(r, kind) => {
                self.add_half(r, kind);
                Ok(())
            }
            Row::Stated(returns, number, args) => self.add_function(returns, number, args),
        }
    }

    // Adds the line of a type.
    fn add_typedef(&mut self, kind: CType) -> Result<(), Memory>
        requires { IsTypedef kind }
        ensures { OnOk result (HasMore self.old (Typedef kind) self.new) }
    {
        let alloc = self.typedefs.allocator();
        self.left.add(alloc, &kind)?;
        let typedefs = mem::replace(&mut self.typedefs, Typedefs::new(alloc));
        self.typedefs = typedefs.with(kind)?;
        Ok(())
    }

    // Adds the name of a struct.
    fn add_name(&mut self, number: u32)
        requires { Fits (parts_of self.old) (Named number) }
        ensures { HasMore self.old (Named number) self.new }
    {
        self.named = u64::from(number) + 1;
    }

    // Adds the first line of a struct.
    fn add_struct(&mut self, number: u32)
        ensures { HasMore self.old (Opened number) self.new }
    {
        let fields = CFields::new(self.structs.allocator());
        self.stage = Stage::InStruct(fields, 0, false);
    }

    // Adds a gap.
    fn add_gap(&mut self, offset: u32, count: u32)
        requires { Fits (parts_of self.old) (Gap offset count) }
        ensures { HasMore self.old (Gap offset count) self.new }
    {
        self.stage.add_gap(offset, count);
    }

    // Adds a field.
    fn add_field(&mut self, field: CField) -> Result<(), Memory>
        requires { IsField field }
        ensures { OnOk result (HasMore self.old (Member field) self.new) }
    {
        self.left.remove(&field.kind);
        self.stage.add_field(field)
    }

    // Adds the end of a struct or of a pair.
    fn add_end(&mut self) -> Result<(), Memory>
        ensures { OnOk result (HasMore self.old Row.Closed self.new) }
    {
        let stage = mem::replace(&mut self.stage, Stage::Idle);
        self.stage = close(&mut self.structs, stage)?;
        Ok(())
    }

    // Adds the first line of a pair.
    fn add_pair(&mut self, number: u32)
        ensures { HasMore self.old (Pair number) self.new }
    {
        self.stage = Stage::InPair(number);
    }

    // Adds a result of a pair.
    fn add_half(&mut self, r: u32, kind: CType)
        requires { IsWide kind }
        ensures { HasMore self.old (Half r kind) self.new }
    {
        self.left.remove(&kind);
        let stage = mem::replace(&mut self.stage, Stage::Idle);
        self.stage = stage.with_half(kind);
    }

    // Adds a function's line.
    fn add_function(&mut self, returns: Returns, number: u32, args: CArgs) -> Result<(), Memory>
        requires { IsRow (Stated returns number args) }
        ensures { OnOk result (HasMore self.old (Stated returns number args) self.new) }
    {
        use_function(&mut self.left, &returns, args.items());
        let stage = mem::replace(&mut self.stage, Stage::Idle);
        self.functions
            .push(function_of(stage, returns, number, args))
    }

    // Whether a type of something can be written that is 32 bits wide.
    fn has_present(&self) -> bool
        ensures { IsTrue result ↔ HasPresent (parts_of self.now) }
    {
        self.named > 0 || self.typedefs.has_ints()
    }

    // Whether functions of this number and greater ones have room for the types that are left, and for so many more.
    fn fit_functions(&self, left: Counts, number: u64, taken: u64) -> bool
        requires number { number ≤ 2 ^ 32 }
        requires taken { taken ≤ 2 }
        requires few { IsFew left }
        ensures { IsTrue result ↔ FitFunctions (parts_of self.now) left number taken }
    {
        let wide = left.ints + u64::from(left.unused) + taken;
        left.chars == 0
            && left.shorts == 0
            && wide <= 16394 * (4294967296 - number)
            && (!left.unused || self.has_present())
    }

    // Whether what can still be written has room for the types that are left.
    fn has_room(&self, left: Counts) -> bool
        requires few { IsFew left }
        requires structs { length self.now.structs ≤ 2 ^ 32 }
        ensures { IsTrue result ↔ HasRoom (parts_of self.now) left }
    {
        let structs = self.structs.len() as u64;
        match &self.stage {
            Stage::Idle => {
                structs < self.named
                    || (self.named == 0 && self.functions.is_empty())
                    || self.fit_functions(left, self.functions.least(), 0)
            }
            Stage::InStruct(_, from, _) => structs + 1 < self.named || fit_struct(*from, left),
            Stage::InPair(number) => {
                self.has_present() && self.fit_functions(left, u64::from(*number), 0)
            }
            Stage::HalfRead(number, _) => {
                self.has_present() && self.fit_functions(left, u64::from(*number), 1)
            }
            Stage::BothRead(number, _, _) | Stage::PairClosed(number, _, _) => {
                self.fit_functions(left, u64::from(*number), 2)
            }
        }
    }

    // Whether lines can follow that make what was read a header: whether all types that are listed can be used.
    pub fn can_end(&self) -> bool
        requires sound { IsSound self.now }
        requires reached { IsReached (parts_of self.now) }
        requires few { length self.now.typedefs ≤ 2 ^ 30 }
        ensures { IsTrue result ↔ CanEnd (parts_of self.now) }
    {
        self.has_room(self.left.counts())
    }

    // Whether what was read is a whole header.
    pub fn is_whole(&self) -> bool
        requires { IsSound self.now }
        ensures { IsTrue result ↔ IsWhole (parts_of self.now) }
    {
        self.stage.is_idle() && self.structs.len() as u64 == self.named && self.left.is_empty()
    }

    // The declarations, where what was read is a whole header.
    pub fn into_decls(self) -> Decls
        ensures { result ≡ decls_of (parts_of self) }
    {
        Decls {
            typedefs: self.typedefs.into_list(),
            structs: self.structs,
            functions: self.functions.into_list(),
        }
    }
}

// Whether fields of the narrow types that are left fit into a struct from an end on.
fn fit_struct(from: u64, left: Counts) -> bool
    requires { IsFew left }
    ensures { IsTrue result ↔ FitStruct from left }
{
    (left.chars == 0 && left.shorts == 0)
        || (from <= 2147483648
            && left.chars + from <= 2147483648
            && left.chars + 2 * left.shorts + from <= 2147483649)
}

// Ends a struct or a pair: a struct goes to those before it.
fn close(structs: &mut CStructs, stage: Stage) -> Result<Stage, Memory>
    ensures moved { IfOk result (λ after. after ≡ closed_stage stage) }
    ensures added { OnOk result (structs.new ≡ closed_structs structs.old stage) }
{
    match stage {
        Stage::InStruct(fields, _, _) => {
            let Ok(number) = u32::try_from(structs.len()) else {
                return Err(AllocError);
            };
            structs.push(CStruct { number, fields })?;
            Ok(Stage::Idle)
        }
        Stage::BothRead(number, out0, out1) => Ok(Stage::PairClosed(number, out0, out1)),
        other => Ok(other),
    }
}

// Takes the types of a function's line out of those that are left.
fn use_function(left: &mut Kinds, returns: &Returns, args: &[(Loc, CType)])
    requires returned { IsReturned returns.now }
    requires args { All IsArgument args.now }
    ensures { Drops left.old (line_types returns.now args.now) left.new }
{
    left.remove_args(args);
    if let Returns::Value(kind) = returns {
        left.remove(kind);
    }
}

// The function that a line states, after the lines of its pair where it has one.
fn function_of(stage: Stage, returns: Returns, number: u32, args: CArgs) -> CFunction
    ensures { result ≡ stated_of stage returns number args }
{
    let (out0, out1) = match (stage, returns) {
        (Stage::PairClosed(_, out0, out1), _) => (out0, out1),
        (_, Returns::Value(kind)) => (kind, CType::Unused),
        _ => (CType::Unused, CType::Unused),
    };
    CFunction {
        number,
        args,
        out0,
        out1,
    }
}
