// Whether a judgement is derivable.
ghost use Rattle.std.specs.Prelude.{◌≡◌, ◌<◌, ◌^◌, ◌⊎◌, IfErr, IfOk, MatchResult, length};
ghost use Rattle.rt_texts.specs.Goods.{IsJudge};
ghost use Rattle.rt_texts.specs.Readings.{IsNoText};
ghost use Rattle.rt_texts.specs.Texts.{judge_text};
ghost use Rattle.rt_entail.specs.Entailment.{IsRefusal, IsAnswer};

use crate::fault::EntailFault;
use crate::file::read_file;
use rt_lines::{Judge, Names, Order};
use rt_sat::derives;
use rt_texts::{TextFault, read_judge};
use std::alloc::Global;

// The judgement of a text.
fn read_judgement(alloc: Global, judgement: &[u8], names: &Names) -> Result<Judge, EntailFault>
    ensures { MatchResult result (λ j. IsJudge (length names.now) j × (judge_text names.now j ≡ judgement.now))
        (λ e. (e ≡ EntailFault.Memory) ⊎ ((e ≡ EntailFault.BadJudgement) ×
        IsNoText (IsJudge (length names.now)) (judge_text names.now) judgement.now)) }
{
    match read_judge(alloc, judgement, names) {
        Ok(judge) => Ok(judge),
        Err(TextFault::BadText(_)) => Err(EntailFault::BadJudgement),
        Err(TextFault::Memory) => Err(EntailFault::Memory),
    }
}

/// Whether the judgement is derivable from the lines of the text, with the order of the names' numbers. The first of these
/// that holds is the error; out of memory may come in its place.
///
/// - The text has a bad line: each line has a line end, and its constant is one of the names.
/// - The judgement is none: it is of the form `var X`, `X <= Y`, `K <= X` or `X <= K`, with a constant K of the names.
pub fn entails(
    alloc: Global,
    text: &[u8],
    judgement: &[u8],
    names: &Names,
    order: &Order,
) -> Result<bool, EntailFault>
    requires text { length text.now < 2 ^ 32 }
    requires counted { order.now.count ≡ length names.now }
    ensures refused { IfErr result (IsRefusal names.now text.now judgement.now) }
    ensures answered { IfOk result (IsAnswer order.now names.now text.now judgement.now) }
{
    let lines = match read_file(alloc, text, names) {
        Ok(lines) => lines,
        Err(TextFault::BadText(place)) => return Err(EntailFault::BadLine(place)),
        Err(TextFault::Memory) => return Err(EntailFault::Memory),
    };
    let judge = match read_judgement(alloc, judgement, names) {
        Ok(judge) => judge,
        Err(fault) => return Err(fault),
    };
    let yes = derives(alloc, lines.items(), order, &judge)?;
    Ok(yes)
}
