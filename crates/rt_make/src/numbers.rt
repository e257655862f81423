// Numbers as bytes, little endian.
ghost use Rattle.std.specs.Prelude.{◌≡◌, ◌++◌, OnOk, replicate};
ghost use Rattle.rt_make.specs.Packed.{halves, words};

use rt_base::Memory;

// Appends half words.
#[tactic(auto, unfolding(crate::specs::Packed::half_bytes))]
pub(crate) fn push_halves(out: &mut Vec<u8>, numbers: &[u16]) -> Result<(), Memory>
    ensures { OnOk result (out.new.items ≡ out.old.items ++ halves numbers.now) }
{
    for number in numbers {
        out.extend_from_slice(&number.to_le_bytes())?;
    }
    Ok(())
}

// Appends words.
#[tactic(auto, unfolding(crate::specs::Packed::word_bytes))]
pub(crate) fn push_words(out: &mut Vec<u8>, numbers: &[u32]) -> Result<(), Memory>
    ensures { OnOk result (out.new.items ≡ out.old.items ++ words numbers.now) }
{
    for number in numbers {
        out.extend_from_slice(&number.to_le_bytes())?;
    }
    Ok(())
}

// Appends zero bytes.
pub(crate) fn push_zeros(out: &mut Vec<u8>, count: u32) -> Result<(), Memory>
    ensures { OnOk result (out.new.items ≡ out.old.items ++ replicate count 0) }
{
    for _ in 0..count {
        out.push(0)?;
    }
    Ok(())
}
