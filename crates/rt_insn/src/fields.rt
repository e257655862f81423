ghost use Rattle.std.specs.Prelude.{◌≡◌, ◌<◌};
ghost use Rattle.rt_insn.specs.Word.{field};

/// The number in the bits `low` to `low + count - 1` of the word.
pub fn bits(word: u32, low: u32, count: u32) -> u32
    requires low_in { low < 32 }
    requires count_in { count < 32 }
    ensures { result ≡ field word low count }
{
    (word >> low) % (1 << count)
}

pub fn opcode(word: u32) -> u8
    ensures { result ≡ field word 0 7 }
{
    bits(word, 0, 7) as u8
}

pub fn rd(word: u32) -> u8
    ensures { result ≡ field word 7 5 }
{
    bits(word, 7, 5) as u8
}

pub fn funct3(word: u32) -> u8
    ensures { result ≡ field word 12 3 }
{
    bits(word, 12, 3) as u8
}

pub fn rs1(word: u32) -> u8
    ensures { result ≡ field word 15 5 }
{
    bits(word, 15, 5) as u8
}

/// Also the amount of a shift by an immediate.
pub fn rs2(word: u32) -> u8
    ensures { result ≡ field word 20 5 }
{
    bits(word, 20, 5) as u8
}

pub fn funct7(word: u32) -> u8
    ensures { result ≡ field word 25 7 }
{
    bits(word, 25, 7) as u8
}
