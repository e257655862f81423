ghost use Rattle.std.specs.Prelude.{◌≡◌};
ghost use Rattle.rt_insn.specs.Format.{imm_i, imm_s, imm_b, imm_u, imm_j};

use crate::fields::bits;

// The sign of every immediate stands in bit 31.

pub fn of_i(word: u32) -> i32
    ensures { result ≡ imm_i word }
{
    let low = bits(word, 20, 11) as i32;
    if word >> 31 == 1 {
        low - (1 << 11)
    } else {
        low
    }
}

pub fn of_s(word: u32) -> i32
    ensures { result ≡ imm_s word }
{
    let low = ((bits(word, 25, 6) << 5) + bits(word, 7, 5)) as i32;
    if word >> 31 == 1 {
        low - (1 << 11)
    } else {
        low
    }
}

pub fn of_b(word: u32) -> i32
    ensures { result ≡ imm_b word }
{
    let low = ((bits(word, 7, 1) << 11)
        + (bits(word, 25, 6) << 5)
        + (bits(word, 8, 4) << 1)) as i32;
    if word >> 31 == 1 {
        low - (1 << 12)
    } else {
        low
    }
}

pub fn of_u(word: u32) -> i32
    ensures { result ≡ imm_u word }
{
    let low = (bits(word, 12, 19) << 12) as i32;
    if word >> 31 == 1 { low + i32::MIN } else { low }
}

pub fn of_j(word: u32) -> i32
    ensures { result ≡ imm_j word }
{
    let low = ((bits(word, 12, 8) << 12)
        + (bits(word, 20, 1) << 11)
        + (bits(word, 21, 10) << 1)) as i32;
    if word >> 31 == 1 {
        low - (1 << 20)
    } else {
        low
    }
}
