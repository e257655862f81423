//! The chain of spellings of one word that differ in load against store (PLDI 2016, section 3.1 and appendix D): a number
//! for each, which counts by the pointer rule, `X.store` below `X.load`.
#![tactic(auto)]

ghost use Rattle.std.specs.Prelude.{◌≡◌, ◌≤◌, ◌+◌, length, IfOk, MatchOption};
ghost use Rattle.rt_chain.specs.Numbers.{number_of, count_true, AreAtPointers, AreAllOnes, AreSpellings};

pub mod laws;
mod letters;

use letters::{bit, exchanged};
use rt_base::Memory;
use rt_lines::{Variance, Word, variance_of};
use std::alloc::Global;

/// The number of a word among its spellings: a binary digit for each place that flips, the leftmost one the lowest,
/// which is 1 where the rest of the word from there is covariant. It takes no memory.
pub fn number(word: &Word, flips: &[bool]) -> u128
    requires lengths { length word.now ≡ length flips.now }
    requires pointers { AreAtPointers word.now flips.now }
    requires few { count_true flips.now ≤ 100 }
    ensures { result ≡ number_of word.now flips.now }
{
    let letters = word.items();
    let mut number: u128 = 0;
    let mut sign = Variance::Co;
    let mut i = letters.len();
    while i > 0 {
        i -= 1;
        sign = letters[i].variance().times(sign);
        if flips[i] {
            number = 2 * number + bit(sign);
        }
    }
    number
}

/// The spelling whose number is greater by one, or `None` exactly where each digit of the word's number is 1. It differs
/// from the word in one letter. The error is out of memory.
pub fn next(alloc: Global, word: &Word, flips: &[bool]) -> Result<Option<Word>, Memory>
    requires lengths { length word.now ≡ length flips.now }
    requires pointers { AreAtPointers word.now flips.now }
    ensures spelling { IfOk result (λ found. MatchOption found (AreAllOnes word.now flips.now) (λ w. AreSpellings flips.now word.now w)) }
    ensures number { IfOk result (λ found. MatchOption found (AreAllOnes word.now flips.now)
        (λ w. number_of w flips.now ≡ number_of word.now flips.now + 1)) }
    ensures not_all { IfOk result
        (λ found. MatchOption found (AreAllOnes word.now flips.now) (λ w. AreAllOnes word.now flips.now → ⊥)) }
{
    let mut sign = variance_of(word);
    let letters = word.items();
    for i in 0..letters.len() {
        if flips[i] && sign == Variance::Contra {
            return Ok(Some(exchanged(alloc, word, i)?));
        }
        sign = letters[i].variance().times(sign);
    }
    Ok(None)
}
