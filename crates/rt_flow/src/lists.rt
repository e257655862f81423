// Lists of lists.
ghost use Rattle.std.specs.Prelude.{◌≡◌, ◌<◌, ◌⊎◌, true, [], ◌∷◌, ◌++◌, IfOk, length, replicate, slice_index_or};

use indexmap::IndexSet;
use rt_base::{Memory, Sequence};
use std::alloc::{AllocError, Global};
use std::hash::Hash;
use std::marker::Model;

/// So many empty lists. The error is out of memory.
pub(crate) fn empty_lists<T: Drop>(alloc: Global, count: usize) -> Result<Vec<Sequence<T>>, Memory>
    ensures { IfOk result (λ lists. lists.items ≡ replicate count []) }
{
    let mut lists = Vec::with_capacity(alloc, count)?;
    for _list in 0..count {
        lists.push(Sequence::new(alloc))?;
    }
    Ok(lists)
}

/// Lists that are numbered from 0, equal ones once, which contracts see as the list of them.
#[derive(Drop)]
pub(crate) struct Lists<T: Eq + Hash> {
    set: IndexSet<Vec<T>>,
}

impl<T: Eq + Hash> Model for Lists<T> {
    ghost use Rattle.std.specs.Prelude.{List, map};

    ghost Value = { List (List T) };

    ghost view = { λ s. map (λ v. v.items) s.set.keys };
}

impl<T: Eq + Hash + Drop> Lists<T> {
    /// No lists. It takes no memory, and keeps the allocator.
    pub(crate) fn new(alloc: Global) -> Lists<T>
        ensures { result ≡ [] }
    {
        Lists {
            set: IndexSet::new(alloc),
        }
    }

    /// The number of a list, which is added if it isn't there. The error is out of memory; lists that had a number keep it.
    pub(crate) fn number(&mut self, list: Vec<T>) -> Result<u32, Memory>
        ensures within { IfOk result (λ n. n < length self.new) }
        ensures found { IfOk result (λ n. ((a b : T) → T.eq a b ≡ true → a ≡ b) → slice_index_or self.new n [] ≡ list.items) }
        ensures added { (self.new ≡ self.old) ⊎ (self.new ≡ self.old ++ list.items ∷ []) }
    {
        let (number, _) = self.set.insert_full(list)?;
        let Ok(number) = u32::try_from(number) else {
            return Err(AllocError);
        };
        Ok(number)
    }

    /// How many lists there are.
    pub(crate) fn len(&self) -> usize
        ensures { result ≡ length self.now }
    {
        self.set.len()
    }

    /// The list of a number.
    pub(crate) fn list(&self, number: usize) -> &[T]
        requires { number < length self.now }
        ensures { result.now ≡ slice_index_or self.now number [] }
    {
        self.set.as_slice()[number].as_slice()
    }
}
