// Words of labels.
ghost use Rattle.std.specs.Prelude.{◌≡◌, [], ◌∷◌, ◌++◌, All, OnOk, OnErr, IfOk};
ghost use Rattle.rt_lines.specs.Words.{IsLabel, variance_of_word};

use crate::label::{Label, Variance};
use smallvec::SmallVec;
use std::alloc::{AllocError, Global};
use std::hash::{Hash, Hasher};
use std::marker::Model;

/// A word of labels, which contracts see as the list of its letters. Each letter is a label of the
/// grammar: its argument, offset and width are in range.
#[derive(Drop)]
pub struct Word {
    letters: SmallVec<Label, 6>,
}

impl Model for Word {
    ghost use Rattle.std.specs.Prelude.{List, All};
    ghost use Rattle.rt_lines.specs.declared.label.Label.{Label as Letter};
    ghost use Rattle.rt_lines.specs.Words.{IsLabel};

    ghost Value = { List Letter };

    ghost view = { λ w. w.letters.items };

    ghost invariant = { λ w. All IsLabel w.letters.items };
}

impl Word {
    /// The word without letters. It takes no memory, and keeps the allocator.
    pub fn empty(alloc: Global) -> Word
        ensures { result ≡ [] }
    {
        Word {
            letters: SmallVec::new(alloc),
        }
    }

    /// The word of these letters.
    pub fn from_slice(alloc: Global, letters: &[Label]) -> Result<Word, AllocError>
        requires { All IsLabel letters.now }
        ensures { IfOk result (λ word. word ≡ letters.now) }
    {
        let letters = SmallVec::from_slice(alloc, letters)?;
        Ok(Word { letters })
    }

    /// Adds a letter at the end. Out of memory, the word is as it was.
    pub fn push(&mut self, label: Label) -> Result<(), AllocError>
        requires { IsLabel label }
        ensures ok { OnOk result (self.new ≡ self.old ++ label ∷ []) }
        ensures err { OnErr result (self.new ≡ self.old) }
    {
        match self.letters.push(label) {
            Ok(()) => Ok(()),
            Err(_) => Err(AllocError),
        }
    }

    /// The letters in order, each a label of the grammar.
    pub fn items(&self) -> &[Label]
        ensures letters { result.now ≡ self.now }
        ensures good { All IsLabel self.now }
    {
        self.letters.as_slice()
    }

    /// An equal word.
    pub fn copy(&self) -> Result<Word, AllocError>
        ensures { IfOk result (λ copy. copy ≡ self.now) }
    {
        let letters = SmallVec::from_slice(*self.letters.allocator(), self.letters.as_slice())?;
        Ok(Word { letters })
    }

    /// Adds the letters of another word at the end. Out of memory, the word is as it was.
    pub fn append(&mut self, other: &Word) -> Result<(), AllocError>
        ensures ok { OnOk result (self.new ≡ self.old ++ other.now) }
        ensures err { OnErr result (self.new ≡ self.old) }
    {
        self.letters.extend_from_slice(other.letters.as_slice())
    }
}

impl PartialEq for Word {
    ghost use Rattle.std.specs.Cmp.Lexicographic.{pointwise, lists_per};
    ghost use Rattle.rt_lines.specs.declared.label.Label.{Label as Letter};
    ghost use Rattle.rt_lines.specs.contracts.label.LabelPartialEq.TheImpl as label;
    ghost use Rattle.rt_lines.specs.contracts.label.LabelPartialEq.TheImpl.Laws as label_laws;

    ghost eq = { pointwise {A = Letter} {B = Letter} (label.ghosts).eq };

    ghost laws = { lists_per label_laws.laws-law };

    fn eq(&self, other: &Self) -> bool {
        self.items() == other.items()
    }
}

impl Eq for Word {
    ghost use Rattle.std.specs.Cmp.Lexicographic.{lists_equiv};
    ghost use Rattle.rt_lines.specs.contracts.label.LabelEq.TheImpl.Laws as label_laws;

    ghost laws = { lists_equiv label_laws.laws-law };
}

impl Hash for Word {
    ghost use Rattle.std.specs.Hash as fed;
    ghost use Rattle.std.specs.Hash.{items_Alike};
    ghost use Rattle.rt_lines.specs.declared.label.Label.{Label as Letter};
    ghost use Rattle.rt_lines.specs.contracts.label.LabelHash.TheImpl as label;
    ghost use Rattle.rt_lines.specs.contracts.label.LabelHash.TheImpl.Laws as label_laws;

    ghost hash_input = { fed.slice {T = Letter} (label.ghosts).hash_input };

    ghost respects_eq = { (items_Alike (record { fed = label_laws.respects_eq-law })).fed };

    fn hash<H: Hasher>(&self, state: &mut H) {
        self.items().hash(state);
    }
}

/// The word's variance, the product of its letters' (PLDI 2016, section 3.1).
pub fn variance_of(word: &Word) -> Variance
    ensures { result ≡ variance_of_word word.now }
{
    let mut variance = Variance::Co;
    for label in word.items() {
        variance = variance.times(label.variance());
    }
    variance
}
