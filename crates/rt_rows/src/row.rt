// Lines whose existentials have no numbers yet.
ghost use Rattle.std.specs.Prelude.{◌≡◌, [], ◌∷◌, ◌++◌, All, IfOk, OnOk, OnErr};
ghost use Rattle.std.specs.Option.{option_to_list};
ghost use Rattle.rt_lines.specs.Words.{IsLabel};
ghost use Rattle.rt_rows.specs.Terms.{along, named, root_names, row_names};

use crate::name::Name;
use rt_base::{Copied, Memory, Sequence};
use rt_lines::{Label, Word};
use std::alloc::{AllocError, Global};

/// What a term belongs to: a procedure, a global, a base of the outside, or what an existential stands for.
#[derive(Clone, Copy, PartialEq, Eq)]
pub enum Root {
    /// A procedure, by its number.
    Proc(u32),
    /// A global, by the index of its symbol in the object.
    Global(u32),
    /// A base of the outside, by its number.
    Outer(u32),
    /// What an existential stands for.
    Named(Name),
}

/// A derived variable whose existential has no number yet: a root and a word of labels.
#[derive(Drop)]
pub struct Term {
    /// What the variable belongs to.
    pub root: Root,
    /// The way from the root to the variable.
    pub word: Word,
}

/// A line whose existentials have no numbers yet. A constant is a number, its place in the list of names.
#[derive(Drop)]
pub enum Row {
    /// The variable exists.
    Var(Term),
    /// The two variables have one shape.
    Same(Term, Term),
    /// The first variable is a subtype of the second.
    Sub(Term, Term),
    /// The constant is a lower bound of the variable.
    Low(u16, Term),
    /// The constant is an upper bound of the variable.
    Up(Term, u16),
}

/// A list of such lines.
pub type Rows = Sequence<Row>;

impl Root {
    /// What the existential stands for, if the root is one.
    pub fn name(self) -> Option<Name>
        ensures { option_to_list result ≡ root_names self }
    {
        match self {
            Root::Named(name) => Some(name),
            Root::Proc(_) | Root::Global(_) | Root::Outer(_) => None,
        }
    }
}

impl Term {
    /// The root itself. It takes no memory.
    pub fn bare(alloc: Global, root: Root) -> Term
        ensures { result ≡ record { root = root; word = [] } }
    {
        Term {
            root,
            word: Word::empty(alloc),
        }
    }

    /// What the name stands for. It takes no memory.
    pub fn named(alloc: Global, name: Name) -> Term
        ensures { result ≡ named name }
    {
        Term::bare(alloc, Root::Named(name))
    }

    /// The argument or result of a procedure that the label names. The error is out of memory.
    pub fn port(alloc: Global, procedure: u32, label: Label) -> Result<Term, Memory>
        requires { IsLabel label }
        ensures { IfOk result (λ port. port ≡ record { root = Root.Proc procedure; word = label ∷ [] }) }
    {
        let mut port = Term::bare(alloc, Root::Proc(procedure));
        port.push(label)?;
        Ok(port)
    }

    /// Adds a letter at the end. When out of memory, the term is as it was.
    pub fn push(&mut self, label: Label) -> Result<(), AllocError>
        requires { IsLabel label }
        ensures ok { OnOk result (self.new ≡ along self.old (label ∷ [])) }
        ensures err { OnErr result (self.new ≡ self.old) }
    {
        self.word.push(label)
    }

    /// The term with more letters. The error is out of memory.
    pub fn along(mut self, labels: &[Label]) -> Result<Term, Memory>
        requires { All IsLabel labels.now }
        ensures { IfOk result (λ longer. longer ≡ along self labels.now) }
    {
        for label in labels {
            self.word.push(*label)?;
        }
        Ok(self)
    }

    /// An equal term.
    pub fn copy(&self) -> Result<Term, AllocError>
        ensures { IfOk result (λ copy. copy ≡ self.now) }
    {
        let word = self.word.copy()?;
        Ok(Term {
            root: self.root,
            word,
        })
    }
}

impl Copied for Term {
    fn copied(&self) -> Result<Self, AllocError> {
        self.copy()
    }
}

impl Row {
    /// The names of the row's left side and of its right. A row of one side has it on the left.
    pub fn names(&self) -> (Option<Name>, Option<Name>)
        ensures { option_to_list result.0 ++ option_to_list result.1 ≡ row_names self.now }
    {
        match self {
            Row::Var(x) | Row::Low(_, x) | Row::Up(x, _) => (x.root.name(), None),
            Row::Same(x, y) | Row::Sub(x, y) => (x.root.name(), y.root.name()),
        }
    }
}
