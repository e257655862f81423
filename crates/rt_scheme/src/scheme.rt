// Type schemes.
ghost use Rattle.std.specs.Prelude.{◌≡◌, ◌↔◌, ◌+◌, ◌<◌, ◌^◌, [], ◌∷◌, ◌++◌, IfOk, IsTrue, OnErr, OnOk};
ghost use Rattle.std.specs.List.{list_any};
ghost use Rattle.rt_scheme.specs.Instances.{instance_ports, new_count};
ghost use Rattle.rt_scheme.specs.Ports.{NamesLabel, begins_with, line_names, names_label};
ghost use Rattle.rt_scheme.specs.Schemes.{AreSchemeLines, is_interface, is_scheme_line, is_scheme_variable};

use crate::instance::{Ports, origins, ports};
use rt_base::Memory;
use rt_lines::{Base, Dtv, Label, Line, Lines, Word};
use std::alloc::Global;

/// A type scheme of a procedure: what is known of its arguments and results, whatever its existentials stand for.
/// Each base in the lines is the procedure itself, followed first by the label of an argument or a result, or a
/// global, or an existential.
#[derive(Drop)]
pub struct Scheme {
    /// The procedure's number.
    pub base: u32,
    /// The lines.
    pub lines: Lines,
    pub ghost bases: { AreSchemeLines base lines },
}

impl Scheme {
    /// The scheme without lines. It takes no memory, and its lines keep the allocator.
    pub fn empty(alloc: Global, base: u32) -> Scheme
        ensures base { result.base ≡ base }
        ensures lines { result.lines ≡ [] }
    {
        Scheme {
            base,
            lines: Lines::new(alloc),
        }
    }

    /// Adds a line at the end. Out of memory, the scheme is as it was.
    pub fn push(&mut self, line: Line) -> Result<(), Memory>
        requires { IsTrue (is_scheme_line self.old.base line) }
        ensures base { self.new.base ≡ self.old.base }
        ensures ok { OnOk result (self.new.lines ≡ self.old.lines ++ line ∷ []) }
        ensures err { OnErr result (self.new.lines ≡ self.old.lines) }
    {
        self.lines.push(line)
    }

    /// Whether the scheme names the label of an argument or a result: whether some variable of its lines is the procedure,
    /// that label, and perhaps more. It takes no memory.
    pub fn names(&self, label: Label) -> bool
        ensures names { IsTrue result ↔ NamesLabel self.now.base self.now.lines label }
        ensures port { result ≡ names_label self.now.base self.now.lines label }
    {
        any_names(self.base, label, self.lines.items())
    }

    /// The ports of the scheme's instance from `first_free` on, without its lines. The error is out of memory.
    pub fn ports(&self, alloc: Global, first_free: u32) -> Result<Ports, Memory>
        requires { first_free + new_count self.now.base self.now.lines < 2 ^ 32 }
        ensures { IfOk result (λ ports. ports ≡ instance_ports self.now.base self.now.lines first_free) }
    {
        let found = origins(alloc, self.base, self.lines.items())?;
        ports(alloc, first_free, &found)
    }

    /// An equal scheme.
    pub fn copy(&self) -> Result<Scheme, Memory>
        ensures { IfOk result (λ copy. copy ≡ self.now) }
    {
        let lines = self.lines.copy()?;
        Ok(Scheme {
            base: self.base,
            lines,
        })
    }
}

// Whether the word begins with an argument or a result.
pub fn is_interface(word: &Word) -> bool
    ensures { result ≡ is_interface word.now }
{
    match word.items() {
        [Label::In(_), ..] | [Label::Out(_), ..] => true,
        _ => false,
    }
}

// Whether a scheme of the procedure may name the variable.
fn is_scheme_variable(own: u32, x: &Dtv) -> bool
    ensures { result ≡ is_scheme_variable own x.now }
{
    match x.base {
        Base::Proc(n) => n == own && is_interface(&x.word),
        Base::Global(_) | Base::Exist(_) => true,
        Base::Outer(_) => false,
    }
}

/// Whether the line may be in a scheme of the procedure: each of its bases is the procedure, followed first by the label of
/// an argument or a result, or a global, or an existential. It takes no memory.
pub fn is_scheme_line(own: u32, line: &Line) -> bool
    ensures { result ≡ is_scheme_line own line.now }
{
    match line {
        Line::Var(x) | Line::Low(_, x) | Line::Up(x, _) => is_scheme_variable(own, x),
        Line::Same(x, y) | Line::Sub(x, y) => {
            is_scheme_variable(own, x) && is_scheme_variable(own, y)
        }
    }
}

// Whether some line names the label.
fn any_names(own: u32, label: Label, lines: &[Line]) -> bool
    ensures { result ≡ list_any (line_names own label) lines.now }
{
    lines.iter().any(|line| line_names(own, label, line))
}

// Whether the line names the label.
fn line_names(own: u32, label: Label, line: &Line) -> bool
    ensures { result ≡ line_names own label line.now }
{
    for x in line.sides() {
        if begins_with(own, label, x) {
            return true;
        }
    }
    false
}

// Whether the variable is the procedure, the label, and perhaps more.
fn begins_with(own: u32, label: Label, x: &Dtv) -> bool
    ensures { result ≡ begins_with own label x.now }
{
    match x.base {
        Base::Proc(n) => match x.word.items() {
            [first, ..] => n == own && *first == label,
            [] => false,
        },
        Base::Global(_) | Base::Exist(_) | Base::Outer(_) => false,
    }
}
