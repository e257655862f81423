// The variables that rows speak of.
ghost use Rattle.std.specs.Prelude.{◌≡◌, IsTrue, IfOk};
ghost use Rattle.rt_table.specs.Table.{argument, definition, is_argument, is_stack_word};
ghost use Rattle.rt_table.specs.Table.{merge_name, object, port_of, stack_argument, symbol_side};
ghost use Rattle.rt_table.specs.Inside.Told.{context_of};

use crate::context::Context;
use crate::side::Side;
use rt_base::Memory;
use rt_body::is_code_symbol;
use rt_lattice::Role;
use rt_lines::{Label, Loc};
use rt_rows::{Name, Root, Term};

// Whether a register is one of a0 to a7.
pub(crate) fn is_argument(register: u8) -> bool
    ensures { result ≡ is_argument register }
{
    10 <= register && register <= 17
}

// Whether an argument may be passed in the word at an offset of the caller's frame.
pub(crate) fn is_stack_word(offset: i32) -> bool
    ensures { result ≡ is_stack_word offset }
{
    0 <= offset && offset <= 65532 && offset.cast_unsigned() % 4 == 0
}

impl Context<'_> {
    // The number of a role's constant.
    pub(crate) fn constant(&self, role: Role) -> u16
        ensures { result ≡ (context_of self.now).constant role }
    {
        self.lattice.role(role)
    }

    // What a site writes into a register.
    pub(crate) fn definition(&self, site: u32, register: u8) -> Term
        ensures { result ≡ definition (context_of self.now) site register }
    {
        Term::named(
            self.alloc,
            Name::Definition {
                procedure: self.procedure,
                site,
                register,
            },
        )
    }

    // The name of what several definitions of a register bring to a site together.
    pub(crate) fn merge_name(&self, site: u32, register: u8) -> Name
        ensures { result ≡ merge_name (context_of self.now) site register }
    {
        Name::Merge {
            procedure: self.procedure,
            site,
            register,
        }
    }

    // The object of the frame that begins at an offset.
    pub(crate) fn frame_object(&self, start: i32) -> Term
        ensures { result ≡ object (context_of self.now) start }
    {
        Term::named(
            self.alloc,
            Name::Object {
                procedure: self.procedure,
                start,
            },
        )
    }

    // The argument that is passed in a register.
    pub(crate) fn argument(&self, register: u8) -> Result<Term, Memory>
        requires { IsTrue (is_argument register) }
        ensures { IfOk result (λ term. term ≡ argument (context_of self.now) register) }
    {
        Term::port(
            self.alloc,
            self.procedure,
            Label::In(Loc::Arg(register - 10)),
        )
    }

    // The argument that is passed in a word of the caller's frame.
    pub(crate) fn stack_argument(&self, offset: i32) -> Result<Term, Memory>
        requires { IsTrue (is_stack_word offset) }
        ensures { IfOk result (λ term. term ≡ stack_argument (context_of self.now) offset) }
    {
        Term::port(
            self.alloc,
            self.procedure,
            Label::In(Loc::Stack(offset.cast_unsigned())),
        )
    }

    // What stands for the argument or result of a label, in the instance that a call of a site makes of a scheme.
    pub(crate) fn port_of(&self, site: u32, call: u32, label: Label) -> Term
        ensures { result ≡ port_of (context_of self.now) site call label }
    {
        let name = Name::Port {
            procedure: self.procedure,
            site,
            call,
            label,
        };
        Term::named(self.alloc, name)
    }

    // The address of a symbol.
    pub(crate) fn symbol_side(&self, symbol: u32) -> Side
        ensures { result ≡ symbol_side (context_of self.now) symbol }
    {
        if is_code_symbol(self.outside.facts.object, symbol) {
            Side::Code
        } else {
            Side::Variable(Term::bare(self.alloc, Root::Global(symbol)))
        }
    }
}
