// What the signatures of external functions name and count.
ghost use Rattle.std.specs.Prelude.{◌≡◌, ◌<◌, ◌||◌, ℕ, false, IfOk, get_or};
ghost use Rattle.rt_lines.specs.declared.label.Loc.TheVariants.{Arg};
ghost use Rattle.rt_lines.specs.declared.label.Label.TheVariants.{In, Out};
ghost use Rattle.rt_scheme.specs.Ports.{names_label};
ghost use Rattle.rt_sigs.specs.Signatures.{signature_of, args_of};
ghost use Rattle.rt_liveness.specs.Inside.Conditions.{takes_named, gives_named};
ghost use Rattle.rt_liveness.specs.Inside.Signed.{counts_argument, IsNamedBy, AreNamed};

use rt_base::Memory;
use rt_elf::Object;
use rt_lines::{Label, Loc};
use rt_scheme::Scheme;
use rt_sigs::Sigs;
use std::alloc::Global;

// What the function that a symbol names takes and gives, by its signature.
#[derive(Clone, Copy)]
pub(crate) struct Named {
    // Of the argument registers a0 to a7, whether it takes each.
    pub(crate) takes: [bool; 8],
    // Of the result registers a0 and a1, whether it gives each.
    pub(crate) gives: [bool; 2],
}

// Whether so many arguments have the one of a number.
fn counts(args: Option<u8>, n: u8) -> bool
    ensures { result ≡ counts_argument args n }
{
    match args {
        Some(count) => n < count,
        None => false,
    }
}

// Which argument registers a signature names or counts.
fn arguments(scheme: &Scheme, args: Option<u8>) -> [bool; 8]
    ensures { (n : ℕ) → n < 8
        → get_or result n false ≡ (names_label scheme.now.base scheme.now.lines (In (Arg n)) || counts_argument args n) }
{
    let mut takes = [false; 8];
    for n in 0..8 {
        takes[n] = scheme.names(Label::In(Loc::Arg(n as u8))) || counts(args, n as u8);
    }
    takes
}

// What a function of a name takes and gives.
fn named_of(sigs: &Sigs, name: &[u8]) -> Named
    ensures { IsNamedBy (signature_of sigs.now name.now) (args_of sigs.now name.now) result }
{
    match sigs.find(name) {
        Some(scheme) => Named {
            takes: arguments(scheme, sigs.args(name)),
            gives: [scheme.names(Label::Out(0)), scheme.names(Label::Out(1))],
        },
        None => Named {
            takes: [false; 8],
            gives: [true, false],
        },
    }
}

/// What the functions that an object's symbols name take and give, by their signatures; one without a signature takes
/// nothing and gives a0.
pub(crate) fn named_symbols(
    alloc: Global,
    object: &Object,
    sigs: &Sigs,
) -> Result<Vec<Named>, Memory>
    ensures { IfOk result (λ named. AreNamed object.now sigs.now named.items) }
{
    let symbols = object.symbols();
    let mut named = Vec::with_capacity(alloc, symbols.len())?;
    for symbol in symbols {
        named.push(named_of(sigs, symbol.name.items()))?;
    }
    Ok(named)
}

/// Whether the function of a symbol takes the argument of a number.
pub(crate) fn is_taken(named: &[Named], symbol: u32, n: u8) -> bool
    requires { n < 8 }
    ensures { result ≡ takes_named named.now symbol n }
{
    match named.get(symbol as usize) {
        Some(named) => named.takes[n as usize],
        None => false,
    }
}

/// Whether the function of a symbol gives the result of a number.
pub(crate) fn is_given(named: &[Named], symbol: u32, r: u8) -> bool
    requires { r < 2 }
    ensures { result ≡ gives_named named.now symbol r }
{
    match named.get(symbol as usize) {
        Some(named) => named.gives[r as usize],
        None => false,
    }
}
