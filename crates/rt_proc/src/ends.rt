// Calls that don't return.
ghost use Rattle.std.specs.Prelude.{◌≡◌, ◌<◌, ◌==◌, AllPairs};
ghost use Rattle.std.specs.List.{list_any};
ghost use Rattle.rt_proc.specs.Ends.{is_end, after_call, ended};

use rt_control::{Called, Form, Place};

// Whether an ascending list has a symbol.
fn has(ends: &[u32], symbol: u32) -> bool
    requires { AllPairs ◌<◌ ends.now }
    ensures { result ≡ list_any (λ end. end == symbol) ends.now }
{
    ends.binary_search(&symbol).is_ok()
}

// Whether what is called is an undefined symbol whose function doesn't return.
fn is_end(ends: &[u32], called: Called) -> bool
    requires { AllPairs ◌<◌ ends.now }
    ensures { result ≡ is_end ends.now called }
{
    match called {
        Called::Outside(symbol) => has(ends, symbol),
        Called::Code(_) | Called::Register(_) => false,
    }
}

// The continuation of a call: that of such a function has none.
fn after_call(ends: &[u32], called: Called, after: Option<Place>) -> Option<Place>
    requires { AllPairs ◌<◌ ends.now }
    ensures { result ≡ after_call ends.now called after }
{
    if is_end(ends, called) { None } else { after }
}

// What a site does, where the path of a call of such a function ends there.
pub(crate) fn ended(ends: &[u32], form: Form) -> Form
    requires { AllPairs ◌<◌ ends.now }
    ensures { result ≡ ended ends.now form }
{
    match form {
        Form::Call {
            called,
            link,
            after,
        } => Form::Call {
            called,
            link,
            after: after_call(ends, called, after),
        },
        form => form,
    }
}
