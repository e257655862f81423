// Calls that fail.
ghost use Rattle.std.specs.Prelude.{◌↔◌, ◌<◌, ◌^◌, IsTrue, Contains};

// Whether the call of this number is one that fails.
pub fn is_listed(fails: &[u32], number: u64) -> bool
    ensures listed { IsTrue result ↔ Contains fails.now number }
    ensures small { IsTrue result → number < 2 ^ 32 }
{
    fails.iter().any(|listed| u64::from(*listed) == number)
}
