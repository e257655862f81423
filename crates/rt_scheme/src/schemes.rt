// Schemes by number.
ghost use Rattle.std.specs.Prelude.{◌≡◌, ◌<◌, IfOk, None, Some, length, option_copied, replicate, slice_index_or, slice_set};

use crate::scheme::Scheme;
use rt_base::Memory;
use std::alloc::Global;
use std::marker::Model;

/// The schemes of procedures by their numbers, which contracts see as a list: for each number the scheme, or
/// none where there is none yet.
#[derive(Drop)]
pub struct Schemes {
    schemes: Vec<Option<Scheme>>,
}

impl Model for Schemes {
    ghost use Rattle.std.specs.Prelude.{List, Option};
    ghost use Rattle.rt_scheme.specs.declared.scheme.Scheme.{Scheme as TypeScheme};

    ghost Value = { List (Option TypeScheme) };

    ghost view = { λ s. s.schemes.items };
}

impl Schemes {
    /// No schemes, and room for so many. The error is out of memory.
    pub fn new(alloc: Global, count: u32) -> Result<Schemes, Memory>
        ensures { IfOk result (λ schemes. schemes ≡ replicate count None) }
    {
        let mut schemes = Vec::with_capacity(alloc, count as usize)?;
        for _ in 0..count {
            schemes.push(None)?;
        }
        Ok(Schemes { schemes })
    }

    /// The scheme of a number, if there is one. It takes no memory.
    pub fn get(&self, number: u32) -> Option<&Scheme>
        ensures { option_copied result ≡ slice_index_or self.now number None }
    {
        match self.schemes.get(number as usize) {
            Some(scheme) => scheme.as_ref(),
            None => None,
        }
    }

    /// Puts a number's scheme in place of what was there. It takes no memory.
    pub fn set(&mut self, number: u32, scheme: Scheme)
        requires { number < length self.old }
        ensures { self.new ≡ slice_set self.old number (Some scheme) }
    {
        self.schemes[number as usize] = Some(scheme);
    }
}
