// The types of the machine's values.
ghost use Rattle.std.specs.Prelude.{◌≡◌};
ghost use Rattle.rt_lattice.specs.Roles.{role_key};

/// A type of the machine's values, for which a lattice has a name.
#[derive(Clone, Copy, Debug, PartialEq, Eq)]
pub enum Role {
    /// A number of 32 bits, of which no sign is known.
    Num32,
    /// A number of 32 bits with a sign.
    Sint32,
    /// A number of 32 bits without a sign.
    Uint32,
    /// A number of 16 bits with a sign.
    Sint16,
    /// A number of 16 bits without a sign.
    Uint16,
    /// A number of 8 bits with a sign.
    Sint8,
    /// A number of 8 bits without a sign.
    Uint8,
    /// 0 or 1.
    Bool,
    /// The address of code.
    Code,
}

impl Role {
    /// The role's key in the table `roles` of a lattice file.
    pub fn key(self) -> &'static str
        ensures { result.now ≡ role_key self }
    {
        match self {
            Role::Num32 => "num32",
            Role::Sint32 => "sint32",
            Role::Uint32 => "uint32",
            Role::Sint16 => "sint16",
            Role::Uint16 => "uint16",
            Role::Sint8 => "sint8",
            Role::Uint8 => "uint8",
            Role::Bool => "bool",
            Role::Code => "code",
        }
    }
}
