// The numbers of the roles' names.
ghost use Rattle.std.specs.Prelude.{◌≡◌, None, true, false, option_copied, OnOk, IfOk, IfErr};
ghost use Rattle.rt_lattice.specs.declared.role.Role.{Role};
ghost use Rattle.rt_lattice.specs.Closures.{role_text, has_role, missing_role, IsRoleOf, IsMissingIn};
ghost use Rattle.rt_lattice.specs.Roles.{role_in};

use crate::fault::LatFault;
use crate::file::File;
use crate::role::Role;
use rt_base::Bytes;

// The number of the name for each role.
#[derive(Clone, Copy)]
pub(crate) struct Roles {
    pub(crate) num32: u16,
    pub(crate) sint32: u16,
    pub(crate) uint32: u16,
    pub(crate) sint16: u16,
    pub(crate) uint16: u16,
    pub(crate) sint8: u16,
    pub(crate) uint8: u16,
    pub(crate) bool: u16,
    pub(crate) code: u16,
}

impl Roles {
    pub(crate) fn number(&self, role: Role) -> u16
        ensures { result ≡ role_in self.now role }
    {
        match role {
            Role::Num32 => self.num32,
            Role::Sint32 => self.sint32,
            Role::Uint32 => self.uint32,
            Role::Sint16 => self.sint16,
            Role::Uint16 => self.uint16,
            Role::Sint8 => self.sint8,
            Role::Uint8 => self.uint8,
            Role::Bool => self.bool,
            Role::Code => self.code,
        }
    }
}

// The name of a role in a file.
fn text_of<'a>(file: &'a File, role: Role) -> Option<&'a Bytes>
    ensures { option_copied result ≡ role_text file.now.roles role }
{
    for entry in file.roles.items() {
        if entry.key.items() == role.key().as_bytes() {
            return Some(&entry.name);
        }
    }
    None
}

// The number of the name of a role in a file.
fn number_in(file: &File, role: Role) -> Result<u16, LatFault>
    ensures ok { IfOk result (IsRoleOf file.now role) }
    ensures has { OnOk result (has_role file.now role ≡ true) }
    ensures fault { IfErr result (λ fault. (fault ≡ LatFault.NoRole role) × (has_role file.now role ≡ false)) }
{
    let Some(name) = text_of(file, role) else {
        return Err(LatFault::NoRole(role));
    };
    match file.names.find(name.items()) {
        Some(number) => Ok(number),
        None => Err(LatFault::NoRole(role)),
    }
}

// The numbers of all roles in a file.
pub(crate) fn roles_of(file: &File) -> Result<Roles, LatFault>
    ensures ok { IfOk result (λ roles. (role : Role) → IsRoleOf file.now role (role_in roles role)) }
    ensures none { OnOk result (missing_role file.now ≡ None) }
    ensures fault { IfErr result (IsMissingIn file.now) }
{
    let num32 = number_in(file, Role::Num32)?;
    let sint32 = number_in(file, Role::Sint32)?;
    let uint32 = number_in(file, Role::Uint32)?;
    let sint16 = number_in(file, Role::Sint16)?;
    let uint16 = number_in(file, Role::Uint16)?;
    let sint8 = number_in(file, Role::Sint8)?;
    let uint8 = number_in(file, Role::Uint8)?;
    let bool = number_in(file, Role::Bool)?;
    let code = number_in(file, Role::Code)?;
    Ok(Roles {
        num32,
        sint32,
        uint32,
        sint16,
        uint16,
        sint8,
        uint8,
        bool,
        code,
    })
}
