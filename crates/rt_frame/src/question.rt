// What lines speak of.
use rt_flow::Def;

/// What a line speaks of: the use of a register at a site, or a definition of a register.
#[derive(Clone, Copy)]
pub enum Question {
    OfUse(u32, u8),
    OfDefinition(Def, u8),
}
