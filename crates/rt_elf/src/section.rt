// Sections.
use rt_base::Sequence;

/// A section header (ELF gABI, "Sections"): its type, its flags, the place and the length of its bytes in the
/// file, and two numbers whose meaning goes by the type.
#[derive(Clone, Copy)]
pub struct Section {
    pub kind: u32,
    pub flags: u32,
    pub offset: u32,
    pub size: u32,
    pub link: u32,
    pub info: u32,
}

/// Sections, by their indices.
pub type Sections = Sequence<Section>;
