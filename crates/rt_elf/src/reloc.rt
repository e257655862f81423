// Relocations.
use rt_base::Sequence;

/// A relocation with an addend (ELF gABI, "Relocation"): the section and the offset of the place that it changes,
/// its type, and the index and the addend of the symbol that it is about.
#[derive(Clone, Copy)]
pub struct Reloc {
    pub section: u16,
    pub offset: u32,
    pub kind: u8,
    pub symbol: u32,
    pub addend: i32,
}

/// Relocations, in the order of the file.
pub type Relocs = Sequence<Reloc>;
