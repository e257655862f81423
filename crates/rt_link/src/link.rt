// What a relocation means.

/// What a relocation means for the instruction at its place, each with the index of a symbol and an addend.
///
/// - Target: where a branch or JAL goes.
/// - Pair: where the AUIPC at its place and the JALR after it go together.
/// - High: the high bits of the address, for LUI or AUIPC.
/// - Low: its low bits, for ADDI, a load or a store.
#[derive(Clone, Copy)]
pub enum Link {
    Target { symbol: u32, addend: i32 },
    Pair { symbol: u32, addend: i32 },
    High { symbol: u32, addend: i32 },
    Low { symbol: u32, addend: i32 },
}
