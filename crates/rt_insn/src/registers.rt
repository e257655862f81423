//! The integer registers by their names in the calling convention, each by its number (RISC-V psABI, "Integer Register
//! Convention").

/// zero, x0: it always holds 0.
pub const ZERO: u8 = 0;

/// ra, x1: the return address (RISC-V psABI, "Integer Register Convention").
pub const RETURN_ADDRESS: u8 = 1;

/// sp, x2: the stack pointer (RISC-V psABI, "Integer Register Convention").
pub const STACK_POINTER: u8 = 2;

/// a0, x10: the first argument, and the first result (RISC-V psABI, "Integer Calling Convention").
pub const A0: u8 = 10;

/// a0 to a7, x10 to x17: the registers of arguments (RISC-V psABI, "Integer Calling Convention").
pub const ARGUMENTS: [u8; 8] = [10, 11, 12, 13, 14, 15, 16, 17];

/// ra and s0 to s11, which a procedure that changes them saves and restores: the return address, and those that are
/// preserved across calls, but for sp, gp and tp (RISC-V psABI, "Integer Register Convention").
pub const SAVED: [u8; 13] = [1, 8, 9, 18, 19, 20, 21, 22, 23, 24, 25, 26, 27];

/// ra, t0 to t2, a0 to a7 and t3 to t6, which a call leaves undefined: those that aren't preserved across calls (RISC-V
/// psABI, "Integer Register Convention").
pub const CALL_CLOBBERED: [u8; 16] = [1, 5, 6, 7, 10, 11, 12, 13, 14, 15, 16, 17, 28, 29, 30, 31];
