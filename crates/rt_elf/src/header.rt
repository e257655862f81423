// The file header (ELF gABI, "ELF Header").
ghost use Rattle.std.specs.Prelude.{◌≡◌, ◌+◌, ◌*◌, ◌<◌, ◌≤◌, OnOk, length};
ghost use Rattle.rt_elf.specs.Faults.{checked};
ghost use Rattle.rt_elf.specs.Header.{size_fault, kind_fault, table_fault, header_fault, header_place, section_count, HasTable};

use crate::fault::{ElfFault, check};
use crate::field::{byte_at, half_at, word_at};

const GREATEST_LENGTH: usize = 16_777_216;

const HEADER_LENGTH: usize = 52;

// The length of the file.
#[tactic(auto, unfolding(crate::specs::Header::size_fault))]
fn check_size(bytes: &[u8]) -> Result<(), ElfFault>
    ensures exact { result ≡ checked (size_fault bytes.now) }
    ensures short { OnOk result (length bytes.now ≤ 16777216) }
    ensures long { OnOk result (52 ≤ length bytes.now) }
{
    check(bytes.len() > GREATEST_LENGTH, 16, GREATEST_LENGTH)?;
    check(bytes.len() < HEADER_LENGTH, 1, bytes.len())
}

// What kind of file it is.
#[tactic(auto, unfolding(crate::specs::Header::kind_fault))]
fn check_kind(bytes: &[u8]) -> Result<(), ElfFault>
    requires { 52 ≤ length bytes.now }
    ensures { result ≡ checked (kind_fault bytes.now) }
{
    check(word_at(bytes, 0) != 0x464C457F, 2, 0)?;
    check(byte_at(bytes, 4) != 1, 3, 4)?;
    check(byte_at(bytes, 5) != 1, 4, 5)?;
    check(half_at(bytes, 16) != 1, 5, 16)?;
    check(half_at(bytes, 18) != 243, 6, 18)?;
    check(word_at(bytes, 36) % 16 != 0, 7, 36)
}

// Where the section headers are.
#[tactic(auto, unfolding(crate::specs::Header::table_fault))]
fn check_table(bytes: &[u8]) -> Result<(), ElfFault>
    requires { 52 ≤ length bytes.now }
    ensures exact { result ≡ checked (table_fault bytes.now) }
    ensures within { OnOk result (header_place bytes.now (section_count bytes.now) ≤ length bytes.now) }
{
    check(half_at(bytes, 46) != 40, 8, 46)?;
    check(section_count(bytes) == 0, 8, 48)?;
    check(
        header_place(bytes, section_count(bytes)) > bytes.len(),
        8,
        32,
    )
}

// The file header, up to the place of the section headers.
#[tactic(auto, unfolding(crate::specs::Header::header_fault))]
pub(crate) fn check_header(bytes: &[u8]) -> Result<(), ElfFault>
    ensures exact { result ≡ checked (header_fault bytes.now) }
    ensures table { OnOk result (HasTable bytes.now) }
{
    check_size(bytes)?;
    check_kind(bytes)?;
    check_table(bytes)
}

// How many section headers there are.
pub(crate) fn section_count(bytes: &[u8]) -> usize
    requires { 52 ≤ length bytes.now }
    ensures count { result ≡ section_count bytes.now }
    ensures fits { result < 65536 }
{
    half_at(bytes, 48) as usize
}

// Where the section header of an index is.
pub(crate) fn header_place(bytes: &[u8], index: usize) -> usize
    requires long { 52 ≤ length bytes.now }
    requires fits { index < 4294967296 }
    ensures { result ≡ header_place bytes.now index }
{
    word_at(bytes, 32) as usize + 40 * index
}
