// The lattice and the signatures that a command works with.
ghost use Rattle.std.specs.Prelude.{◌≡◌, ◌<◌, ◌≤◌, ℕ, List, IfErr, IfOk, IfSome, length, option_copied};
ghost use Rattle.rt_lattice.specs.Faults.{IsLatticeIn};
ghost use Rattle.rt_lattice.specs.Lattices.{size_of};
ghost use Rattle.rt_sigs.specs.Signatures.{AreSignatures};
ghost use Rattle.rt_run.specs.Inputs.{AreSignaturesFor, AreSignaturesIn, IsLatticeFor, IsLatticeRefused, IsSignaturesRefused};
ghost use Rattle.rt_run.specs.Status.{IsStopOf, StopsAt, StopsFor};

use crate::refusal::Refusal;
use crate::stop::Stop;
use rt_io::{FileFault, Files};
use rt_lattice::{LatFault, Lattice, standard};
use rt_lines::Names;
use rt_sigs::{SigFault, Sigs};
use std::alloc::Global;

/// The greatest length of a lattice file, in bytes.
const LATTICE_LIMIT: u64 = 65_536;

/// The greatest length of a file of signatures, in bytes.
const SIGNATURES_LIMIT: u64 = 1_048_576;

/// The whole content of a file, of at most `limit` bytes. A longer one is refused so.
pub fn content_of<'a, F: Files>(
    alloc: Global,
    name: &'a str,
    limit: u64,
    longer: Refusal,
    files: &mut F,
) -> Result<Vec<u8>, Stop<'a>>
    ensures same { (n : List ℕ) → F.content files.new n ≡ F.content files.old n }
    ensures counted { (n : List ℕ) → F.faults files.old n ≤ F.faults files.new n }
    ensures found { IfOk result (λ found. IfSome (F.content files.old name.now) (λ bytes. found.items ≡ bytes)) }
    ensures within { IfOk result (λ found. length found.items ≤ limit) }
    ensures stopped { IfErr result (StopsAt (λ bytes refusal. (limit < length bytes) × (refusal ≡ longer))
        (F.content files.old) (F.faults files.old) (F.faults files.new) name.now) }
{
    match files.read(alloc, name, limit) {
        Ok(bytes) => Ok(bytes),
        Err(FileFault::Failed) => Err(Stop::NoRead(name)),
        Err(FileFault::Longer) => Err(Stop::Refused(longer)),
        Err(FileFault::Memory) => Err(Stop::NoMemory),
    }
}

// The lattice of a text.
fn lattice_in<'a>(alloc: Global, text: &[u8]) -> Result<Lattice, Stop<'a>>
    ensures lattice { IfOk result (IsLatticeIn text.now) }
    ensures stopped { IfErr result (IsStopOf (IsLatticeRefused text.now)) }
{
    match rt_lattice::read(alloc, text) {
        Ok(lattice) => Ok(lattice),
        Err(LatFault::Memory) => Err(Stop::NoMemory),
        Err(fault) => Err(Stop::Refused(Refusal::BadLattice(fault))),
    }
}

// The lattice of the file of a name.
fn read_lattice<'a, F: Files>(
    alloc: Global,
    name: &'a str,
    files: &mut F,
) -> Result<Lattice, Stop<'a>>
    ensures same { (n : List ℕ) → F.content files.new n ≡ F.content files.old n }
    ensures counted { (n : List ℕ) → F.faults files.old n ≤ F.faults files.new n }
    ensures lattice { IfOk result (λ lattice. IfSome (F.content files.old name.now) (λ text. IsLatticeIn text lattice)) }
    ensures stopped { IfErr result (StopsAt IsLatticeRefused (F.content files.old) (F.faults files.old) (F.faults files.new) name.now) }
{
    let too_long = Refusal::BadLattice(LatFault::TooMany);
    match content_of(alloc, name, LATTICE_LIMIT, too_long, files) {
        Ok(text) => lattice_in(alloc, text.as_slice()),
        Err(stop) => Err(stop),
    }
}

/// The lattice of the file of a name, or the standard one where there is none.
pub fn lattice_for<'a, F: Files>(
    alloc: Global,
    name: Option<&'a str>,
    files: &mut F,
) -> Result<Lattice, Stop<'a>>
    ensures same { (n : List ℕ) → F.content files.new n ≡ F.content files.old n }
    ensures counted { (n : List ℕ) → F.faults files.old n ≤ F.faults files.new n }
    ensures lattice { IfOk result (IsLatticeFor (F.content files.old) (option_copied name.entry)) }
    ensures stopped { IfErr result (StopsFor IsLatticeRefused (F.content files.old) (F.faults files.old) (F.faults files.new)
        (option_copied name.entry)) }
{
    let Some(name) = name else {
        return match standard(alloc) {
            Ok(lattice) => Ok(lattice),
            Err(_) => Err(Stop::NoMemory),
        };
    };
    read_lattice(alloc, name, files)
}

// The signatures of a text, with the constants of these names.
fn signatures_in<'a>(alloc: Global, text: &[u8], names: &Names) -> Result<Sigs, Stop<'a>>
    ensures signatures { IfOk result (AreSignaturesIn names.now text.now) }
    ensures stopped { IfErr result (IsStopOf (IsSignaturesRefused names.now text.now)) }
{
    match rt_sigs::read(alloc, text, names) {
        Ok(sigs) => Ok(sigs),
        Err(SigFault::Memory) => Err(Stop::NoMemory),
        Err(fault) => Err(Stop::Refused(Refusal::BadSignatures(fault))),
    }
}

// The signatures of the file of a name, with the constants of these names.
fn read_signatures<'a, F: Files>(
    alloc: Global,
    name: &'a str,
    names: &Names,
    files: &mut F,
) -> Result<Sigs, Stop<'a>>
    ensures same { (n : List ℕ) → F.content files.new n ≡ F.content files.old n }
    ensures counted { (n : List ℕ) → F.faults files.old n ≤ F.faults files.new n }
    ensures signatures { IfOk result (λ sigs. IfSome (F.content files.old name.now) (λ text. AreSignaturesIn names.now text sigs)) }
    ensures good { IfOk result (AreSignatures (length names.now)) }
    ensures stopped { IfErr result (StopsAt (IsSignaturesRefused names.now) (F.content files.old) (F.faults files.old)
        (F.faults files.new) name.now) }
{
    let too_large = Refusal::BadSignatures(SigFault::TooLarge);
    match content_of(alloc, name, SIGNATURES_LIMIT, too_large, files) {
        Ok(text) => signatures_in(alloc, text.as_slice(), names),
        Err(stop) => Err(stop),
    }
}

/// The signatures of the file of a name, with the constants of these names, or none where there is no file.
pub fn signatures_for<'a, F: Files>(
    alloc: Global,
    name: Option<&'a str>,
    names: &Names,
    files: &mut F,
) -> Result<Sigs, Stop<'a>>
    ensures same { (n : List ℕ) → F.content files.new n ≡ F.content files.old n }
    ensures counted { (n : List ℕ) → F.faults files.old n ≤ F.faults files.new n }
    ensures signatures { IfOk result (AreSignaturesFor (F.content files.old) names.now (option_copied name.entry)) }
    ensures good { IfOk result (AreSignatures (length names.now)) }
    ensures stopped { IfErr result (StopsFor (IsSignaturesRefused names.now) (F.content files.old) (F.faults files.old)
        (F.faults files.new) (option_copied name.entry)) }
{
    let Some(name) = name else {
        return Ok(Sigs::empty(alloc));
    };
    read_signatures(alloc, name, names, files)
}
