// The whole run.
ghost use Rattle.std.specs.Prelude.{◌≡◌, ◌≢◌, ◌≤◌, ◌⊎◌, ◌↔◌, ℕ, List, None, map, IfSome, MatchResult, option_copied};
ghost use Rattle.std.specs.String.{string_bytes};
ghost use Rattle.rt_base.specs.Outside.{Rose};
ghost use Rattle.rt_io.specs.Puts.{PutsFront, PutsLine, PutsText};
ghost use Rattle.rt_run.specs.Words.{Step, Report, Entail, command_of};
ghost use Rattle.rt_run.specs.Inside.Meant.{meaning, options_of};
ghost use Rattle.rt_run.specs.Errors.{usage_line, read_line, write_line, memory_line, refusal_line};
ghost use Rattle.rt_run.specs.Status.{ComesTo, Ends, Gives, IsRefusedBy, IsStopFor, Stops, Writes};

use crate::content::Content;
use crate::entail::entail_text;
use crate::inputs::{content_of, lattice_for, signatures_for};
use crate::no_text::NoText;
use crate::refusal::{ObjectFault, Refusal, read_line, refusal_line};
use crate::stop::{Ending, Stop};
use crate::texts::object_text;
use crate::words::{Options, Request, read_words};
use rt_io::{Files, Sink, put_all, put_line};
use std::alloc::Global;

/// The greatest length of an object, in bytes.
const OBJECT_LIMIT: u64 = 16_777_216;

/// The greatest length of the text of `entail`, in bytes.
const TEXT_LIMIT: u64 = 1_048_576;

// Why there is no text, as why a command stops.
fn stop_of<'a>(why: NoText) -> Stop<'a>
    ensures { IsStopFor result why }
{
    match why {
        NoText::Refused(refusal) => Stop::Refused(refusal),
        NoText::Memory => Stop::NoMemory,
    }
}

// What is written of the object of a name.
fn report<'a, F: Files>(
    alloc: Global,
    content: Content,
    options: Options<'a>,
    object: &'a str,
    files: &mut F,
) -> Result<Vec<u8>, Stop<'a>>
    ensures { let command = Report content (options_of options.entry) object.now in MatchResult result
        (λ text. Gives command (F.content files.old) text.items)
        (Stops command (F.content files.old) (F.faults files.old) (F.faults files.new)) }
{
    let lattice = match lattice_for(alloc, options.lattice, files) {
        Ok(lattice) => lattice,
        Err(stop) => return Err(stop),
    };
    let sigs = match signatures_for(alloc, options.signatures, lattice.names(), files) {
        Ok(sigs) => sigs,
        Err(stop) => return Err(stop),
    };
    let too_large = Refusal::Object(ObjectFault::Bytes(16, 16_777_216));
    let bytes = match content_of(alloc, object, OBJECT_LIMIT, too_large, files) {
        Ok(bytes) => bytes,
        Err(stop) => return Err(stop),
    };
    match object_text(alloc, content, bytes.as_slice(), &sigs, &lattice) {
        Ok(text) => Ok(text),
        Err(why) => Err(stop_of(why)),
    }
}

// The text that `entail` writes for the file of a name and a judgement, with the constants of a lattice.
fn entail<'a, F: Files>(
    alloc: Global,
    lattice: Option<&'a str>,
    file: &'a str,
    judgement: &str,
    files: &mut F,
) -> Result<Vec<u8>, Stop<'a>>
    ensures { let command = Entail (option_copied lattice.entry) file.now judgement.now in MatchResult result
        (λ text. Gives command (F.content files.old) text.items)
        (Stops command (F.content files.old) (F.faults files.old) (F.faults files.new)) }
{
    let lattice = match lattice_for(alloc, lattice, files) {
        Ok(lattice) => lattice,
        Err(stop) => return Err(stop),
    };
    let bytes = match content_of(alloc, file, TEXT_LIMIT, Refusal::TextTooLarge, files) {
        Ok(bytes) => bytes,
        Err(stop) => return Err(stop),
    };
    match entail_text(alloc, bytes.as_slice(), judgement.as_bytes(), &lattice) {
        Ok(text) => Ok(text),
        Err(why) => Err(stop_of(why)),
    }
}

// The text that is written for a request.
fn text_of<'a, F: Files>(
    alloc: Global,
    request: Request<'a>,
    files: &mut F,
) -> Result<Vec<u8>, Stop<'a>>
    ensures { MatchResult result
        (λ text. Gives (meaning request.entry) (F.content files.old) text.items)
        (Stops (meaning request.entry) (F.content files.old) (F.faults files.old) (F.faults files.new)) }
{
    match request {
        Request::Report {
            content,
            options,
            object,
        } => report(alloc, content, options, object, files),
        Request::Entail {
            lattice,
            file,
            judgement,
        } => entail(alloc, lattice, file, judgement, files),
    }
}

// Writes the text of a request.
fn work<'a, F: Files, O: Sink>(
    alloc: Global,
    request: Request<'a>,
    files: &mut F,
    out: &mut O,
) -> Ending<'a>
    ensures { Ends (meaning request.entry) (F.content files.old) (F.faults files.old) (F.faults files.new)
        (PutsText O.written O.takes out.old out.new) (Rose (O.faults out.old) (O.faults out.new))
        (PutsFront O.written O.takes O.refuses out.old out.new) (out.new ≡ out.old) result }
{
    match text_of(alloc, request, files) {
        Ok(text) => match put_all(out, text.as_slice()) {
            Ok(()) => Ending::Written,
            Err(_) => Ending::NoWrite,
        },
        Err(stop) => Ending::Stopped(stop),
    }
}

// Tells a refusal, and answers the status.
fn tell_refusal<E: Sink>(alloc: Global, refusal: &Refusal, err: &mut E) -> u8
    ensures statuses { (result ≡ 1) ⊎ (result ≡ 5) }
    ensures told { result ≡ 1 → PutsLine E.written E.faults E.takes E.refuses err.old err.new (refusal_line refusal.now) }
    ensures memory { result ≡ 5 → PutsLine E.written E.faults E.takes E.refuses err.old err.new memory_line }
{
    match refusal_line(alloc, refusal) {
        Ok(line) => {
            put_line(err, line.as_slice());
            1
        }
        Err(_) => {
            put_line(err, b"error memory\n");
            5
        }
    }
}

// Tells that a file wasn't read, and answers the status.
fn tell_unread<E: Sink>(alloc: Global, name: &str, err: &mut E) -> u8
    ensures statuses { (result ≡ 3) ⊎ (result ≡ 5) }
    ensures told { result ≡ 3 → PutsLine E.written E.faults E.takes E.refuses err.old err.new (read_line name.now) }
    ensures memory { result ≡ 5 → PutsLine E.written E.faults E.takes E.refuses err.old err.new memory_line }
{
    match read_line(alloc, name) {
        Ok(line) => {
            put_line(err, line.as_slice());
            3
        }
        Err(_) => {
            put_line(err, b"error memory\n");
            5
        }
    }
}

/// Reads what the words name, writes what it gives, and answers the status: 0 written, 1 an input is refused, 2 the words
/// aren't of the grammar, 3 a read failed, 4 a write failed, 5 no memory. At each status but 0 one line on `err` says why.
///
/// `constraints OBJECT` writes, for each procedure of the object, the lines of its instructions, `schemes OBJECT` a scheme
/// with nothing to spare that judges the same, `sketches OBJECT` the sketch of that scheme, and `header
/// OBJECT` the C declarations of these sketches. `entail FILE JUDGEMENT` writes whether the judgement is derivable from the
/// lines of the file. The option `--lattice FILE` gives the constants, and `--signatures FILE`, which `entail` has not, what
/// functions outside the object take and give. Before its own file a command reads and checks the lattice, and then the
/// signatures. The text is made whole before it is put.
pub fn run<F: Files, O: Sink, E: Sink>(
    alloc: Global,
    words: &Vec<String>,
    files: &mut F,
    out: &mut O,
    err: &mut E,
) -> u8
    // Another list of words is status 2, whatever else stands.
    ensures usage { (result ≡ 2) ↔ (command_of (map string_bytes words.now.items) ≡ None) }
    ensures statuses { result ≤ 5 }

    // At status 0 a text that the command writes was written, in pieces of 4,096 bytes, and err is as it was.
    ensures written { result ≡ 0 → IfSome (command_of (map string_bytes words.now.items)) (λ command.
        Writes command (F.content files.old) (PutsText O.written O.takes out.old out.new)) }
    ensures silent { result ≡ 0 → err.new ≡ err.old }

    // At each other status its line was put on err, once, whatever came of that.

    // At status 1 the first of the command's files that is refused is so by the refusal that the line names.
    ensures refused { result ≡ 1 → IfSome (command_of (map string_bytes words.now.items)) (λ command. (refusal : Refusal) ×
        IsRefusedBy command (F.content files.old) refusal ×
        PutsLine E.written E.faults E.takes E.refuses err.old err.new (refusal_line refusal)) }

    ensures usage_told { result ≡ 2 →
        PutsLine E.written E.faults E.takes E.refuses err.old err.new usage_line }

    // At status 3 a read of a file of the command failed, where those before it are accepted, and the line names it.
    ensures unread { result ≡ 3 →
        IfSome (command_of (map string_bytes words.now.items)) (λ command. (step : Step) × (name : List ℕ) ×
        ComesTo command (F.content files.old) step name × Rose (F.faults files.old name) (F.faults files.new name) ×
        PutsLine E.written E.faults E.takes E.refuses err.old err.new (read_line name)) }

    // At status 4 a put failed, and a prefix of a text that the command writes was written, in its pieces up to the one that failed.
    ensures unwritten { result ≡ 4 → Rose (O.faults out.old) (O.faults out.new) ×
        PutsLine E.written E.faults E.takes E.refuses err.old err.new write_line }
    ensures front { result ≡ 4 → IfSome (command_of (map string_bytes words.now.items)) (λ command.
        Writes command (F.content files.old) (PutsFront O.written O.takes O.refuses out.old out.new)) }

    ensures memory_told { result ≡ 5 →
        PutsLine E.written E.faults E.takes E.refuses err.old err.new memory_line }

    // At the others out is as it was.
    ensures untouched { result ≢ 0 → result ≢ 4 → out.new ≡ out.old }
{
    let Some(request) = read_words(words.as_slice()) else {
        put_line(
            err,
            b"usage: retypd COMMAND [--lattice FILE] [--signatures FILE] ARGUMENTS\n",
        );
        return 2;
    };
    match work(alloc, request, files, out) {
        Ending::Written => 0,
        Ending::NoWrite => {
            put_line(err, b"error write\n");
            4
        }
        Ending::Stopped(Stop::Refused(refusal)) => tell_refusal(alloc, &refusal, err),
        Ending::Stopped(Stop::NoRead(name)) => tell_unread(alloc, name, err),
        Ending::Stopped(Stop::NoMemory) => {
            put_line(err, b"error memory\n");
            5
        }
    }
}
