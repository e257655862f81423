//! The program `retypd`: the words, files and streams of the system, and the status.
#![tactic(auto)]

mod files;
mod out;

use files::HostFiles;
use out::HostOut;
use rt_io::Sink;
use rt_run::run;
use std::env::{self, Env};
use std::io::ErrorKind;
use std::process::ExitCode;

// The words after the program's name, or why there are none.
fn words_of<R: Env + AllocGlobal>(rt: &R) -> Result<Vec<String>, ErrorKind> {
    let words = match env::args(rt) {
        Ok(words) => words,
        Err(error) => return Err(error.kind()),
    };
    let mut after_name = Vec::new(rt.alloc());
    for word in words.skip(1) {
        if after_name.push(word).is_err() {
            return Err(ErrorKind::OutOfMemory);
        }
    }
    Ok(after_name)
}

fn main(rt: HostRuntime) -> ExitCode {
    let mut files = HostFiles::new(&rt);
    let mut out = HostOut::new(rt.stdout());
    let mut err = HostOut::new(rt.stderr());
    let status = match words_of(&rt) {
        Ok(words) => run(rt.alloc(), &words, &mut files, &mut out, &mut err),
        Err(ErrorKind::OutOfMemory) => {
            let _ = err.put(b"error memory\n");
            5
        }
        // A word that isn't UTF-8 is no word of the grammar, and neither are none.
        Err(_) => run(
            rt.alloc(),
            &Vec::new(rt.alloc()),
            &mut files,
            &mut out,
            &mut err,
        ),
    };
    ExitCode::from(status)
}
