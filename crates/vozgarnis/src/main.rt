//! The program: `run` over the files of the system, standard output and standard error.
//!
//! What is proved is the contract of `run` of `recoder_cli`. No contract says what `main` does with it: the exit code is
//! that of the status that `run` answers; where there was no memory for the words it is that of `NoMemory`, and where a
//! word isn't UTF-8 that of `Words`, and then nothing is written but the line of the status.
#![tactic(auto)]

ghost use Rattle.std.specs.Prelude.{◌≡◌, ◌≢◌};

use mv_ends::{FileShelf, StdSink};
use mv_terms::Status;
use recoder_cli::{run, tell};
use std::env;
use std::io::{self, ErrorKind};
use std::process::ExitCode;

fn main(rt: HostRuntime) -> ExitCode {
    let mut say = StdSink::new(rt.stderr());
    let words = match words(&rt) {
        Ok(words) => words,
        Err(error) => {
            let status = status_without_words(error.kind());
            tell(&mut say, &status);
            return ExitCode::from(status.code());
        }
    };
    let mut shelf = FileShelf::new(&rt);
    let mut out = StdSink::new(rt.stdout());
    ExitCode::from(run(rt.alloc(), &words, &mut shelf, &mut out, &mut say).code())
}

/// The words behind the program's name.
fn words(rt: &HostRuntime) -> io::Result<Vec<String>> {
    let mut words = Vec::new(rt.alloc());
    for word in env::args(rt)?.skip(1) {
        words.push(word)?;
    }
    Ok(words)
}

/// The status where there are no words: there was no memory for them, or one isn't UTF-8.
fn status_without_words(kind: ErrorKind) -> Status
    ensures memory { kind ≡ ErrorKind.OutOfMemory → result ≡ Status.NoMemory }
    ensures other { kind ≢ ErrorKind.OutOfMemory → result ≡ Status.Words }
{
    match kind {
        ErrorKind::OutOfMemory => Status::NoMemory,
        _ => Status::Words,
    }
}
