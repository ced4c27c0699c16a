//! The program: private set intersection with a live sender, both ends.
//!
//! `main` makes the source, the sink and the files of the process and hands them to `psi_run`, which is all that the program does: it
//! reads the words, checks the parameters, reads the source and the files, writes to the sink, and answers the status:
//!
//!     let status = psi_run(&rt, alloc, &words, &mut input, &mut files, &mut output, &Open);
//!
//! Its clauses say exactly what; the one that `serve` and `replay` are for is `headline`, in `specs/Headline`. The commands of one
//! thread are in `plain`, `serve` and `demo` in `run`. What is said of a command is said of its kind (`specs/Kinds`). The tables of
//! the words are those of `psi_words`; what is written stands in `specs/`.
#![tactic(auto)]

mod answer_file;
mod asking;
mod demonstration;
mod items;
mod opening;
mod outcome;
mod params;
mod plain;
mod reading;
mod run;
mod status;
#[cfg(test)]
mod tests;
mod texts;
mod threaded;

use psi_outside::{DiskFiles, Open, ReaderSource, WriterSink};
use psi_words::status_line;
use run::psi_run;
use status::Status;
use std::alloc::Global;
use std::process::ExitCode;
use std::{env, io};

fn main(rt: HostRuntime) -> ExitCode {
    let status = match command_words(&rt, rt.alloc()) {
        Ok(words) => {
            let mut input = ReaderSource::open(rt.reader());
            let mut output = WriterSink::open(io::writer(&rt));
            let mut files = DiskFiles::open(&rt);
            psi_run(
                &rt,
                rt.alloc(),
                &words,
                &mut input,
                &mut files,
                &mut output,
                &Open,
            )
        }
        Err(status) => status.number(),
    };
    let line = status_line(status);
    if !line.is_empty() {
        let _ = eprintln!(rt; "{line}");
    }
    ExitCode::from(status)
}

// The words of the command line behind the program's name. Words that are no text are no command's.
fn command_words(rt: &HostRuntime, alloc: Global) -> Result<Vec<String>, Status> {
    let args = env::args(rt).map_err(|error| status_of(error.kind()))?;
    args.skip(1).collect(alloc).map_err(|_| Status::NoMemory)
}

// The status of words that could not be taken.
fn status_of(kind: io::ErrorKind) -> Status {
    match kind {
        io::ErrorKind::OutOfMemory => Status::NoMemory,
        _ => Status::Words,
    }
}
