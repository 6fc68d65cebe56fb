//! The program: a report on standard input, alone or after its mission, and its picture on standard output.
#![tactic(auto)]

use guards_base::{Text, Words};
use guards_io::{StdSink, StdSource};
use mission_check::Status;
use picture_run::{PictureStatus, picture};
use std::alloc::AllocError;
use std::env;
use std::io::ErrorKind;
use std::process::ExitCode;

/// The words after the program's name. Words that are no text are one empty word.
fn words(rt: &HostRuntime) -> Result<Words, AllocError> {
    let mut words = Words::new(rt.alloc());
    match env::args(rt) {
        Ok(args) => {
            for arg in args.skip(1) {
                words.push(Text::from_string(arg))?;
            }
        }
        Err(error) => {
            if error.kind() == ErrorKind::OutOfMemory {
                return Err(AllocError);
            }
            words.push(Text::new(rt.alloc()))?;
        }
    }
    Ok(words)
}

fn main(rt: HostRuntime) -> ExitCode {
    let mut src = StdSource::new(rt.stdin());
    let mut out = StdSink::new(rt.stdout());
    let status = match words(&rt) {
        Ok(words) => picture(rt.alloc(), &words, &mut src, &mut out),
        Err(AllocError) => PictureStatus::Ended(Status::NoMemory),
    };
    ExitCode::from(status.code())
}
