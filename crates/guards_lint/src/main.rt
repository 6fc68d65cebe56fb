//! The linter: a mission from standard input, and the lines on it to standard output.
#![tactic(auto)]

use guards_base::{Text, Words};
use guards_io::{StdSink, StdSource};
use lint_run::lint;
use std::alloc::AllocError;
use std::env;
use std::io::ErrorKind;
use std::process::ExitCode;

/// The exit status where memory runs out before the call.
const NO_MEMORY: u8 = 8;

/// The words after the program's name. Words that are no text are none.
fn words(rt: &HostRuntime) -> Result<Words, AllocError> {
    let mut words = Words::new(rt.alloc());
    match env::args(rt) {
        Ok(args) => {
            for arg in args.skip(1) {
                words.push(Text::from_string(arg))?;
            }
        }
        Err(error) => {
            if error.kind() == ErrorKind::OutOfMemory {
                return Err(AllocError);
            }
        }
    }
    Ok(words)
}

fn main(rt: HostRuntime) -> ExitCode {
    let mut src = StdSource::new(rt.stdin());
    let mut out = StdSink::new(rt.stdout());
    let status = match words(&rt) {
        Ok(words) => lint(rt.alloc(), &words, &mut src, &mut out).code(),
        Err(AllocError) => NO_MEMORY,
    };
    ExitCode::from(status)
}
