//! Reads the words of the command line.
ghost use Rattle.std.specs.Prelude.{◌≡◌, map, IfOk, is_some, true};
ghost use Rattle.clap.specs.Words.{found_of, rows_of, subcommand_rows_of};
ghost use Rattle.command_line.specs.ClapLine.{command_found, command_named, given_number, has_flag, run_found};
ghost use Rattle.command_line.specs.Commands.{command_of};

use crate::command::Command;
use crate::line::guards_line;
use crate::spelling::{number_of, run_last, spelled};
use clap::ArgMatches;
use clap::error::ErrorKind;
use guards_base::Words;
use std::alloc::{AllocError, Global};

/// Whether the flag was given.
fn has_flag(found: &ArgMatches, id: &str) -> bool
    ensures { result ≡ has_flag id.now (rows_of (found_of found.now)) }
{
    match found.get_str(id) {
        Some(text) => text == "true",
        None => false,
    }
}

/// The number that was given.
fn given_number(found: &ArgMatches, id: &str) -> Option<u64>
    ensures { result ≡ given_number id.now (rows_of (found_of found.now)) }
{
    match found.get_str(id) {
        Some(text) => number_of(text),
        None => None,
    }
}

/// The command `run` with what was given.
#[tactic(auto, unfolding(crate::specs::ClapLine::run_found))]
fn run_found(found: &ArgMatches) -> Option<Command>
    ensures { result ≡ run_found (rows_of (found_of found.now)) }
{
    let trace = has_flag(found, "trace");
    match found.get_str("last") {
        Some(text) => run_last(trace, text),
        None => Some(Command::Run { trace, last: None }),
    }
}

/// The command of a subcommand.
#[tactic(auto, unfolding(crate::specs::ClapLine::command_named))]
fn command_named(name: &str, found: &ArgMatches) -> Option<Command>
    ensures { result ≡ command_named name.now (rows_of (found_of found.now)) }
{
    if name == "run" {
        run_found(found)
    } else if name == "check" {
        Some(Command::Check)
    } else if name == "audit" {
        Some(Command::Audit)
    } else {
        given_number(found, "number").map(Command::Demo)
    }
}

/// The command of what was found.
fn command_found(matches: &ArgMatches) -> Option<Command>
    ensures { result ≡ command_found (subcommand_rows_of matches.now) }
{
    match matches.subcommand() {
        Some((name, found)) => command_named(name, found),
        None => None,
    }
}

/// The command that `clap` reads.
fn parsed(alloc: Global, words: &[&str]) -> Result<Option<Command>, AllocError>
    requires { is_some (command_of (map (λ word. word.now) words.now)) ≡ true }
    ensures { IfOk result (λ command. command ≡ command_of (map (λ word. word.now) words.now)) }
{
    let line = guards_line(alloc)?;
    match line.try_get_matches_from(words) {
        Ok(matches) => Ok(command_found(&matches)),
        Err(error) => {
            if error.kind() == ErrorKind::OutOfMemory {
                return Err(AllocError);
            }
            Ok(None)
        }
    }
}

fn read_words(alloc: Global, words: &[&str]) -> Result<Option<Command>, AllocError>
    ensures { IfOk result (λ command. command ≡ command_of (map (λ word. word.now) words.now)) }
{
    if spelled(words).is_none() {
        return Ok(None);
    }
    parsed(alloc, words)
}

/// The command of the words that follow the program's name, or none. It is `run`, `run --trace`, `run --last K`,
/// `run --trace --last K` or `run --last K --trace` with a number K of one to four digits from 1 to 2,000, `check`,
/// `demo N` with a number of one to twenty digits below two to the 64th, or `audit`; no other list of words is a
/// command, also not one with `--`, with a joined spelling or with a call for help.
pub fn read_command(alloc: Global, words: &Words) -> Result<Option<Command>, AllocError>
    ensures { IfOk result (λ command. command ≡ command_of words.now.items) }
{
    match words.as_slice() {
        [] => Ok(None),
        [word] => read_words(alloc, &[word.as_str()]),
        [word, value] => read_words(alloc, &[word.as_str(), value.as_str()]),
        [word, flag, count] => {
            read_words(alloc, &[word.as_str(), flag.as_str(), count.as_str()])
        }
        [word, first, second, third] => read_words(
            alloc,
            &[
                word.as_str(),
                first.as_str(),
                second.as_str(),
                third.as_str(),
            ],
        ),
        [_, _, _, _, _, ..] => Ok(None),
    }
}
