//! The one spelling of each command.
ghost use Rattle.std.specs.Prelude.{◌≡◌, map};
ghost use Rattle.std.specs.Char.{is_ascii_digit};
ghost use Rattle.std.specs.List.{list_all};
ghost use Rattle.command_line.specs.Commands.{command_of, command_of_word, command_of_pair, command_of_three, command_of_four, count_of, is_number, number_of, run_last};

use crate::command::{Command, Count};

/// The most digits of a count of cycles.
const MOST_COUNT_DIGITS: usize = 4;

/// The most digits of a number.
const MOST_DIGITS: usize = 20;

fn is_number(text: &str) -> bool
    ensures { result ≡ is_number text.now }
{
    let digits = text.as_bytes();
    !digits.is_empty() && digits.len() <= MOST_DIGITS && are_digits(digits)
}

fn are_digits(bytes: &[u8]) -> bool
    ensures { result ≡ list_all is_ascii_digit bytes.now }
{
    bytes.iter().all(|byte| byte.is_ascii_digit())
}

/// The number that a text of one to twenty digits writes, where it is below two to the 64th.
pub(crate) fn number_of(text: &str) -> Option<u64>
    ensures { result ≡ number_of text.now }
{
    if is_number(text) {
        text.parse::<u64>().ok()
    } else {
        None
    }
}

/// The number that a text of one to four digits writes, where it is 1 to 2,000.
#[tactic(auto, unfolding(crate::specs::Commands::count_of))]
fn count_of(text: &str) -> Option<Count>
    ensures { result ≡ count_of text.now }
{
    if text.len() > MOST_COUNT_DIGITS {
        return None;
    }
    match number_of(text) {
        Some(number) => Count::of(number),
        None => None,
    }
}

/// The command that tells the last cycles of a run, where the text is such a number.
#[tactic(auto, unfolding(crate::specs::Commands::run_last))]
pub(crate) fn run_last(trace: bool, count: &str) -> Option<Command>
    ensures { result ≡ run_last trace count.now }
{
    match count_of(count) {
        Some(count) => Some(Command::Run {
            trace,
            last: Some(count),
        }),
        None => None,
    }
}

#[tactic(auto, unfolding(crate::specs::Commands::command_of_word))]
fn command_of_word(word: &str) -> Option<Command>
    ensures { result ≡ command_of_word word.now }
{
    if word == "run" {
        Some(Command::Run {
            trace: false,
            last: None,
        })
    } else if word == "check" {
        Some(Command::Check)
    } else if word == "audit" {
        Some(Command::Audit)
    } else {
        None
    }
}

#[tactic(auto, unfolding(crate::specs::Commands::command_of_pair))]
fn command_of_pair(word: &str, value: &str) -> Option<Command>
    ensures { result ≡ command_of_pair word.now value.now }
{
    if word == "run" {
        if value == "--trace" {
            return Some(Command::Run {
                trace: true,
                last: None,
            });
        }
        return None;
    }
    if word == "demo" {
        return number_of(value).map(Command::Demo);
    }
    None
}

#[tactic(auto, unfolding(crate::specs::Commands::command_of_three))]
fn command_of_three(word: &str, flag: &str, count: &str) -> Option<Command>
    ensures { result ≡ command_of_three word.now flag.now count.now }
{
    if word == "run" && flag == "--last" {
        run_last(false, count)
    } else {
        None
    }
}

#[tactic(auto, unfolding(crate::specs::Commands::command_of_four))]
fn command_of_four(word: &str, first: &str, second: &str, third: &str) -> Option<Command>
    ensures { result ≡ command_of_four word.now first.now second.now third.now }
{
    if word != "run" {
        return None;
    }
    if first == "--trace" && second == "--last" {
        return run_last(true, third);
    }
    if first == "--last" && third == "--trace" {
        return run_last(true, second);
    }
    None
}

/// The command that is spelled by these words.
pub(crate) fn spelled(words: &[&str]) -> Option<Command>
    ensures { result ≡ command_of (map (λ word. word.now) words.now) }
{
    match words {
        [] => None,
        [word] => command_of_word(word),
        [word, value] => command_of_pair(word, value),
        [word, flag, count] => command_of_three(word, flag, count),
        [word, first, second, third] => command_of_four(word, first, second, third),
        [_, _, _, _, _, ..] => None,
    }
}
