//! The pieces of a line, read from their letters. Each reader knows what a text spells; of a text that spells
//! nothing it gives any value, since the whole line is spelled again and compared.
ghost use Rattle.std.specs.Prelude.{◌≡◌, ◌≤◌, ◌<◌, ◌^◌, true, ℕ, ℤ, List, ◌∷◌, length, map, take, nat_lt, Option, Some, All, IfOk, IsUtf8};
ghost use Rattle.std.specs.List.{join_with_byte, list_all};
ghost use Rattle.std.specs.Fmt.{decimal, signed_decimal};
ghost use Rattle.guards_model.specs.Channels.{ChannelSet, channels_where};
ghost use Rattle.guards_model.specs.Frames.{is_channel, is_set};
ghost use Rattle.guards_model.specs.Records.{actor_of_step, transfer_of_pair};
ghost use Rattle.guards_model.specs.Texts.{TextValue, set_text, words_text, transfer_text, remaining_text, vote_text};
ghost use Rattle.guards_model.specs.Transfers.{TransferValue};
ghost use Rattle.guards_model.specs.Words.{is_word};
ghost use Rattle.guards_audit.specs.Lines.{if_there, is_cast, is_small, is_transfer};
ghost use Rattle.guards_audit.specs.Reading.{step_of, steps_read};
ghost use Rattle.run_audit.specs.Pieces.{lacks, has_digit};

use guards_base::{Bytes, Chan, ChanSet, set_by};
use std::alloc::{AllocError, Global};

/// What stands before the first such letter, and what follows it. A text without the letter is one piece.
pub fn piece<'a>(text: &'a str, letter: char) -> (&'a str, &'a str)
    requires { letter < 128 }
    ensures cut { (first : TextValue) (rest : List TextValue) → lacks letter first ≡ true →
        text.now ≡ join_with_byte letter (first ∷ rest) →
        (result.0.now ≡ first) × (result.1.now ≡ join_with_byte letter rest) }
    ensures text { IsUtf8 result.1.now }
{
    match text.split_once(letter) {
        Some(cut) => cut,
        None => (text, ""),
    }
}

/// A word, with its sign.
pub fn word(text: &str) -> i64
    ensures read { (w : ℤ) → is_word w ≡ true → text.now ≡ signed_decimal w → result ≡ w }
    ensures formed { is_word result ≡ true }
{
    text.parse::<i64>().unwrap_or(0)
}

/// A number of a cycle, count or block.
pub fn number(text: &str) -> u32
    ensures read { (n : ℕ) → n < 2 ^ 32 → text.now ≡ decimal n → result ≡ n }
    ensures formed { is_small result ≡ true }
{
    text.parse::<u32>().unwrap_or(0)
}

/// A number of blocks.
pub fn block_count(text: &str) -> u16
    ensures { (n : ℕ) → n < 2 ^ 16 → text.now ≡ decimal n → result ≡ n }
{
    text.parse::<u16>().unwrap_or(0)
}

/// A number of channels.
pub fn small_number(text: &str) -> u8
    ensures { (n : ℕ) → n < 2 ^ 8 → text.now ≡ decimal n → result ≡ n }
{
    text.parse::<u8>().unwrap_or(0)
}

/// A channel, by its number.
pub fn channel(text: &str) -> Option<Chan>
    ensures { (q : ℕ) → is_channel q ≡ true → text.now ≡ decimal q → result ≡ Some q }
{
    Chan::new(small_number(text))
}

/// Whether a text has the digit of a channel.
fn has_digit(text: &str, number: u8) -> bool
    requires { number < 7 }
    ensures { result ≡ has_digit text.now number }
{
    text.as_bytes()
        .iter()
        .any(|letter| *letter == b'0' + number)
}

/// The channels whose digits a text has.
fn digits(text: &str) -> ChanSet
    ensures { result ≡ channels_where (has_digit text.now) }
{
    set_by(
        |c: Chan| -> bool
            ensures { result ≡ has_digit text.entry.now c }
        { has_digit(text, c.index()) },
    )
}

/// A set: the channels whose digits are there.
pub fn set(text: &str) -> ChanSet
    ensures read { (set : ChannelSet) → is_set set ≡ true → text.now ≡ set_text set → result ≡ set }
    ensures formed { is_set result ≡ true }
{
    digits(text)
}

/// So many words at commas.
pub fn words(text: &str, count: u8) -> [i64; 8]
    requires { count ≤ 8 }
    ensures read { (ws : List ℤ) → list_all is_word ws ≡ true → length ws ≡ count → text.now ≡ words_text ws →
        take count result ≡ ws }
    ensures whole { length result ≡ 8 }
    ensures formed { list_all is_word result ≡ true }
{
    let mut words = [0; 8];
    let mut rest = text;
    for place in 0..usize::from(count) {
        let (now, more) = piece(rest, ',');
        words[place] = word(now);
        rest = more;
    }
    words
}

/// The inputs of a channel's line.
pub fn inputs(text: &str, width: u8) -> [i64; 4]
    requires { width ≤ 4 }
    ensures read { (ws : List ℤ) → list_all is_word ws ≡ true → length ws ≡ width → text.now ≡ words_text ws →
        take width result ≡ ws }
    ensures whole { length result ≡ 4 }
    ensures formed { list_all is_word result ≡ true }
{
    let mut inputs = [0; 4];
    inputs.copy_from_slice(&words(text, width)[..4]);
    inputs
}

/// Its votes.
pub fn votes(text: &str, outputs: u8) -> [Option<i64>; 8]
    requires { outputs ≤ 8 }
    ensures read { (vs : List (Option ℤ)) → list_all is_cast vs ≡ true → length vs ≡ outputs →
        text.now ≡ join_with_byte 44 (map vote_text vs) →
        take outputs result ≡ vs }
    ensures whole { length result ≡ 8 }
    ensures formed { list_all is_cast result ≡ true }
{
    let words = words(text, outputs);
    let mut votes = [None; 8];
    for place in 0..8usize {
        votes[place] = Some(words[place]);
    }
    votes
}

/// Its counts.
pub fn counts(text: &str, channels: u8) -> [u32; 7]
    requires { channels ≤ 7 }
    ensures read { (ns : List ℕ) → list_all is_small ns ≡ true → length ns ≡ channels →
        text.now ≡ join_with_byte 44 (map decimal ns) →
        take channels result ≡ ns }
    ensures whole { length result ≡ 7 }
    ensures formed { list_all is_small result ≡ true }
{
    let mut counts = [0; 7];
    let mut rest = text;
    for place in 0..usize::from(channels) {
        let (now, more) = piece(rest, ',');
        counts[place] = number(now);
        rest = more;
    }
    counts
}

/// A transfer: `-`, or a set and a start at `@`.
pub fn transfer(text: &str) -> Option<(ChanSet, u32)>
    ensures read { (t : Option TransferValue) → if_there is_transfer t ≡ true → text.now ≡ transfer_text t →
        transfer_of_pair result ≡ t }
    ensures formed { if_there is_transfer (transfer_of_pair result) ≡ true }
{
    if text == "-" {
        return None;
    }
    let (targets, start) = piece(text, '@');
    Some((set(targets), number(start)))
}

/// How many blocks remain: `-` where no transfer runs.
pub fn remaining(text: &str) -> Option<u16>
    ensures { (n : Option ℕ) → if_there (λ k. nat_lt k (2 ^ 16)) n ≡ true → text.now ≡ remaining_text n → result ≡ n }
{
    if text == "-" {
        return None;
    }
    Some(block_count(text))
}

// A letter of a step: T is a write, any other a copy.
fn step(letter: u8) -> u8
    ensures actor { actor_of_step result ≡ step_of letter }
    ensures small { result < 2 }
{
    if letter == b'T' { 0 } else { 1 }
}

/// Steps: `-`, or a letter for each.
pub fn steps(alloc: Global, text: &str) -> Result<Bytes, AllocError>
    ensures read { IfOk result (λ bytes. map actor_of_step bytes.items ≡ steps_read text.now) }
    ensures small { IfOk result (λ bytes. All (λ s. s < 2) bytes.items) }
{
    let mut steps = Bytes::new(alloc);
    if text == "-" {
        return Ok(steps);
    }
    for letter in text.as_bytes() {
        steps.push(step(*letter))?;
    }
    Ok(steps)
}
