//! Whether the parts of a frame are within their ranges.

ghost use Rattle.std.specs.Prelude.{◌≡◌, ◌&&◌, ◌==◌, true, nat_lt, length};
ghost use Rattle.std.specs.List.{list_all};
ghost use Rattle.guards_model.specs.Words.{is_word};
ghost use Rattle.guards_model.specs.Frames.{is_set, is_channel, fits_u32, absent_or, words_in_range, source_word_in_range, item_in_range, copy_in_range, copies_in_range, is_distinct, each_next, numbers_of, codes_in_range, counts_in_range, law_in_range, names_law, control_in_range, sweep_body, final_body, exchange_in_range, body_in_range, in_range};
ghost use Rattle.icn_frames.specs.Bodies.{view_body};

use crate::frame::{BlockCopy, Body, ControlWord, Exchange, FinalBody, Frame, Item, SweepBody};
use crate::ranges::{
    COUNT_CAP, are_codes, ascend, is_path, labels, numbers_ascend, numbers_differ,
};
use guards_base::{Ballot, Chan, ChanSet, Law, SourceWord};

/// Each i64 is a word.
fn is_a_word(word: i64)
    ensures { is_word word ≡ true }
{}

fn words_are_words(words: &[i64])
    ensures { list_all is_word words.now ≡ true }
{
    match words {
        [] => {}
        [word, rest @ ..] => {
            is_a_word(*word);
            words_are_words(rest);
        }
    }
}

/// Each set of the type is a set.
#[tactic(auto, using(guards_model::proofs::Numbers::is_set_of_mask))]
fn is_a_set(set: &ChanSet)
    ensures { is_set set.now ≡ true }
{
    let _mask = set.mask();
}

fn has_words(word: &SourceWord)
    ensures { words_in_range 1 4 word.now.words ≡ true }
{
    let _width = word.width;
    words_are_words(word.in_use());
}

fn has_codes(word: &SourceWord)
    ensures { codes_in_range word.now.heard ≡ true }
{
    let _codes = are_codes(&word.heard);
}

/// Each source word of the type is in range.
fn is_a_source_word(word: &SourceWord)
    ensures { source_word_in_range word.now ≡ true }
{
    has_words(word);
    is_a_set(&word.accuse);
    has_codes(word);
}

fn value_is_in_range(word: &Option<SourceWord>)
    ensures { absent_or source_word_in_range word.now ≡ true }
{
    match word {
        None => {}
        Some(word) => is_a_source_word(word),
    }
}

fn has_item_ranges(sender: Chan, round: u8, item: &Item) -> bool
    ensures { result ≡ item_in_range sender round item.now }
{
    value_is_in_range(&item.word);
    labels(&item.path).len() + 1 == round as usize && is_path(sender, &item.path)
}

fn have_item_ranges(sender: Chan, round: u8, items: &[Item]) -> bool
    ensures { result ≡ list_all (item_in_range sender round) items.now }
{
    match items {
        [] => true,
        [item, rest @ ..] => {
            has_item_ranges(sender, round, item) && have_item_ranges(sender, round, rest)
        }
    }
}

/// Each ballot of the type has words in range.
fn is_a_ballot(ballot: &Ballot)
    ensures { words_in_range 1 8 ballot.now ≡ true }
{
    let _count = ballot.count;
    words_are_words(ballot.in_use());
}

/// Eight words of the type are eight words.
fn are_eight_words(words: &[i64; 8])
    ensures { (length words.now == 8 && list_all is_word words.now) ≡ true }
{
    words_are_words(words);
}

/// Each copy of the type is a copy.
fn is_a_copy(copy: &BlockCopy)
    ensures { copy_in_range copy.now ≡ true }
{
    let _block = copy.block;
    are_eight_words(&copy.words.words);
}

fn copies_are_copies(copies: &[BlockCopy])
    ensures { list_all copy_in_range copies.now ≡ true }
{
    match copies {
        [] => {}
        [copy, rest @ ..] => {
            is_a_copy(copy);
            copies_are_copies(rest);
        }
    }
}

fn are_swept(copies: &[BlockCopy]) -> bool
    ensures { result ≡ (copies_in_range 1 64 copies.now && is_distinct (numbers_of copies.now)) }
{
    if copies.is_empty() || copies.len() > 64 {
        return false;
    }
    copies_are_copies(copies);
    numbers_differ(copies)
}

fn are_final(copies: &[BlockCopy]) -> bool
    ensures { result ≡ (copies_in_range 0 64 copies.now && each_next nat_lt (numbers_of copies.now)) }
{
    if copies.len() > 64 {
        return false;
    }
    copies_are_copies(copies);
    numbers_ascend(copies)
}

/// Whether each count is at most the cap.
fn are_counts(counts: &[u32; 7]) -> bool
    ensures { result ≡ counts_in_range counts.now }
{
    let [a, b, c, d, e, f, g] = *counts;
    a <= COUNT_CAP
        && b <= COUNT_CAP
        && c <= COUNT_CAP
        && d <= COUNT_CAP
        && e <= COUNT_CAP
        && f <= COUNT_CAP
        && g <= COUNT_CAP
}

/// Whether the law may stand in a frame of the version.
fn has_law(version: u8, law: Law) -> bool
    ensures { result ≡ law_in_range (names_law version) law }
{
    match law {
        Law::Multiply => true,
        Law::Subtract => 2 <= version,
    }
}

fn has_control_ranges(version: u8, control: &ControlWord) -> bool
    ensures { result ≡ control_in_range version control.now }
{
    is_a_set(&control.active);
    is_a_set(&control.fresh);
    has_law(version, control.law) && are_counts(&control.alphas)
}

/// Each start of the type is a number of four bytes.
fn start_fits(start: Option<u32>)
    ensures { absent_or fits_u32 start ≡ true }
{
    match start {
        None => {}
        Some(_start) => {}
    }
}

/// Each number of the type is one of four bytes.
fn number_fits(number: u32)
    ensures { fits_u32 number ≡ true }
{}

/// Each channel of the type is a channel.
fn is_a_channel(channel: Chan)
    ensures { is_channel channel ≡ true }
{
    let _index = channel.index();
}

fn has_sweep_ranges(sweep: &SweepBody) -> bool
    ensures { result ≡ body_in_range 1 0 (sweep_body sweep.now) }
{
    is_a_channel(sweep.target);
    number_fits(sweep.start);
    are_swept(sweep.blocks.as_slice())
}

fn has_final_ranges(version: u8, last: &FinalBody) -> bool
    ensures { result ≡ body_in_range version 0 (final_body last.now) }
{
    is_a_channel(last.target);
    number_fits(last.start);
    are_final(last.blocks.as_slice()) && has_control_ranges(version, &last.control)
}

fn has_body_ranges(version: u8, sender: Chan, body: &Body) -> bool
    ensures { result ≡ body_in_range version sender (view_body body.now) }
{
    match body {
        Body::Request(start) => {
            start_fits(*start);
            true
        }
        Body::Exchange(exchange) => exchange.in_range(sender),
        Body::Vote(ballot) => {
            is_a_ballot(ballot);
            true
        }
        Body::Sweep(sweep) => has_sweep_ranges(sweep),
        Body::Final(last) => has_final_ranges(version, last),
        Body::Switch(active) => {
            is_a_set(active);
            true
        }
    }
}

impl Exchange {
    /// Whether a frame of the sender may have these items: a round from 1 to 3, and at most 30 items whose paths
    /// ascend, each of different channels without the sender and as long as the round asks.
    pub fn in_range(&self, sender: Chan) -> bool
        ensures { result ≡ exchange_in_range sender self.now }
    {
        let items = self.items.as_slice();
        1 <= self.round
            && self.round <= 3
            && items.len() <= 30
            && have_item_ranges(sender, self.round, items)
            && ascend(items)
    }
}

impl Frame {
    /// Whether the frame has a spelling: whether its parts are within their ranges.
    pub fn in_range(&self) -> bool
        ensures { result ≡ in_range self.now }
    {
        is_a_channel(self.sender);
        number_fits(self.cycle);
        1 <= self.version
            && self.version <= 2
            && has_body_ranges(self.version, self.sender, &self.body)
    }
}
