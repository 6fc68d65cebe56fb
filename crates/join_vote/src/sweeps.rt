//! What the sweep frames of a cycle say.
ghost use Rattle.std.specs.Prelude.{◌≡◌, ◌≤◌, ◌*◌, ◌==◌, nat_lt, length, map, filter_map, find, count_by, option_map};
ghost use Rattle.std.specs.Option.{option_copied};
ghost use Rattle.guards_model.specs.Majority.{majority, majority_of};
ghost use Rattle.guards_model.specs.Replicas.{block_in_frame, same_words};

use crate::majority::is_most;
use context_blocks::Block;
use icn_frames::{BlockCopy, SweepBody};

/// The start of the transfer that a frame is of.
fn start_of(frame: &SweepBody) -> u32
    ensures { result ≡ frame.now.start }
{
    frame.start
}

/// How many frames have this start.
fn with_start(frames: &[SweepBody], start: u32) -> usize
    ensures count { result ≡ count_by (λ s. start == s) (map (λ f. f.start) frames.now) }
    ensures within { result ≤ length frames.now }
{
    match frames {
        [] => 0,
        [frame, rest @ ..] => {
            let others = with_start(rest, start);
            if start == start_of(frame) {
                others + 1
            } else {
                others
            }
        }
    }
}

/// The start that strictly more than half of the frames have.
pub fn most_start(frames: &[SweepBody]) -> Option<u32>
    ensures { result ≡ majority (λ a b. a == b) (map (λ f. f.start) frames.now) }
{
    for frame in frames {
        let start = start_of(frame);
        if is_most(with_start(frames, start), frames.len()) {
            return Some(start);
        }
    }
    None
}

/// The words of the first copy of a block.
fn copy_of(copies: &[BlockCopy], block: u8) -> Option<&Block>
    ensures { option_map (λ b. b.words) (option_copied result)
        ≡ option_map (λ copy. copy.words) (find (λ copy. copy.block == block) copies.now) }
{
    match copies {
        [] => None,
        [copy, rest @ ..] => {
            if copy.block == block {
                Some(&copy.words)
            } else {
                copy_of(rest, block)
            }
        }
    }
}

/// The words that a frame of this start has for a block.
fn words_in(frame: &SweepBody, start: u32, block: u8) -> Option<&Block>
    ensures { option_map (λ b. b.words) (option_copied result) ≡ block_in_frame start block frame.now }
{
    if frame.start == start {
        copy_of(frame.blocks.as_slice(), block)
    } else {
        None
    }
}

/// Whether the words of two blocks are equal.
pub fn same_block(a: &Block, b: &Block) -> bool
    ensures { result ≡ same_words a.now.words b.now.words }
{
    a.words == b.words
}

/// How many frames of this start have these words for a block.
fn with_words(frames: &[SweepBody], start: u32, block: u8, words: &Block) -> usize
    ensures count { result ≡ count_by (same_words words.now.words)
        (filter_map (block_in_frame start block) frames.now) }
    ensures within { result ≤ length frames.now }
{
    match frames {
        [] => 0,
        [frame, rest @ ..] => {
            let others = with_words(rest, start, block, words);
            match words_in(frame, start, block) {
                Some(other) => {
                    if same_block(words, other) {
                        others + 1
                    } else {
                        others
                    }
                }
                None => others,
            }
        }
    }
}

/// The first words of a block in the rest of the frames that strictly more than half of all have.
pub fn most_words(frames: &[SweepBody], rest: &[SweepBody], start: u32, block: u8) -> Option<Block>
    ensures { option_map (λ b. b.words) result
        ≡ find (λ v. nat_lt (length frames.now)
        (2 * count_by (same_words v) (filter_map (block_in_frame start block) frames.now)))
        (filter_map (block_in_frame start block) rest.now) }
{
    match rest {
        [] => None,
        [frame, others @ ..] => match words_in(frame, start, block) {
            Some(words) => {
                if is_most(with_words(frames, start, block, words), frames.len()) {
                    Some(*words)
                } else {
                    most_words(frames, others, start, block)
                }
            }
            None => most_words(frames, others, start, block),
        },
    }
}
