//! What the final frames of a cycle say.
ghost use Rattle.std.specs.Prelude.{◌≡◌, ◌≤◌, length, count_by, bytes_eq};
ghost use Rattle.std.specs.Cmp.Lexicographic.{pointwise};
ghost use Rattle.std.specs.Option.{option_copied};
ghost use Rattle.guards_model.specs.Majority.{majority};
ghost use Rattle.guards_model.specs.Network.{same_law};
ghost use Rattle.guards_model.specs.Replicas.{same_copy, same_control, same_final};

use crate::majority::is_most;
use crate::sweeps::same_block;
use guards_base::{ChanSet, Law};
use icn_frames::{BlockCopy, ControlWord, FinalBody};

/// Whether two sets are equal.
fn same_set(a: &ChanSet, b: &ChanSet) -> bool
    ensures { result ≡ bytes_eq a.now b.now }
{
    a.mask() == b.mask()
}

/// Whether two laws are equal.
fn are_one_law(a: Law, b: Law) -> bool
    ensures { result ≡ same_law a b }
{
    match a {
        Law::Multiply => match b {
            Law::Multiply => true,
            Law::Subtract => false,
        },
        Law::Subtract => match b {
            Law::Multiply => false,
            Law::Subtract => true,
        },
    }
}

/// Whether two copies are equal.
fn are_one_copy(a: &BlockCopy, b: &BlockCopy) -> bool
    ensures { result ≡ same_copy a.now b.now }
{
    a.block == b.block && same_block(&a.words, &b.words)
}

/// Whether two lists of copies are equal.
fn are_one_list(a: &[BlockCopy], b: &[BlockCopy]) -> bool
    ensures { result ≡ pointwise same_copy a.now b.now }
{
    match a {
        [] => match b {
            [] => true,
            _ => false,
        },
        [x, xs @ ..] => match b {
            [] => false,
            [y, ys @ ..] => are_one_copy(x, y) && are_one_list(xs, ys),
        },
    }
}

/// Whether two control words are equal.
fn are_one_control(a: &ControlWord, b: &ControlWord) -> bool
    ensures { result ≡ same_control a.now b.now }
{
    are_one_law(a.law, b.law)
        && same_set(&a.active, &b.active)
        && same_set(&a.fresh, &b.fresh)
        && a.alphas == b.alphas
}

/// Whether two contents are equal.
fn are_one_final(a: &FinalBody, b: &FinalBody) -> bool
    ensures { result ≡ same_final a.now b.now }
{
    a.target.index() == b.target.index()
        && a.start == b.start
        && are_one_list(a.blocks.as_slice(), b.blocks.as_slice())
        && are_one_control(&a.control, &b.control)
}

/// How many frames have this content.
fn with_content(frames: &[FinalBody], content: &FinalBody) -> usize
    ensures count { result ≡ count_by (same_final content.now) frames.now }
    ensures within { result ≤ length frames.now }
{
    match frames {
        [] => 0,
        [frame, rest @ ..] => {
            let others = with_content(rest, content);
            if are_one_final(content, frame) {
                others + 1
            } else {
                others
            }
        }
    }
}

/// The content that strictly more than half of the frames have.
pub fn most_content(frames: &[FinalBody]) -> Option<&FinalBody>
    ensures { option_copied result ≡ majority same_final frames.now }
{
    for frame in frames {
        if is_most(with_content(frames, frame), frames.len()) {
            return Some(frame);
        }
    }
    None
}
