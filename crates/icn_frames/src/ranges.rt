//! The tests of ranges that reading a frame and judging one share.

ghost use Rattle.std.specs.Prelude.{◌≡◌, ◌&&◌, ◌==◌, not, nat_le, nat_lt, length};
ghost use Rattle.std.specs.List.{list_all};
ghost use Rattle.std.specs.Ordering.{nat_cmp, is_lt};
ghost use Rattle.std.specs.Cmp.Lexicographic.{slice_cmp};
ghost use Rattle.guards_model.specs.Channels.{has};
ghost use Rattle.guards_model.specs.Frames.{path_in_range, items_ascend, is_distinct, numbers_of, each_next};

use crate::frame::{BlockCopy, Item, Labels};
use guards_base::Chan;

/// The most that a count may reach.
pub const COUNT_CAP: u32 = 16_777_216;

/// Whether each code is 0, 1 or 2.
pub fn are_codes(heard: &[u8; 7]) -> bool
    ensures codes { result ≡ list_all (λ code. nat_le code 2) heard.now }
    ensures seven { length heard.now ≡ 7 }
{
    let [a, b, c, d, e, f, g] = *heard;
    a <= 2 && b <= 2 && c <= 2 && d <= 2 && e <= 2 && f <= 2 && g <= 2
}

/// Whether the label is a channel's and not the sender's.
fn is_label(sender: u8, label: u8) -> bool
    ensures { result ≡ (nat_lt label 7 && not (sender == label)) }
{
    label < 7 && label != sender
}

/// Whether the labels are channels, all different, and none of them is the sender.
#[tactic(auto, unfolding(guards_model::specs::Frames::is_distinct))]
pub fn is_path(sender: Chan, path: &Labels) -> bool
    ensures { result ≡ path_in_range sender path.now }
{
    let sender = sender.index();
    let [first, second] = path.at;
    match path.count {
        0 => true,
        1 => is_label(sender, first),
        _ => is_label(sender, first) && is_label(sender, second) && first != second,
    }
}

/// Lends the labels in use.
pub fn labels(path: &Labels) -> &[u8]
    ensures { result.now ≡ path.now }
{
    &path.at[..path.count as usize]
}

/// Whether the labels come before the other's, compared from the first label on.
fn is_before(path: &Labels, other: &Labels) -> bool
    ensures { result ≡ is_lt (slice_cmp nat_cmp path.now other.now) }
{
    labels(path).cmp(labels(other)).is_lt()
}

/// Whether each path comes before the next item's.
#[tactic(auto, unfolding(guards_model::specs::Frames::each_next))]
pub fn ascend(items: &[Item]) -> bool
    ensures { result ≡ items_ascend items.now }
{
    match items {
        [first, rest @ ..] => match rest {
            [second, ..] => is_before(&first.path, &second.path) && ascend(rest),
            [] => true,
        },
        [] => true,
    }
}

/// Whether the block numbers ascend strictly.
#[tactic(auto, unfolding(guards_model::specs::Frames::each_next))]
pub fn numbers_ascend(copies: &[BlockCopy]) -> bool
    ensures { result ≡ each_next nat_lt (numbers_of copies.now) }
{
    match copies {
        [first, rest @ ..] => match rest {
            [second, ..] => first.block < second.block && numbers_ascend(rest),
            [] => true,
        },
        [] => true,
    }
}

/// Whether some copy is of the block.
fn are_of(copies: &[BlockCopy], block: u8) -> bool
    ensures { result ≡ has (numbers_of copies.now) block }
{
    match copies {
        [] => false,
        [copy, rest @ ..] => copy.block == block || are_of(rest, block),
    }
}

/// Whether no two copies are of one block.
#[tactic(auto, unfolding(guards_model::specs::Frames::is_distinct))]
pub fn numbers_differ(copies: &[BlockCopy]) -> bool
    ensures { result ≡ is_distinct (numbers_of copies.now) }
{
    match copies {
        [] => true,
        [copy, rest @ ..] => !are_of(rest, copy.block) && numbers_differ(rest),
    }
}
