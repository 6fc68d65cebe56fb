//! Oral messages: what a member of the active set holds for each path, and how it settles the words.
#![tactic(auto)]

ghost use Rattle.std.specs.Prelude.{◌≡◌, ◌≤◌, ◌<◌, ℕ, suc, IsTrue, map, reverse, length, [], ◌∷◌, Some, slice_get};
ghost use Rattle.guards_model.specs.Channels.{ChannelSet, numbers_below};
ghost use Rattle.guards_model.specs.Frames.{is_set};
ghost use Rattle.guards_model.specs.OralMessages.{paths, PathValue};
ghost use Rattle.oral_messages.specs.Ranks.{is_path, rank, rank_sum};

mod members;
mod owing;
mod place;
mod ranges;
mod tree;
mod votes;
mod words;

pub use place::rank;
pub use tree::Tree;
pub use words::Path;

/// The ranks of all paths of one to three labels, in ascending order of the paths, are 0, 1, 2 and so on.
pub fn ranks_are_places()
    ensures ranks { (active : ChannelSet) (k : ℕ) → IsTrue (is_set active) → k ≤ 2 →
        map (rank active) (paths active (suc k)) ≡ numbers_below (length (paths active (suc k))) }
    ensures sums { (active : ChannelSet) (k : ℕ) → IsTrue (is_set active) → k ≤ 2 →
        map (λ y. rank_sum active [] (reverse y)) (paths active (suc k))
        ≡ numbers_below (length (paths active (suc k))) }
{}

/// A path of members stands at its rank among the paths of its length.
pub fn paths_stand_at_ranks()
    ensures { (active : ChannelSet) (y : PathValue) → IsTrue (is_set active) → IsTrue (is_path active y) →
        length y ≤ 3 → slice_get (paths active (length y)) (rank active y) ≡ Some y }
{}

/// With four members the path 1, 3 has rank 5, and with seven the path 6, 5, 4 has rank 209.
pub fn worked_ranks()
    ensures four { rank (0 ∷ 1 ∷ 2 ∷ 3 ∷ []) (3 ∷ 1 ∷ []) ≡ 5 }
    ensures seven { rank (0 ∷ 1 ∷ 2 ∷ 3 ∷ 4 ∷ 5 ∷ 6 ∷ []) (4 ∷ 5 ∷ 6 ∷ []) ≡ 209 }
{}
