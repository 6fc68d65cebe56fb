//! The active channels in ascending order, with the places of paths over them.
ghost use Rattle.std.specs.Prelude.{◌≡◌, ◌≤◌, ◌<◌, ◌-◌, ◌*◌, ℕ, IsTrue, length, [], ◌∷◌, slice_index_or as get_or};
ghost use Rattle.guards_model.specs.OralMessages.{paths};
ghost use Rattle.guards_model.specs.Channels.{has};
ghost use Rattle.guards_model.specs.Frames.{is_set};
ghost use Rattle.oral_messages.specs.Ranks.{is_path, rank};
ghost use Rattle.oral_messages.specs.Sets.{members};

use guards_base::ChanSet;
use std::marker::Model;

/// The members of a set of channels, with tables for the places of paths.
#[derive(Debug, Drop)]
pub struct Members {
    count: u8,
    labels: [u8; 7],
    below: [u8; 7],
    active: [bool; 7],
}

impl Model for Members {
    ghost use Rattle.std.specs.Prelude.{ℕ, List};
    ghost use Rattle.oral_messages.specs.Sets.{members, AreTables};

    ghost Value = { List ℕ };

    ghost view = { λ m. members m.active };

    ghost invariant = { λ m. AreTables m.active m.count m.labels m.below };
}

impl Members {
    /// The members of a set.
    pub fn of(set: ChanSet) -> Members
        ensures members { result ≡ set }
        ensures set { IsTrue (is_set result) }
    {
        let active = set.flags();
        let mut count: u8 = 0;
        let mut labels = [0; 7];
        let mut below = [0; 7];
        for label in 0..7u8 {
            below[label as usize] = count;
            if active[label as usize] {
                labels[count as usize] = label;
                count += 1;
            }
        }
        Members {
            count,
            labels,
            below,
            active,
        }
    }

    /// The number of members.
    pub fn count(&self) -> u8
        ensures { result ≡ length self.now }
    {
        self.count
    }

    /// Whether a channel is a member.
    pub fn has(&self, label: u8) -> bool
        requires { label < 7 }
        ensures { result ≡ has self.now label }
    {
        self.active[label as usize]
    }

    /// The place of the path of one label.
    pub fn first(&self, a: u8) -> usize
        requires { IsTrue (is_path self.now (a ∷ [])) }
        ensures { result ≡ rank self.now (a ∷ []) }
    {
        usize::from(self.below[a as usize])
    }

    /// The place of the path a, b.
    pub fn second(&self, a: u8, b: u8) -> usize
        requires { IsTrue (is_path self.now (b ∷ a ∷ [])) }
        ensures { result ≡ rank self.now (b ∷ a ∷ []) }
    {
        let left = usize::from(self.count) - 1;
        let place = usize::from(self.below[b as usize]) - usize::from(a < b);
        usize::from(self.below[a as usize]) * left + place
    }

    /// The place of the path a, b, c.
    pub fn third(&self, a: u8, b: u8, c: u8) -> usize
        requires { IsTrue (is_path self.now (c ∷ b ∷ a ∷ [])) }
        ensures { result ≡ rank self.now (c ∷ b ∷ a ∷ []) }
    {
        let left = usize::from(self.count) - 2;
        let place = usize::from(self.below[c as usize]) - usize::from(a < c) - usize::from(b < c);
        self.second(a, b) * left + place
    }

    /// The path of one label at a place.
    pub fn first_at(&self, place: usize) -> u8
        requires { place < length self.now }
        ensures { get_or (paths self.now 1) place [] ≡ result ∷ [] }
    {
        self.labels[place]
    }

    /// The path of two labels at a place, the source first.
    pub fn second_at(&self, place: usize) -> (u8, u8)
        requires { place < length self.now * (length self.now - 1) }
        ensures { get_or (paths self.now 2) place [] ≡ result.1 ∷ result.0 ∷ [] }
    {
        let left = usize::from(self.count) - 1;
        let front = place / left;
        let next = place % left;
        let skip = usize::from(next >= front);
        (self.labels[front], self.labels[next + skip])
    }
}
