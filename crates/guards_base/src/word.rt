//! What channels bring to a cycle.
ghost use Rattle.std.specs.Prelude.{◌≡◌, ◌≤◌, length};

use crate::ChanSet;
use std::marker::Model;

/// What a channel brings to a cycle: its sensor words, whom it accuses, and the code that it heard of each channel.
#[derive(Clone, Copy, Debug, PartialEq, Eq)]
pub struct SourceWord {
    /// The number of words in use, 1 to 4. The words past it are 0.
    pub width: u8,
    pub words: [i64; 4],
    pub accuse: ChanSet,
    /// By channel: 2 for a request with the start of the running transfer, 1 for another one, 0 for none.
    pub heard: [u8; 7],
}

impl Model for SourceWord {
    ghost use Rattle.std.specs.Prelude.{◌≡◌, true, length, take, nat_le};
    ghost use Rattle.std.specs.List.{list_all};
    ghost use Rattle.std.proofs.Common.{ap};
    ghost use Rattle.guards_model.specs.Frames.{SourceValue};
    ghost use Rattle.guards_base.specs.Padding.{IsPadded, padded, used_back};

    ghost Value = { SourceValue };

    ghost view = { λ w. record { words = take w.width w.words; accuse = w.accuse; heard = w.heard } };

    ghost invariant = { λ w. IsPadded 4 w.width w.words × (list_all (λ code. nat_le code 2) w.heard ≡ true) };

    ghost inverse = { λ v. record {
      width = length v.words;
      words = padded 4 v.words;
      accuse = v.accuse;
      heard = v.heard;
    } };

    ghost inverse_ok = { λ w h.
        ap (λ used. record { width = used.0; words = used.1; accuse = w.accuse; heard = w.heard })
        (used_back 4 w.width w.words h.0) };
}

/// The output words of a channel.
#[derive(Clone, Copy, Debug, PartialEq, Eq)]
pub struct Ballot {
    /// The number of words in use, 1 to 8. The words past it are 0.
    pub count: u8,
    pub words: [i64; 8],
}

impl Model for Ballot {
    ghost use Rattle.std.specs.Prelude.{ℤ, List, length, take};
    ghost use Rattle.std.proofs.Common.{ap};
    ghost use Rattle.guards_base.specs.Padding.{IsPadded, padded, used_back};

    ghost Value = { List ℤ };

    ghost view = { λ b. take b.count b.words };

    ghost invariant = { λ b. IsPadded 8 b.count b.words };

    ghost inverse = { λ words. record { count = length words; words = padded 8 words } };

    ghost inverse_ok = { λ b h.
        ap (λ used. record { count = used.0; words = used.1 }) (used_back 8 b.count b.words h) };
}

impl SourceWord {
    /// Lends the words in use.
    pub fn in_use(&self) -> &[i64]
        ensures { result.now ≡ self.now.words }
    {
        &self.words[..self.width as usize]
    }
}

impl Ballot {
    /// The ballot of these words.
    pub fn of(words: &[i64]) -> Ballot
        requires least { 1 ≤ length words.now }
        requires most { length words.now ≤ 8 }
        ensures { result ≡ words.now }
    {
        let mut all = [0; 8];
        all[..words.len()].copy_from_slice(words);
        Ballot {
            count: words.len() as u8,
            words: all,
        }
    }

    /// Lends the words in use.
    pub fn in_use(&self) -> &[i64]
        ensures { result.now ≡ self.now }
    {
        &self.words[..self.count as usize]
    }
}
