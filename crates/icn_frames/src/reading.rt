//! Reading a frame from left to right, a call for each field.

ghost use Rattle.std.specs.Prelude.{◌≡◌, ◌≤◌, ◌==◌, true, nat_le, length, take, IfOk};
ghost use Rattle.std.specs.List.{list_all};
ghost use Rattle.std.specs.Int.{w16, w32};
ghost use Rattle.guards_model.specs.Frames.{between};
ghost use Rattle.guards_model.specs.Fields.{many, byte_at, number_at, counted_by, optional_at, word_at, channel_at, set_at, law_at, codes_at, source_word_at, labels_at, path_at, item_at, copy_at, count_at, control_law_at, control_at, items_at, swept_copies_at, final_copies_at};
ghost use Rattle.guards_base.specs.Padding.{IsPadded};
ghost use Rattle.icn_frames.specs.Reads.{GivesRead, GivesWith};

use crate::frame::{BlockCopy, ControlWord, Copies, Item, Items, Labels};
use crate::ranges::{COUNT_CAP, are_codes, ascend, is_path, numbers_ascend, numbers_differ};
use crate::unread::Unread;
use byteorder::{BigEndian, ByteOrder};
use context_blocks::Block;
use guards_base::{Ballot, Chan, ChanSet, Law, SourceWord};
use std::alloc::Global;
use std::marker::Model;

/// The bytes that are not read yet.
#[derive(Drop)]
pub struct Reader<'a> {
    rest: &'a [u8],
}

impl<'a> Model for Reader<'a> {
    ghost use Rattle.std.specs.Prelude.{List, ℕ};

    ghost Value = { List ℕ };

    ghost view = { λ reader. reader.rest.now };
}

impl<'a> Reader<'a> {
    /// A reader of all the bytes.
    pub fn new(bytes: &'a [u8]) -> Reader<'a>
        ensures { result ≡ bytes.now }
    {
        Reader { rest: bytes }
    }

    /// Whether no byte is left.
    pub fn is_at_end(&self) -> bool
        ensures { result ≡ (length self.now == 0) }
    {
        self.rest.is_empty()
    }

    /// The next so many bytes, where they are there.
    #[tactic(auto, unfolding(guards_model::specs::Fields::labels_at))]
    fn front(&mut self, count: usize) -> Result<&'a [u8], Unread>
        ensures front { GivesRead (λ front. (front.now, self.new)) result (labels_at count self.old) }
        ensures long { IfOk result (λ front. length front.now ≡ count) }
    {
        if self.rest.len() < count {
            return Err(Unread::NoFrame);
        }
        let (front, rest) = self.rest.split_at(count);
        self.rest = rest;
        Ok(front)
    }
}

impl Reader<'_> {
    /// Reads a byte.
    pub fn byte(&mut self) -> Result<u8, Unread>
        ensures { GivesRead (λ byte. (byte, self.new)) result (byte_at self.old) }
    {
        match self.rest {
            [] => Err(Unread::NoFrame),
            [byte, rest @ ..] => {
                self.rest = rest;
                Ok(*byte)
            }
        }
    }

    #[tactic(auto, using(crate::proofs::BigEndian::big_number_2))]
    fn u16(&mut self) -> Result<u16, Unread>
        ensures { GivesRead (λ number. (number, self.new)) result (number_at w16 self.old) }
    {
        if self.rest.len() < 2 {
            return Err(Unread::NoFrame);
        }
        let number = BigEndian::read_u16(self.rest);
        self.rest = &self.rest[2..];
        Ok(number)
    }

    /// Reads a number of four bytes, the highest first.
    #[tactic(auto, using(crate::proofs::BigEndian::big_number_4))]
    pub fn u32(&mut self) -> Result<u32, Unread>
        ensures { GivesRead (λ number. (number, self.new)) result (number_at w32 self.old) }
    {
        if self.rest.len() < 4 {
            return Err(Unread::NoFrame);
        }
        let number = BigEndian::read_u32(self.rest);
        self.rest = &self.rest[4..];
        Ok(number)
    }

    #[tactic(auto, using(crate::proofs::BigEndian::big_number_8), unfolding(guards_model::specs::Fields::word_at))]
    fn word(&mut self) -> Result<i64, Unread>
        ensures { GivesRead (λ word. (word, self.new)) result (word_at self.old) }
    {
        if self.rest.len() < 8 {
            return Err(Unread::NoFrame);
        }
        let word = BigEndian::read_i64(self.rest);
        self.rest = &self.rest[8..];
        Ok(word)
    }

    /// Reads as many words as the slice has places.
    fn fill_words(&mut self, words: &mut [i64]) -> Result<(), Unread>
        ensures { GivesRead (λ _. (words.new, self.new)) result (many word_at (length words.old) self.old) }
    {
        for i in 0..words.len() {
            words[i] = self.word()?;
        }
        Ok(())
    }

    /// Reads the number of a channel, 0 to 6.
    #[tactic(auto, unfolding(guards_model::specs::Fields::channel_at))]
    pub fn channel(&mut self) -> Result<Chan, Unread>
        ensures { GivesRead (λ channel. (channel, self.new)) result (channel_at self.old) }
    {
        match Chan::new(self.byte()?) {
            None => Err(Unread::NoFrame),
            Some(channel) => Ok(channel),
        }
    }

    /// Reads a set of channels by its mask.
    #[tactic(auto, unfolding(guards_model::specs::Fields::set_at), using(crate::proofs::Sets::set_is_read))]
    pub fn set(&mut self) -> Result<ChanSet, Unread>
        ensures { GivesRead (λ set. (set, self.new)) result (set_at self.old) }
    {
        match ChanSet::from_mask(self.byte()?) {
            None => Err(Unread::NoFrame),
            Some(set) => Ok(set),
        }
    }

    #[tactic(auto, unfolding(guards_model::specs::Fields::law_at))]
    fn law(&mut self) -> Result<Law, Unread>
        ensures { GivesRead (λ law. (law, self.new)) result (law_at self.old) }
    {
        match self.byte()? {
            1 => Ok(Law::Multiply),
            2 => Ok(Law::Subtract),
            _ => Err(Unread::NoFrame),
        }
    }

    #[tactic(auto, unfolding(guards_model::specs::Fields::counted_by))]
    fn sensor_words(&mut self) -> Result<(u8, [i64; 4]), Unread>
        ensures { GivesWith (λ x. (take x.0 x.1, self.new)) (λ x. IsPadded 4 x.0 x.1) result
            (counted_by (between 1 4) word_at self.old) }
    {
        let width = self.byte()?;
        if width < 1 || width > 4 {
            return Err(Unread::NoFrame);
        }
        let mut words = [0; 4];
        self.fill_words(&mut words[..width as usize])?;
        Ok((width, words))
    }

    #[tactic(auto, unfolding(guards_model::specs::Fields::codes_at, guards_model::specs::Fields::unpacked_codes, guards_model::specs::Channels::by_channel))]
    fn codes(&mut self) -> Result<[u8; 7], Unread>
        ensures { GivesWith (λ codes. (codes, self.new)) (λ codes. list_all (λ code. nat_le code 2) codes ≡ true) result
            (codes_at self.old) }
    {
        let number = self.u16()?;
        if number >= 16384 {
            return Err(Unread::NoFrame);
        }
        let codes = [
            (number % 4) as u8,
            (number / 4 % 4) as u8,
            (number / 16 % 4) as u8,
            (number / 64 % 4) as u8,
            (number / 256 % 4) as u8,
            (number / 1024 % 4) as u8,
            (number / 4096 % 4) as u8,
        ];
        if !are_codes(&codes) {
            return Err(Unread::NoFrame);
        }
        Ok(codes)
    }

    #[tactic(auto, unfolding(guards_model::specs::Fields::source_word_at))]
    fn source_word(&mut self) -> Result<SourceWord, Unread>
        ensures { GivesRead (λ word. (word, self.new)) result (source_word_at self.old) }
    {
        let (width, words) = self.sensor_words()?;
        let accuse = self.set()?;
        let heard = self.codes()?;
        Ok(SourceWord {
            width,
            words,
            accuse,
            heard,
        })
    }

    #[tactic(auto, unfolding(guards_model::specs::Fields::optional_at))]
    fn value(&mut self) -> Result<Option<SourceWord>, Unread>
        ensures { GivesRead (λ word. (word, self.new)) result (optional_at source_word_at self.old) }
    {
        match self.byte()? {
            0 => Ok(None),
            1 => Ok(Some(self.source_word()?)),
            _ => Err(Unread::NoFrame),
        }
    }

    #[tactic(auto, unfolding(guards_model::specs::Fields::path_at))]
    fn path(&mut self, sender: Chan, round: u8) -> Result<Labels, Unread>
        requires low { 1 ≤ round }
        requires high { round ≤ 3 }
        ensures { GivesRead (λ path. (path, self.new)) result (path_at sender round self.old) }
    {
        let count = round - 1;
        let mut at = [0; 2];
        at[..count as usize].copy_from_slice(self.front(count as usize)?);
        let path = Labels { count, at };
        if !is_path(sender, &path) {
            return Err(Unread::NoFrame);
        }
        Ok(path)
    }

    #[tactic(auto, unfolding(guards_model::specs::Fields::item_at))]
    fn item(&mut self, sender: Chan, round: u8) -> Result<Item, Unread>
        requires low { 1 ≤ round }
        requires high { round ≤ 3 }
        ensures { GivesRead (λ item. (item, self.new)) result (item_at sender round self.old) }
    {
        let path = self.path(sender, round)?;
        let word = self.value()?;
        Ok(Item { path, word })
    }

    #[tactic(auto, unfolding(guards_model::specs::Fields::copy_at))]
    fn copy(&mut self) -> Result<BlockCopy, Unread>
        ensures { GivesRead (λ copy. (copy, self.new)) result (copy_at self.old) }
    {
        let block = self.byte()?;
        let mut words = [0; 8];
        self.fill_words(&mut words)?;
        Ok(BlockCopy {
            block,
            words: Block { words },
        })
    }

    #[tactic(auto, unfolding(guards_model::specs::Fields::count_at))]
    fn count(&mut self) -> Result<u32, Unread>
        ensures { GivesRead (λ count. (count, self.new)) result (count_at self.old) }
    {
        let count = self.u32()?;
        if count > COUNT_CAP {
            return Err(Unread::NoFrame);
        }
        Ok(count)
    }

    /// Reads as many counts as the slice has places.
    fn fill_counts(&mut self, counts: &mut [u32]) -> Result<(), Unread>
        ensures { GivesRead (λ _. (counts.new, self.new)) result (many count_at (length counts.old) self.old) }
    {
        for i in 0..counts.len() {
            counts[i] = self.count()?;
        }
        Ok(())
    }

    #[tactic(auto, unfolding(guards_model::specs::Fields::control_law_at))]
    fn control_law(&mut self, version: u8) -> Result<Law, Unread>
        ensures { GivesRead (λ law. (law, self.new)) result (control_law_at version self.old) }
    {
        if version < 2 {
            return Ok(Law::Multiply);
        }
        self.law()
    }

    /// Reads a control word as this version spells it.
    #[tactic(auto, unfolding(guards_model::specs::Fields::control_at))]
    pub fn control(&mut self, version: u8) -> Result<ControlWord, Unread>
        ensures { GivesRead (λ control. (control, self.new)) result (control_at version self.old) }
    {
        let law = self.control_law(version)?;
        let active = self.set()?;
        let fresh = self.set()?;
        let mut alphas = [0; 7];
        self.fill_counts(&mut alphas)?;
        Ok(ControlWord {
            law,
            active,
            fresh,
            alphas,
        })
    }

    /// Reads so many items.
    fn read_items(
        &mut self,
        alloc: Global,
        sender: Chan,
        round: u8,
        count: u8,
    ) -> Result<Items, Unread>
        requires low { 1 ≤ round }
        requires high { round ≤ 3 }
        ensures { GivesRead (λ items. (items.items, self.new)) result (many (item_at sender round) count self.old) }
    {
        let mut items = Items::new(alloc);
        for _ in 0..count {
            let item = self.item(sender, round)?;
            items.push(item)?;
        }
        Ok(items)
    }

    /// Reads the items of an exchange frame of this sender and round.
    #[tactic(auto, unfolding(guards_model::specs::Fields::items_at, guards_model::specs::Fields::counted_by))]
    pub fn items(&mut self, alloc: Global, sender: Chan, round: u8) -> Result<Items, Unread>
        requires low { 1 ≤ round }
        requires high { round ≤ 3 }
        ensures { GivesRead (λ items. (items.items, self.new)) result (items_at sender round self.old) }
    {
        let count = self.byte()?;
        if count > 30 {
            return Err(Unread::NoFrame);
        }
        let items = self.read_items(alloc, sender, round, count)?;
        if !ascend(items.as_slice()) {
            return Err(Unread::NoFrame);
        }
        Ok(items)
    }

    /// Reads so many copies.
    fn read_copies(&mut self, alloc: Global, count: u8) -> Result<Copies, Unread>
        ensures { GivesRead (λ copies. (copies.items, self.new)) result (many copy_at count self.old) }
    {
        let mut copies = Copies::new(alloc);
        for _ in 0..count {
            let copy = self.copy()?;
            copies.push(copy)?;
        }
        Ok(copies)
    }

    /// Reads the copies of a sweep frame, of different blocks.
    #[tactic(auto, unfolding(guards_model::specs::Fields::swept_copies_at, guards_model::specs::Fields::counted_by))]
    pub fn swept_copies(&mut self, alloc: Global) -> Result<Copies, Unread>
        ensures { GivesRead (λ copies. (copies.items, self.new)) result (swept_copies_at self.old) }
    {
        let count = self.byte()?;
        if count < 1 || count > 64 {
            return Err(Unread::NoFrame);
        }
        let copies = self.read_copies(alloc, count)?;
        if !numbers_differ(copies.as_slice()) {
            return Err(Unread::NoFrame);
        }
        Ok(copies)
    }

    /// Reads the copies of a final frame, in ascending order of their blocks.
    #[tactic(auto, unfolding(guards_model::specs::Fields::final_copies_at, guards_model::specs::Fields::counted_by))]
    pub fn final_copies(&mut self, alloc: Global) -> Result<Copies, Unread>
        ensures { GivesRead (λ copies. (copies.items, self.new)) result (final_copies_at self.old) }
    {
        let count = self.byte()?;
        if count > 64 {
            return Err(Unread::NoFrame);
        }
        let copies = self.read_copies(alloc, count)?;
        if !numbers_ascend(copies.as_slice()) {
            return Err(Unread::NoFrame);
        }
        Ok(copies)
    }

    /// Reads so many words, in front of zeros.
    fn ballot_words(&mut self, count: u8) -> Result<[i64; 8], Unread>
        requires { count ≤ 8 }
        ensures { GivesRead (λ words. (take count words, self.new)) result (many word_at count self.old) }
    {
        let mut words = [0; 8];
        self.fill_words(&mut words[..count as usize])?;
        Ok(words)
    }

    /// Reads a ballot of 1 to 8 words.
    #[tactic(auto, unfolding(guards_model::specs::Fields::counted_by))]
    pub fn ballot(&mut self) -> Result<Ballot, Unread>
        ensures { GivesRead (λ ballot. (ballot, self.new)) result (counted_by (between 1 8) word_at self.old) }
    {
        let count = self.byte()?;
        if count < 1 || count > 8 {
            return Err(Unread::NoFrame);
        }
        let words = self.ballot_words(count)?;
        Ok(Ballot::of(&words[..count as usize]))
    }
}
