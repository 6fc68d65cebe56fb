//! What a member holds for each path, in one flat list for each round.
ghost use Rattle.std.specs.Prelude.{◌≡◌, ℕ, ◌+◌, ◌-◌, ◌*◌, ◌≤◌, ◌<◌, ◌≢◌, IsTrue, List, [], ◌∷◌, length, take, drop, replicate, Some, None, IfOk, slice_index_or, slice_get, option_and_then};
ghost use Rattle.std.specs.List.{list_all};
ghost use Rattle.std.specs.Option.{option_copied};
ghost use Rattle.guards_model.specs.Channels.{has, tolerated_faults};
ghost use Rattle.guards_model.specs.Frames.{ItemValue, item_in_range, exchange_in_range};
ghost use Rattle.guards_model.specs.OralMessages.{resolved_value, majority_value, of_width};
ghost use Rattle.oral_messages.specs.Ranks.{is_path};
ghost use Rattle.oral_messages.specs.Trees.{ReceivedItems, with_items_of, Holds, tree_level, owed_items, IsSameMember, BeginsTree, KeepsFirst, KeepsSecond, KeepsThird};
ghost use Rattle.oral_messages.specs.Received.{IsExchangeInRange, items_of_frame};

use crate::members::Members;
use crate::owing::{told_of_own, told_of_relays, told_of_sources};
use crate::votes::settle;
use guards_base::{Chan, ChanSet, SourceWord};
use icn_frames::{Exchange, Item, Labels};
use std::alloc::{AllocError, Global};
use std::marker::Model;

/// The values that a member holds, those for the paths of each round in ascending order of the paths.
#[derive(Debug, Drop)]
pub struct Tree {
    members: Members,
    me: u8,
    width: u8,
    own: SourceWord,
    first: Vec<Option<SourceWord>>,
    second: Vec<Option<SourceWord>>,
    third: Vec<Option<SourceWord>>,
}

impl Model for Tree {
    ghost use Rattle.std.specs.Prelude.{vec_len};
    ghost use Rattle.oral_messages.specs.Trees.{TreeValue, IsTreeInRange};

    ghost Value = { TreeValue };

    ghost view = { λ t. record {
      members = t.members;
      me = t.me;
      width = t.width;
      own = t.own;
      first = t.first.items;
      second = t.second.items;
      third = t.third.items;
    } };

    ghost invariant = { λ t. IsTreeInRange t.members t.me (vec_len t.first) (vec_len t.second) (vec_len t.third) };
}

/// The value that most branches say for the path at a place, where each path has so many branches.
fn settle_branches(
    values: &[Option<SourceWord>],
    place: usize,
    branches: usize,
) -> Option<SourceWord>
    requires small { place < 49 }
    requires few { branches < 7 }
    requires within { place * branches + branches ≤ length values.now }
    ensures { result ≡ majority_value (take branches (drop (place * branches) values.now)) }
{
    let start = place * branches;
    settle(&values[start..start + branches])
}

/// The values that most branches say for the six paths from a place on, where each path has five branches.
fn settle_each(values: &[Option<SourceWord>], place: usize) -> [Option<SourceWord>; 6]
    requires long { length values.now ≡ 210 }
    requires within { place < 7 }
    ensures six { length result ≡ 6 }
    ensures settled { (k : ℕ) → k < 6 →
        slice_index_or result k None ≡ majority_value (take 5 (drop ((place * 6 + k) * 5) values.now)) }
{
    let mut branches = [None; 6];
    for next in 0..6usize {
        branches[next] = settle_branches(values, place * 6 + next, 5);
    }
    branches
}

/// How many paths of two labels the rounds of so many members have.
fn second_size(count: usize) -> usize
    requires { count ≤ 7 }
    ensures { 4 ≤ count → result ≡ count * (count - 1) }
{
    if count < 4 { 0 } else { count * (count - 1) }
}

/// How many paths of three labels the rounds of so many members have.
fn third_size(count: usize) -> usize
    requires { count ≤ 7 }
    ensures { 7 ≤ count → result ≡ 210 }
{
    if count < 7 { 0 } else { 210 }
}

/// So many places, each missing.
fn missing(alloc: Global, count: usize) -> Result<Vec<Option<SourceWord>>, AllocError>
    ensures { IfOk result (λ values. values.items ≡ replicate count None) }
{
    let mut values = Vec::with_capacity(alloc, count)?;
    for _ in 0..count {
        values.push(None)?;
    }
    Ok(values)
}

/// Keeps so many places and makes each missing.
fn clear(values: &mut Vec<Option<SourceWord>>, count: usize)
    ensures { count ≤ length values.old.items → values.new.items ≡ replicate count None }
{
    values.truncate(count);
    let kept = values.len();
    for place in 0..kept {
        values[place] = None;
    }
}

/// The word that an item has for its path; one of another width is missing, and then the missing value is lent.
fn word_for<'a>(
    width: u8,
    item: &'a Item,
    missing: &'a Option<SourceWord>,
) -> &'a Option<SourceWord>
    requires { missing.now ≡ None }
    ensures { result.now ≡ option_and_then (of_width width) item.now.word }
{
    match &item.word {
        Some(word) => {
            if word.in_use().len() == usize::from(width) {
                &item.word
            } else {
                missing
            }
        }
        None => missing,
    }
}

/// A label of a path, the source first.
fn label(path: &Labels, place: usize) -> u8
    requires { place < length path.now }
    ensures { slice_get path.now place ≡ Some result }
{
    path.at[place]
}

/// A label of an item's path.
fn label_at(item: &Item, place: usize) -> u8
    requires { place < length item.now.path }
    ensures { slice_get item.now.path place ≡ Some result }
{
    label(&item.path, place)
}

impl Tree {
    /// The values of all paths of so many labels, in ascending order of the paths.
    pub fn level(&self, round: u8) -> &[Option<SourceWord>]
        requires low { 1 ≤ round }
        requires high { round ≤ tolerated_faults self.now.members + 1 }
        ensures { (received : ReceivedItems) → Holds self.now received →
            result.now ≡ tree_level self.now received round }
    {
        if round == 1 {
            self.first.as_slice()
        } else if round == 2 {
            self.second.as_slice()
        } else {
            self.third.as_slice()
        }
    }

    /// The value that most branches say for the source, and theirs likewise.
    pub fn resolve(&self, source: Chan) -> Option<SourceWord>
        requires { IsTrue (has self.now.members source) }
        ensures { (received : ReceivedItems) → Holds self.now received →
            result ≡ resolved_value self.now.members self.now.width self.now.me self.now.own received
            (tolerated_faults self.now.members) (source ∷ []) }
    {
        let place = self.members.first(source.index());
        let count = self.members.count();
        if count < 4 {
            self.first[place]
        } else if count < 7 {
            settle_branches(&self.second, place, usize::from(count) - 1)
        } else {
            settle(&settle_each(&self.third, place))
        }
    }

    /// The tree with the own word alone. It takes all memory of the tree.
    pub fn begin(
        alloc: Global,
        me: Chan,
        active: ChanSet,
        width: u8,
        own: SourceWord,
    ) -> Result<Tree, AllocError>
        requires mine { IsTrue (has active me) }
        requires some { 3 ≤ length active }
        ensures { IfOk result (λ tree. BeginsTree tree active me width own) }
    {
        let members = Members::of(active);
        let count = usize::from(members.count());
        let me = me.index();
        let mut first = missing(alloc, count)?;
        let second = missing(alloc, second_size(count))?;
        let third = missing(alloc, third_size(count))?;
        let place = members.first(me);
        first[place] = Some(own);
        Ok(Tree {
            members,
            me,
            width,
            own,
            first,
            second,
            third,
        })
    }

    /// The tree of a later cycle in the same memory: the own word alone. No member more than before is active.
    pub fn restart(&mut self, active: ChanSet, own: SourceWord)
        requires mine { IsTrue (has active self.old.me) }
        requires some { 3 ≤ length active }
        requires room { length active ≤ length self.old.members }
        ensures { BeginsTree self.new active self.old.me self.old.width own }
    {
        let members = Members::of(active);
        let count = usize::from(members.count());
        clear(&mut self.first, count);
        clear(&mut self.second, second_size(count));
        clear(&mut self.third, third_size(count));
        let place = members.first(self.me);
        self.first[place] = Some(own);
        self.members = members;
        self.own = own;
    }

    /// Keeps what was received in a round from a member.
    pub fn put(&mut self, round: u8, from: Chan, frame: Option<&Exchange>)
        requires member { IsTrue (has self.old.members from) }
        requires another { from ≢ self.old.me }
        requires low { 1 ≤ round }
        requires high { round ≤ tolerated_faults self.old.members + 1 }
        requires ranges { IsExchangeInRange (option_copied frame) round from }
        ensures same { IsSameMember self.new self.old }
        ensures kept { (received : ReceivedItems) → Holds self.old received → received round from ≡ [] →
            Holds self.new (with_items_of received round from (items_of_frame (option_copied frame.entry))) }
    {
        if let Some(exchange) = frame {
            self.keep_all(round, from.index(), exchange.items.as_slice());
        }
    }

    /// The exchange that this member owes: in the first round its own word, and then what it holds for each path of
    /// the round before without itself, in ascending order of the paths.
    pub fn relay(&self, alloc: Global, round: u8) -> Result<Exchange, AllocError>
        requires low { 1 ≤ round }
        requires high { round ≤ tolerated_faults self.now.members + 1 }
        ensures round { IfOk result (λ exchange. exchange.round ≡ round) }
        ensures items { IfOk result
            (λ exchange. (received : ReceivedItems) → Holds self.now received →
            exchange.items ≡ owed_items self.now received round) }
        // a frame of the holder may have it
        ensures range { IfOk result (λ exchange. IsTrue (exchange_in_range self.now.me exchange)) }
    {
        let items = if round == 1 {
            told_of_own(alloc, &self.members, self.me, self.own)?
        } else if round == 2 {
            told_of_sources(alloc, &self.members, self.me, self.first.as_slice())?
        } else {
            told_of_relays(alloc, &self.members, self.me, self.second.as_slice())?
        };
        Ok(Exchange { round, items })
    }

    /// Keeps the items, the last one first: so where a path comes twice its first item stays.
    fn keep_all(&mut self, round: u8, from: u8, items: &[Item])
        requires member { IsTrue (has self.old.members from) }
        requires another { from ≢ self.old.me }
        requires low { 1 ≤ round }
        requires high { round ≤ tolerated_faults self.old.members + 1 }
        requires ranges { IsTrue (list_all (item_in_range from round) items.now) }
        ensures same { IsSameMember self.new self.old }
        ensures kept { (received : ReceivedItems) → Holds self.old received → received round from ≡ [] →
            Holds self.new (with_items_of received round from items.now) }
    {
        let mut left = items.len();
        while left > 0 {
            left -= 1;
            self.keep(round, from, &items[left]);
        }
    }

    /// Keeps one more item, which stands before those that were kept.
    fn keep(&mut self, round: u8, from: u8, item: &Item)
        requires member { IsTrue (has self.old.members from) }
        requires another { from ≢ self.old.me }
        requires low { 1 ≤ round }
        requires high { round ≤ tolerated_faults self.old.members + 1 }
        requires ranges { IsTrue (item_in_range from round item.now) }
        ensures same { IsSameMember self.new self.old }
        ensures kept { (received : ReceivedItems) (rest : List ItemValue) →
            Holds self.old (with_items_of received round from rest) →
            Holds self.new (with_items_of received round from (item.now ∷ rest)) }
    {
        let missing = None;
        let word = word_for(self.width, item, &missing);
        if round == 1 {
            self.keep_first(from, word);
        } else if round == 2 {
            let a = label_at(item, 0);
            if self.members.has(a) {
                self.keep_second(a, from, word);
            }
        } else {
            let a = label_at(item, 0);
            let b = label_at(item, 1);
            if self.members.has(a) {
                if self.members.has(b) {
                    self.keep_third(a, b, from, word);
                }
            }
        }
    }

    /// The value of the path a, and so of what the holder says for it.
    fn keep_first(&mut self, a: u8, word: &Option<SourceWord>)
        requires member { IsTrue (has self.old.members a) }
        requires another { a ≢ self.old.me }
        ensures { KeepsFirst self.old self.new a word.now }
    {
        let place = self.members.first(a);
        self.first[place] = *word;
        if self.members.count() >= 4 {
            let told = self.members.second(a, self.me);
            self.second[told] = *word;
        }
    }

    /// The value of the path a, b, and so of what the holder says for it.
    fn keep_second(&mut self, a: u8, b: u8, word: &Option<SourceWord>)
        requires many { 4 ≤ length self.old.members }
        requires path { IsTrue (is_path self.old.members (b ∷ a ∷ [])) }
        requires another { b ≢ self.old.me }
        ensures { KeepsSecond self.old self.new a b word.now }
    {
        let place = self.members.second(a, b);
        self.second[place] = *word;
        if self.members.count() == 7 {
            if a != self.me {
                let told = self.members.third(a, b, self.me);
                self.third[told] = *word;
            }
        }
    }

    /// The value of the path a, b, c.
    fn keep_third(&mut self, a: u8, b: u8, c: u8, word: &Option<SourceWord>)
        requires many { 7 ≤ length self.old.members }
        requires path { IsTrue (is_path self.old.members (c ∷ b ∷ a ∷ [])) }
        ensures { KeepsThird self.old self.new a b c word.now }
    {
        let place = self.members.third(a, b, c);
        self.third[place] = *word;
    }
}
