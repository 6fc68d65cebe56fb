//! What the other channels tell the node in a cycle, by hand.
use guards_base::{Ballot, Chan, ChanSet, SourceWord};
use icn_frames::{Exchange, Item, Items, Labels};
use std::alloc::{AllocError, Global};

/// How the last cycle's words tell of channel 3: that it did not ask, that it asked, or that it named its transfer.
#[derive(Clone, Copy)]
pub enum Asked {
    No,
    First,
    Named,
}

/// What the active channels, those from 0 on, tell in a cycle: channel q brings the word 5 + q, tells what it was told,
/// and votes for the word of `vote`.
#[derive(Clone, Copy)]
pub struct Told {
    /// The number of active channels.
    pub count: u8,
    pub vote: i64,
    /// The channel from which nothing comes, at nobody.
    pub lost: Option<u8>,
    /// The channel whose own word comes here as 99, and whose vote is 99.
    pub forged: Option<u8>,
    /// Whom all the others accuse.
    pub accused: ChanSet,
    pub asked: Asked,
    /// What channel 3 asks for in this cycle, if it asks.
    pub request: Option<Option<u32>>,
}

/// A source word: its sensor word, whom it accuses, and how it tells of channel 3.
pub fn source_word(sensor: i64, accuse: ChanSet, asked: Asked) -> SourceWord {
    let code = match asked {
        Asked::No => 0,
        Asked::First => 1,
        Asked::Named => 2,
    };
    SourceWord {
        width: 1,
        words: [sensor, 0, 0, 0],
        accuse,
        heard: [0, 0, 0, code, 0, 0, 0],
    }
}

impl Told {
    /// All tell what they should.
    pub fn plain(count: u8, vote: i64) -> Told {
        Told {
            count,
            vote,
            lost: None,
            forged: None,
            accused: ChanSet::empty(),
            asked: Asked::No,
            request: None,
        }
    }

    // A source word with this sensor word.
    fn source(&self, sensor: i64) -> SourceWord {
        source_word(sensor, self.accused, self.asked)
    }

    // What every channel but this one was told of a source.
    fn held(&self, source: u8, me: u8, own: &Option<SourceWord>) -> Option<SourceWord> {
        if source == me {
            *own
        } else if self.lost == Some(source) {
            None
        } else {
            Some(self.source(5 + i64::from(source)))
        }
    }

    // The own word of a channel, as it comes here.
    fn first_word(&self, from: u8) -> SourceWord {
        if self.forged == Some(from) {
            self.source(99)
        } else {
            self.source(5 + i64::from(from))
        }
    }

    // What a channel tells of the sources in round 2.
    fn second(
        &self,
        alloc: Global,
        from: u8,
        me: u8,
        own: &Option<SourceWord>,
    ) -> Result<Items, AllocError> {
        let mut items = Items::new(alloc);
        for source in 0..7u8 {
            if source < self.count && source != from {
                items.push(Item {
                    path: Labels {
                        count: 1,
                        at: [source, 0],
                    },
                    word: self.held(source, me, own),
                })?;
            }
        }
        Ok(items)
    }

    /// The frame of a channel in round 1 or 2, to this one, which told `own`.
    pub fn frame(
        &self,
        alloc: Global,
        round: u8,
        from: u8,
        me: u8,
        own: &Option<SourceWord>,
    ) -> Result<Option<Exchange>, AllocError> {
        if self.lost == Some(from) || from >= self.count {
            return Ok(None);
        }
        if round == 1 {
            let mut items = Items::new(alloc);
            items.push(Item {
                path: Labels {
                    count: 0,
                    at: [0, 0],
                },
                word: Some(self.first_word(from)),
            })?;
            return Ok(Some(Exchange { round, items }));
        }
        let items = self.second(alloc, from, me, own)?;
        Ok(Some(Exchange { round, items }))
    }

    // The ballot of a channel.
    fn ballot(&self, from: u8) -> Option<Ballot> {
        if self.lost == Some(from) || from >= self.count {
            None
        } else if self.forged == Some(from) {
            Some(Ballot::of(&[99]))
        } else {
            Some(Ballot::of(&[self.vote]))
        }
    }

    /// The ballots of all channels.
    pub fn ballots(&self) -> [Option<Ballot>; 7] {
        [
            self.ballot(0),
            self.ballot(1),
            self.ballot(2),
            self.ballot(3),
            None,
            None,
            None,
        ]
    }
}

/// The set of one channel.
pub fn only(number: u8) -> ChanSet {
    match Chan::new(number) {
        Some(channel) => ChanSet::empty().with(channel),
        None => ChanSet::empty(),
    }
}

/// Cycle 5, after the join: the words tell of the last request.
pub fn joined() -> Told {
    let mut told = Told::plain(4, 36);
    told.asked = Asked::Named;
    told
}

/// Cycle 0, in which nothing comes of channel 3, and cycle 1, in which all accuse it. Then channel 3 asks in each
/// cycle, and a transfer to it runs in the cycles 3 and 4, which ends by its join.
pub fn transfer() -> [Told; 6] {
    let mut told = [
        Told::plain(4, 6),
        Told::plain(4, 12),
        Told::plain(3, 18),
        Told::plain(3, 24),
        Told::plain(3, 30),
        joined(),
    ];
    told[0].lost = Some(3);
    told[1].accused = only(3);
    told[2].request = Some(None);
    told[3].asked = Asked::First;
    told[3].request = Some(None);
    told[4].asked = Asked::First;
    told[4].request = Some(Some(3));
    told
}
