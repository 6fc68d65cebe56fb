//! The switches of the channels' transmitters.
ghost use Rattle.std.specs.Prelude.{◌≡◌, filter};
ghost use Rattle.guards_model.specs.Channels.{channels_where};
ghost use Rattle.guards_model.specs.Switchboard.{switched_on};
ghost use Rattle.icn_bus.specs.Senders.{sent_with, is_kept};

use guards_base::{Chan, ChanSet, set_by};
use std::marker::Model;

/// The switches, seen as the set of those that are on.
#[derive(Debug, Drop)]
pub struct Switchboard {
    on: ChanSet,
}

impl Model for Switchboard {
    ghost use Rattle.guards_model.specs.Channels.{ChannelSet};

    ghost Value = { ChannelSet };

    ghost view = { λ board. board.on };
}

/// Whether a channel sent a set with this one.
fn sent(frames: &[Option<ChanSet>; 7], sender: Chan, channel: Chan) -> bool
    ensures { result ≡ sent_with frames.now channel sender }
{
    match &frames[sender.index() as usize] {
        None => false,
        Some(set) => set.has(channel),
    }
}

/// The channels that are on and sent a set with this one.
fn senders(on: ChanSet, frames: &[Option<ChanSet>; 7], channel: Chan) -> ChanSet
    ensures { result ≡ filter (sent_with frames.now channel) on }
{
    on.filter(
        |sender: Chan| -> bool
            ensures { result ≡ sent_with frames.entry.now channel sender }
        { sent(frames, sender, channel) },
    )
}

/// Whether strictly more than half of the channels that are on sent a set with this one.
fn stays(on: ChanSet, frames: &[Option<ChanSet>; 7], channel: Chan) -> bool
    ensures { result ≡ is_kept on frames.now channel }
{
    on.count() < 2 * senders(on, frames, channel).count()
}

/// The switches that stay on.
fn kept(on: ChanSet, frames: &[Option<ChanSet>; 7]) -> ChanSet
    ensures { result ≡ channels_where (is_kept on frames.now) }
{
    set_by(
        |channel: Chan| -> bool
            ensures { result ≡ is_kept on frames.entry.now channel }
        { stays(on, frames, channel) },
    )
}

impl Switchboard {
    /// The switchboard with these switches on.
    pub fn new(on: ChanSet) -> Switchboard
        ensures { result ≡ on }
    {
        Switchboard { on }
    }

    /// The channels whose switches are on.
    pub fn on(&self) -> ChanSet
        ensures { result ≡ self.now }
    {
        self.on
    }

    /// Leaves on the switches that strictly more than half of the channels that were on sent. `frames` has at each
    /// channel's place the set that it sent, if any.
    pub fn close(&mut self, frames: &[Option<ChanSet>; 7]) -> ChanSet
        ensures new { self.new ≡ switched_on self.old frames.now }
        ensures answer { result ≡ self.new }
    {
        self.on = kept(self.on, frames);
        self.on
    }
}
