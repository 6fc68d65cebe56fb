//! The exchange: the channels' frames, and the move.
ghost use Rattle.std.specs.Prelude.{◌≡◌, length, nat_le, ◌*◌};
ghost use Rattle.guards_model.specs.Channels.{channels_where, has};
ghost use Rattle.output_gate.specs.Exchanging.{Exchanges, MayExchange, is_third};

use crate::gate::{OutputGate, count_of};
use crate::limiter::Limit;
use crate::sending::send_lines;
use guards_base::{ChanSet, CycleRecord, Settled};
use icn_bus::Bus;
use std::alloc::{AllocError, Global};
use std::marker::Model;

/// Why the words of an actuator did not move.
#[derive(Clone, Copy, Debug, PartialEq, Eq)]
pub enum OutStop {
    /// A third of the active channels or more are disturbed.
    Disturbed { set: ChanSet },
    NoMemory,
}

impl From<AllocError> for OutStop {
    ghost use Rattle.std.specs.Prelude.{◌≡◌};
    ghost use Rattle.output_gate.specs.declared.exchange.OutStop.TheVariants.{NoMemory};

    ghost from_gives = { λ _ stop. stop ≡ NoMemory };

    fn from(_error: AllocError) -> OutStop {
        OutStop::NoMemory
    }
}

// Whether a set is a third of the active set or more.
fn is_third(active: ChanSet, set: ChanSet) -> bool
    ensures value { result ≡ is_third active set }
    ensures members { active ≡ channels_where (has active) }
{
    let _members = active.flags();
    u16::from(active.count()) <= 3 * u16::from(set.count())
}

impl OutputGate {
    /// Carries each line's words to the actuator, in order, and moves its words by what counts. The words stay where a
    /// third of the active channels or more are disturbed or did not have their frame delivered as sent, and where
    /// memory runs out. The bus's script stays.
    ///
    /// Where the words move, each moves towards the word that the lines have in its place, whatever the others sent.
    pub fn exchange<B: Bus, Q: Limit>(
        &mut self,
        alloc: Global,
        bus: &mut B,
        version: u8,
        part: &CycleRecord,
        settled: &Settled,
        limit: &Q,
    ) -> Result<(), OutStop>
        requires { MayExchange version (length self.old.words) part.now settled.now }
        ensures script { (B.seen bus.new).script ≡ (B.seen bus.old).script }
        ensures exchanged { Exchanges B.may (B.seen bus.old).script version part.now settled.now
            (B.seen bus.old).log (B.seen bus.new).log self.old self.new result }
    {
        let taken = send_lines(
            alloc,
            bus,
            version,
            count_of(&self.words),
            part.cycle,
            settled.disturbed,
            part.lines.as_slice(),
        )?;
        if is_third(part.active, taken.disturbed) {
            return Err(OutStop::Disturbed {
                set: taken.disturbed,
            });
        }
        self.apply(&taken.frames, limit);
        Ok(())
    }
}
