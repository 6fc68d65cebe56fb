//! The record of a cycle.
ghost use Rattle.std.specs.Prelude.{◌≡◌};
ghost use Rattle.guards_model.specs.Modes.{is_up};
ghost use Rattle.guards_model.specs.Ledgers.{mode_of};
ghost use Rattle.guards_model.specs.Records.{transfer_of_pair};
ghost use Rattle.icn_world.specs.Told.{of_channels_up};

use crate::restoring::SweepResult;
use crate::rounds::Reconfiguration;
use crate::world::World;
use fault_script::Ledger;
use guards_base::{Chan, ChannelLine, CycleRecord, Lines, Mode, Traces};

fn is_up(ledger: &Ledger, c: Chan) -> bool
    ensures { result ≡ is_up (mode_of ledger.now c) }
{
    matches!(ledger.mode(c), Mode::Up)
}

fn is_of_running(ledger: &Ledger, line: &ChannelLine) -> bool
    ensures { result ≡ is_up (mode_of ledger.now line.now.channel) }
{
    is_up(ledger, line.chan)
}

// A channel that crashed after the vote has no line.
fn lines_that_run(lines: Lines, ledger: &Ledger) -> Lines
    ensures { result.items ≡ of_channels_up ledger.now lines.items }
{
    let mut kept = lines.into_vec();
    kept.retain(|line| is_of_running(ledger, line));
    Lines::from_vec(kept)
}

impl World {
    // The record of the cycle, when its last slot is over.
    pub(crate) fn record(
        &self,
        reconfiguration: &Reconfiguration,
        lines: Lines,
        traces: Traces,
        restored: &SweepResult,
    ) -> CycleRecord
        ensures { result ≡ record {
          cycle = self.now.done;
          active = self.now.switches;
          transfer = transfer_of_pair reconfiguration.now.transfer;
          lines = of_channels_up self.now.ledger lines.items;
          traces = traces.items;
          removed = reconfiguration.now.removed;
          joined = restored.now.joined;
          remaining = restored.now.remaining;
        } }
    {
        CycleRecord {
            cycle: self.done,
            active: self.switchboard.on(),
            transfer: reconfiguration.transfer,
            lines: lines_that_run(lines, &self.ledger),
            traces,
            removed: reconfiguration.removed,
            joined: restored.joined,
            remaining: restored.remaining,
        }
    }
}
