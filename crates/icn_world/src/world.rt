//! The world, and what it lends.
ghost use Rattle.std.specs.Prelude.{◌≡◌, ◌<◌, length, slice_get, Some, IfOk};
ghost use Rattle.guards_world.specs.Worlds.{first_world};
ghost use Rattle.icn_world.specs.declared.world.Halt.TheVariants.{NoMemory};

use channel_node::Node;
use fault_script::Ledger;
use guards_base::{Chan, ChanSet, Settled};
use guards_model::Slot;
use icn_bus::Switchboard;
use mission_type::Mission;
use std::alloc::{AllocError, Global};
use std::marker::Model;
use world_nodes::Nodes;

/// How a cycle ended that did not finish.
#[derive(Clone, Copy, Debug, PartialEq, Eq)]
pub enum Halt {
    /// At the end of this slot a third of the active channels or more were disturbed.
    Disturbed {
        cycle: u32,
        slot: Slot,
        set: ChanSet,
        active: ChanSet,
    },
    /// Memory ran out.
    NoMemory,
}

impl From<AllocError> for Halt {
    ghost from_gives = { λ _ halt. halt ≡ NoMemory };

    fn from(_error: AllocError) -> Halt {
        Halt::NoMemory
    }
}

/// All nodes, of which there are as many as the mission has channels, the ledger and the switches. A spent world keeps
/// its halt.
#[derive(Drop)]
pub struct World {
    pub(crate) mission: Mission,
    pub(crate) done: u32,
    pub(crate) carried: u64,
    pub(crate) nodes: Nodes,
    pub(crate) ledger: Ledger,
    pub(crate) switchboard: Switchboard,
    pub(crate) spent: Option<Halt>,
    pub(crate) settled: Option<Settled>,
    ghost counted: { length nodes ≡ mission.rules.channels },
}

impl Model for World {
    ghost use Rattle.std.specs.Prelude.{option_map};
    ghost use Rattle.guards_world.specs.Worlds.{WorldValue};
    ghost use Rattle.icn_world.specs.Halts.{halt_value};
    ghost use Rattle.icn_world.specs.Codes.{coded_world};

    ghost Value = { WorldValue };

    ghost coded = { coded_world };

    ghost view = { λ w. record {
      mission = w.mission;
      done = w.done;
      carried = w.carried;
      nodes = w.nodes;
      ledger = w.ledger;
      switches = w.switchboard;
      spent = option_map halt_value w.spent;
      settled = w.settled;
    } };
}

impl World {
    /// The world of a mission before its first cycle.
    #[tactic(auto, using(crate::proofs::Entering::first_ledger_is, crate::proofs::Entering::first_count))]
    pub fn start(alloc: Global, mission: Mission) -> Result<World, AllocError>
        ensures { IfOk result (λ world. world ≡ first_world mission) }
    {
        mission.prove_sizes();
        let channels = mission.rules().channels;
        let nodes = Nodes::first(alloc, &mission)?;
        let ledger = Ledger::first(channels, mission.return_after());
        Ok(World {
            mission,
            done: 0,
            carried: 0,
            nodes,
            ledger,
            switchboard: Switchboard::new(ChanSet::below(channels)),
            spent: None,
            settled: None,
        })
    }

    /// The number of finished cycles.
    pub fn done(&self) -> u32
        ensures { result ≡ self.now.done }
    {
        self.done
    }

    /// Who was active in the last finished cycle, and who was disturbed at its end; none before the first.
    pub fn settled(&self) -> Option<Settled>
        ensures { result ≡ self.now.settled }
    {
        self.settled
    }

    /// Lends the mission.
    pub fn mission(&self) -> &Mission
        ensures { result.now ≡ self.now.mission }
    {
        &self.mission
    }

    // The channels that are switched on, which within a cycle are the active ones.
    pub(crate) fn active(&self) -> ChanSet
        ensures { result ≡ self.now.switches }
    {
        self.switchboard.on()
    }

    /// Lends the node of a channel.
    pub fn node(&self, c: Chan) -> &Node
        requires { c < self.now.mission.rules.channels }
        ensures { slice_get self.now.nodes c ≡ Some result.now }
    {
        self.nodes.get(c)
    }

    /// The number of entries that were carried since the start.
    pub fn carried(&self) -> u64
        ensures { result ≡ self.now.carried }
    {
        self.carried
    }
}
