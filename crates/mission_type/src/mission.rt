//! The mission and what is read off it.

ghost use Rattle.std.specs.Prelude.{◌≡◌, ◌<◌, length, IfOk};
ghost use Rattle.guards_base.specs.Padding.{padded};
ghost use Rattle.guards_model.specs.Contexts.{context_word};
ghost use Rattle.guards_model.specs.Missions.{IsMission, sensor, output_words};
ghost use Rattle.mission_type.specs.Parts.{DrivesForward, IsSized, actuator_of};

use context_blocks::Context;
use fault_script::Script;
use guards_base::{Ballot, Chan, Rules, Sequence};
use std::alloc::{AllocError, Global};
use std::marker::Model;
use task_table::Table;

/// The block and the word of each output.
pub type Outputs = Sequence<(u8, u8)>;

/// The sensor words of each channel, of which those past the mission's width are 0.
pub type SensorRow = Sequence<[i64; 4]>;

/// The rows of sensor words, which take turns by cycles.
pub type SensorRows = Sequence<SensorRow>;

/// What is driven by the output words: for each output a step, at least 0, by which its word moves at most in a cycle,
/// and its first word.
#[derive(Clone, Copy, Debug, PartialEq, Eq)]
pub struct Actuator {
    pub steps: [i64; 8],
    pub start: [i64; 8],
}

/// What a run is made of. Contracts see the plain mission of `guards_model`.
#[derive(Drop)]
pub struct Mission {
    pub rules: Rules,
    /// The number of cycles, 1 to 2,000.
    pub cycles: u32,
    /// The number of sensor words of a channel, 1 to 4.
    pub width: u8,
    /// How many cycles a channel waits that was switched off, at most 1,000.
    pub return_after: u32,
    /// The context with which all channels begin.
    pub initial: Context,
    pub table: Table,
    pub outputs: Outputs,
    pub sensors: SensorRows,
    /// The faults to come.
    pub script: Script,
    /// What the output words drive, if they drive anything.
    pub actuator: Option<Actuator>,
}

impl Model for Mission {
    ghost use Rattle.guards_model.specs.Missions.{MissionValue};
    ghost use Rattle.mission_type.specs.Parts.{AreParts, mission_with};
    ghost use Rattle.mission_type.specs.Codes.{coded_mission};

    ghost Value = { MissionValue };

    ghost coded = { coded_mission };

    ghost view = { λ m. mission_with m.rules m.cycles m.width m.return_after m.initial m.table m.outputs.items
        m.sensors.items m.script m.actuator };

    // How the parts fit together.
    ghost invariant = { λ m. AreParts
        (mission_with m.rules m.cycles m.width m.return_after m.initial m.table m.outputs.items m.sensors.items m.script
        m.actuator) m.table m.sensors.items m.actuator };
}

/// The word of a block of the context.
fn word_at(context: &Context, output: (u8, u8)) -> i64
    requires block { output.0 < length context.now }
    requires word { output.1 < 8 }
    ensures { result ≡ context_word context.now output.0 output.1 }
{
    let (block, word) = output;
    context.get(block).words[word as usize]
}

impl Mission {
    /// Each value of the type is a mission.
    pub fn prove_mission(&self)
        ensures { IsMission self.now }
    {
        let _width = self.width;
    }

    /// The sizes of a mission are within their ranges and fit together.
    pub fn prove_sizes(&self)
        ensures { IsSized self.now }
    {
        let _width = self.width;
    }

    /// The rules of diagnosis, removal and transfer.
    pub fn rules(&self) -> &Rules
        ensures { result.now ≡ self.now.rules }
    {
        &self.rules
    }

    /// The number of cycles.
    pub fn cycles(&self) -> u32
        ensures { result ≡ self.now.cycles }
    {
        self.cycles
    }

    /// The number of sensor words of a channel, 1 to 4.
    pub fn width(&self) -> u8
        ensures { result ≡ self.now.width }
    {
        self.width
    }

    /// How many cycles a channel waits that was switched off.
    pub fn return_after(&self) -> u32
        ensures { result ≡ self.now.return_after }
    {
        self.return_after
    }

    /// The context before the first cycle.
    pub fn initial(&self) -> &Context
        ensures { result.now ≡ self.now.initial }
    {
        &self.initial
    }

    /// The block and the word of each output, 1 to 8 of them.
    pub fn outputs(&self) -> &[(u8, u8)]
        ensures { result.now ≡ self.now.outputs }
    {
        self.outputs.as_slice()
    }

    /// The fault script.
    pub fn script(&self) -> &Script
        ensures { result.now ≡ self.now.script }
    {
        &self.script
    }

    /// The actuator, if there is one. Its places past the outputs mean nothing.
    pub fn actuator(&self) -> Option<Actuator>
        ensures value { actuator_of (length self.now.outputs) result ≡ self.now.actuator }
        ensures forward { DrivesForward result }
    {
        self.actuator
    }

    /// Lends the table, which is made for the mission's contexts and inputs.
    pub fn table(&self) -> &Table
        ensures { result.now ≡ record {
          rows = self.now.table;
          blocks = self.now.rules.blocks;
          width = self.now.width;
        } }
    {
        &self.table
    }

    /// A context of its own, as all channels begin with it.
    pub fn start(&self, alloc: Global) -> Result<Context, AllocError>
        ensures { IfOk result (λ context. context ≡ self.now.initial) }
    {
        self.initial.copy(alloc)
    }

    /// The sensor words of a channel in a cycle, and 0 past the width.
    pub fn sensor(&self, chan: Chan, cycle: u32) -> [i64; 4]
        requires { chan < self.now.rules.channels }
        ensures { result ≡ padded 4 (sensor self.now chan cycle) }
    {
        let rows = self.sensors.as_slice();
        let row = &rows[cycle as usize % rows.len()];
        row.as_slice()[chan.index() as usize]
    }

    /// The output words of a context.
    pub fn output_words(&self, context: &Context) -> Ballot
        requires { length context.now ≡ self.now.rules.blocks }
        ensures { result ≡ output_words self.now context.now }
    {
        let mut words = [0; 8];
        let outputs = self.outputs.as_slice();
        for place in 0..outputs.len() {
            words[place] = word_at(context, outputs[place]);
        }
        Ballot::of(&words[..outputs.len()])
    }
}
