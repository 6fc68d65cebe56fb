//! The vote.
ghost use Rattle.std.specs.Prelude.{◌≡◌, ◌≤◌, ◌-◌, ◌++◌, ◌==◌, Some, None, length, replicate, if◌then◌else◌};
ghost use Rattle.guards_model.specs.Channels.{place_or};
ghost use Rattle.guards_model.specs.Voting.{vote_of, accused_of};
ghost use Rattle.guards_nodes.specs.NodeStates.{DecidedValue};
ghost use Rattle.guards_nodes.specs.NodeSteps.{words_at, with_own, after_votes};
ghost use Rattle.guards_nodes.specs.WholeLines.{whole_line};

use crate::running::Running;
use guards_base::{Ballot, Chan, ChanSet, ChannelLine, table_by};
use mission_type::Mission;
use voter::{accusations, vote};

// The ballot of a channel, where the own one is this.
fn ballot_of(ballots: &[Option<Ballot>; 7], me: Chan, own: &Ballot, j: Chan) -> Option<Ballot>
    ensures { result ≡ (if j == me then Some own.now else place_or ballots.now j None) }
{
    if j.index() == me.index() {
        Some(*own)
    } else {
        ballots[usize::from(j.index())]
    }
}

// The ballots with the own one in its place.
fn with_own_ballot(ballots: &[Option<Ballot>; 7], me: Chan, own: &Ballot) -> [Option<Ballot>; 7]
    ensures { result ≡ with_own me own.now ballots.now }
{
    table_by(
        |j: Chan| -> Option<Ballot>
            ensures { result ≡ (if j == me then Some own.entry.now else place_or ballots.entry.now j None) }
        { ballot_of(ballots, me, own, j) },
    )
}

// The votes on so many outputs, and whom they accuse.
fn settle(
    ballots: &[Option<Ballot>; 7],
    active: ChanSet,
    outputs: u8,
) -> ([Option<i64>; 8], ChanSet)
    requires { outputs ≤ 8 }
    ensures votes { result.0 ≡ vote_of active outputs ballots.now ++ replicate (8 - outputs) None }
    ensures accused { result.1 ≡ accused_of active ballots.now (vote_of active outputs ballots.now) }
{
    let votes = vote(ballots, active, outputs);
    let accused = accusations(ballots, active, &votes);
    (votes, accused)
}

// The number of outputs.
fn outputs_of(mission: &Mission) -> u8
    ensures value { result ≡ length mission.now.outputs }
    ensures few { result ≤ 8 }
{
    mission.prove_sizes();
    mission.outputs().len() as u8
}

impl Running {
    /// The words that the channel casts.
    pub fn ballot(&self, mission: &Mission) -> Ballot
        requires { length self.now.context ≡ mission.now.rules.blocks }
        ensures { result ≡ words_at mission.now.outputs self.now.context }
    {
        mission.output_words(&self.context)
    }

    /// Votes on the ballots, of which the place of this channel is not looked at, keeps whom it accuses by them, and
    /// answers the channel's line of the report.
    pub fn take_votes(
        &mut self,
        me: Chan,
        mission: &Mission,
        ballots: &[Option<Ballot>; 7],
    ) -> ChannelLine
        requires blocks { length self.old.context ≡ mission.now.rules.blocks }
        requires decided { (d : DecidedValue) × (self.old.decided ≡ Some d) }
        ensures state { self.new ≡ after_votes me mission.now.outputs ballots.now self.old }
        ensures line { (d : DecidedValue) → self.old.decided ≡ Some d →
            result ≡ whole_line me mission.now.outputs self.old d ballots.now }
    {
        let own = self.ballot(mission);
        let all = with_own_ballot(ballots, me, &own);
        let (votes, accused) = settle(&all, self.control.active, outputs_of(mission));
        self.accused = accused;
        let decided = self.decided.as_ref().unwrap();
        ChannelLine {
            chan: me,
            inputs: decided.whole_inputs(),
            votes,
            judged: decided.judged,
            alphas: self.control.counts(),
        }
    }
}
