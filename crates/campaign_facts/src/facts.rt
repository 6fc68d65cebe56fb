//! What is counted of a cycle.
ghost use Rattle.std.specs.Prelude.{◌≡◌, ◌==◌};
ghost use Rattle.std.specs.List.{list_any};
ghost use Rattle.guards_model.specs.Channels.{channels_where};
ghost use Rattle.campaign_facts.specs.Facts.{facts_of_record};
ghost use Rattle.campaign_facts.specs.Tallies.{facts_value};

use guards_base::{Chan, ChanSet, ChannelLine, CycleRecord, set_by};

/// Who was removed in a cycle, who was declared joined, its transfer with its targets and its start, and who had a line
/// at its end.
#[derive(Clone, Copy, Debug)]
pub struct CycleFacts {
    pub removed: ChanSet,
    pub joined: ChanSet,
    pub transfer: Option<(ChanSet, u32)>,
    pub running: ChanSet,
}

/// Whether a channel has a line.
fn has_line(lines: &[ChannelLine], channel: u8) -> bool
    ensures { result ≡ list_any (λ line. line.channel == channel) lines.now }
{
    lines.iter().any(|line| line.chan.index() == channel)
}

/// Who has a line.
fn who_runs(lines: &[ChannelLine]) -> ChanSet
    ensures { result ≡ channels_where (λ q. list_any (λ line. line.channel == q) lines.now) }
{
    set_by(
        |c: Chan| -> bool
            ensures { result ≡ list_any (λ line. line.channel == c) lines.entry.now }
        { has_line(lines, c.index()) },
    )
}

impl CycleFacts {
    /// What is counted of the cycle that this record tells.
    pub fn of(part: &CycleRecord) -> CycleFacts
        ensures { facts_value result ≡ facts_of_record part.now }
    {
        CycleFacts {
            removed: part.removed,
            joined: part.joined,
            transfer: part.transfer,
            running: who_runs(part.lines.as_slice()),
        }
    }
}
