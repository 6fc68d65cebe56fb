//! The lines of a cycle's channels.
ghost use Rattle.std.specs.Prelude.{◌≡◌, length, bytes_eq};
ghost use Rattle.guards_model.specs.Records.{shown_line};
ghost use Rattle.guards_audit.specs.Tests.{same_votes, are_same_words, says_same};

use crate::sets::{are_same, both};
use guards_base::ChannelLine;
use mission_type::Mission;

/// Whether two lists of words are the same.
pub fn are_same_words(words: &[i64], others: &[i64]) -> bool
    ensures { result ≡ are_same_words words.now others.now }
{
    words == others
}

/// Whether two lists of votes are the same.
pub fn are_same_votes(votes: &[Option<i64>], others: &[Option<i64>]) -> bool
    ensures { result ≡ same_votes votes.now others.now }
{
    votes == others
}

/// Whether two lists of counts are the same.
pub fn are_same_counts(counts: &[u32], others: &[u32]) -> bool
    ensures { result ≡ bytes_eq counts.now others.now }
{
    counts == others
}

/// Whether two lines say the same of a cycle.
pub fn says_same(mission: &Mission, line: &ChannelLine, first: &ChannelLine) -> bool
    ensures { result ≡ says_same
        (shown_line mission.now.rules.channels mission.now.width (length mission.now.outputs) line.now)
        (shown_line mission.now.rules.channels mission.now.width (length mission.now.outputs) first.now) }
{
    mission.prove_sizes();
    let width = usize::from(mission.width());
    let outputs = mission.outputs().len();
    let channels = usize::from(mission.rules().channels);
    both(
        both(
            are_same_words(&line.inputs[..width], &first.inputs[..width]),
            are_same_votes(&line.votes[..outputs], &first.votes[..outputs]),
        ),
        both(
            are_same(line.judged, first.judged),
            are_same_counts(&line.alphas[..channels], &first.alphas[..channels]),
        ),
    )
}
