//! The transfer that goes on or starts.
ghost use Rattle.std.specs.Prelude.{◌≡◌, ◌≤◌, ◌+◌, ◌&&◌, ◌||◌, ◌==◌, [], Some, None, if◌then◌else◌};
ghost use Rattle.guards_model.specs.Diagnosis.{asks as is_asking, enough_heard as is_heard};
ghost use Rattle.guards_model.specs.Transfers.{kept_targets, new_targets, transfer_to, start_of, transfer_after};
ghost use Rattle.guards_model.specs.Decisions.{dropped_of};
ghost use Rattle.guards_model.specs.Controls.{sweeping_for, transfer_in};
ghost use Rattle.guards_model.specs.Tags.{tags_of};

use crate::control::Transfer;
use crate::counting::asks;
use crate::sets::lowest;
use crate::telling::enough_heard;
use dirty_tags::Tags;
use guards_base::{Chan, ChanSet, Rules, SourceWord};

// Whether a cycle is the one after a transfer's start.
fn is_next(start: u32, cycle: u32) -> bool
    ensures { result ≡ (start + 1 == cycle) }
{
    start < cycle && cycle - start == 1
}

// The targets that stay.
fn stayers(
    active: ChanSet,
    agreed: &[Option<SourceWord>; 7],
    cycle: u32,
    targets: ChanSet,
    start: u32,
) -> ChanSet
    ensures { result ≡
        kept_targets active agreed.now cycle (Some (record { targets = targets; start = start })) }
{
    targets.filter(
        |c: Chan| -> bool
            ensures { result ≡
                (is_heard active agreed.entry.now 2 c || (start + 1 == cycle && is_heard active agreed.entry.now 1 c)) }
        {
            enough_heard(active, agreed, 2, c)
                || (is_next(start, cycle) && enough_heard(active, agreed, 1, c))
        },
    )
}

/// The targets that the running transfer loses.
pub fn drop_targets(
    running: &Option<Transfer>,
    active: ChanSet,
    agreed: &[Option<SourceWord>; 7],
    cycle: u32,
) -> ChanSet
    ensures { result ≡ dropped_of active agreed.now cycle (transfer_in running.now) }
{
    match running {
        None => ChanSet::empty(),
        Some(transfer) => {
            let kept = stayers(active, agreed, cycle, transfer.targets, transfer.start);
            transfer.targets.difference(kept)
        }
    }
}

// The lowest passive channels whose requests stand, and no more than the limit.
fn newcomers(
    rules: &Rules,
    active: ChanSet,
    fresh: ChanSet,
    agreed: &[Option<SourceWord>; 7],
) -> ChanSet
    requires channels { rules.now.channels ≤ 7 }
    requires limit { rules.now.returning ≤ 7 }
    ensures { result ≡ new_targets rules.now.channels rules.now.returning active fresh agreed.now }
{
    let passive = ChanSet::below(rules.channels).difference(active);
    let asking = passive.filter(
        |c: Chan| -> bool
            ensures { result ≡ is_asking active fresh agreed.entry.now c }
        { asks(active, fresh, agreed, c) },
    );
    lowest(asking, rules.returning)
}

// The tags of a transfer: all blocks remain of one that starts now.
fn tags_from(starts: bool, blocks: u16, tags: Tags) -> Tags
    requires some { 1 ≤ blocks }
    requires most { blocks ≤ 256 }
    ensures { result ≡ (if starts then tags_of blocks [] [] else tags) }
{
    if starts { Tags::all(blocks) } else { tags }
}

// The running transfer with the targets that stay.
fn go_on(
    running: Option<Transfer>,
    blocks: u16,
    active: ChanSet,
    agreed: &[Option<SourceWord>; 7],
    cycle: u32,
) -> Option<Transfer>
    requires some { 1 ≤ blocks }
    requires most { blocks ≤ 256 }
    ensures { result ≡ sweeping_for blocks cycle running
        (transfer_to (kept_targets active agreed.now cycle (transfer_in running))
        (start_of (transfer_in running))) }
{
    match running {
        None => None,
        Some(transfer) => {
            let Transfer {
                targets,
                start,
                tags,
            } = transfer;
            let kept = stayers(active, agreed, cycle, targets, start);
            if kept.count() == 0 {
                None
            } else {
                Some(Transfer {
                    targets: kept,
                    start,
                    tags: tags_from(start == cycle, blocks, tags),
                })
            }
        }
    }
}

// A transfer that starts in this cycle, where it has a target.
fn start(targets: ChanSet, blocks: u16, cycle: u32) -> Option<Transfer>
    requires some { 1 ≤ blocks }
    requires most { blocks ≤ 256 }
    ensures { result ≡ sweeping_for blocks cycle None (transfer_to targets cycle) }
{
    if targets.count() == 0 {
        None
    } else {
        Some(Transfer {
            targets,
            start: cycle,
            tags: Tags::all(blocks),
        })
    }
}

/// The running transfer with the targets that stay, or a new one, or none.
pub fn decide_transfer(
    running: Option<Transfer>,
    rules: &Rules,
    active: ChanSet,
    fresh: ChanSet,
    agreed: &[Option<SourceWord>; 7],
    cycle: u32,
) -> Option<Transfer>
    requires channels { rules.now.channels ≤ 7 }
    requires limit { rules.now.returning ≤ 7 }
    requires some { 1 ≤ rules.now.blocks }
    requires most { rules.now.blocks ≤ 256 }
    ensures { result ≡ sweeping_for rules.now.blocks cycle running
        (transfer_after rules.now.channels rules.now.returning active fresh agreed.now cycle
        (transfer_in running)) }
{
    match go_on(running, rules.blocks, active, agreed, cycle) {
        Some(transfer) => Some(transfer),
        None => start(newcomers(rules, active, fresh, agreed), rules.blocks, cycle),
    }
}
