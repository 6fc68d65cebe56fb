//! The first lines.
ghost use Rattle.std.specs.Prelude.{◌≡◌, ◌≤◌, IfOk};
ghost use Rattle.guards_model.specs.JoinBound.{join_bound};
ghost use Rattle.check_text.specs.Check.{head_text};

use guards_base::Text;
use mission_type::Mission;
use report_text::check_head;
use std::alloc::{AllocError, Global};

/// The most cycles that a transfer takes: each copies at least `sweep - writes` blocks more than are written again, and
/// the last `last` blocks are copied at once.
pub fn join_bound(blocks: u16, sweep: u16, last: u16, writes: u16) -> Option<u32>
    ensures { result ≡ join_bound blocks sweep last writes }
{
    if writes >= sweep || writes > last {
        return None;
    }
    let copied = u32::from(blocks.saturating_sub(last));
    let gained = u32::from(sweep - writes);
    Some(copied.div_ceil(gained).max(1))
}

/// The first four lines: the sizes, the rounds of a cycle, the most blocks that a row writes, and the bound of a join.
pub fn head_text(alloc: Global, mission: &Mission) -> Result<Text, AllocError>
    ensures { IfOk result (λ text. text ≡ head_text mission.now) }
{
    mission.prove_sizes();
    let rules = mission.rules();
    let channels = rules.channels;
    let writes = mission.table().most_blocks();
    let bound = join_bound(
        rules.blocks,
        u16::from(rules.sweep),
        u16::from(rules.last),
        writes,
    );
    let rounds = (channels - 1) / 3 + 1;
    let mut text = Text::new(alloc);
    check_head(
        alloc,
        &mut text,
        channels,
        mission.cycles(),
        rules.blocks,
        rounds,
        writes,
        bound,
    )?;
    Ok(text)
}
