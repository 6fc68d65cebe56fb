//! All channels.
ghost use Rattle.std.specs.Prelude.{◌≡◌};
ghost use Rattle.guards_model.specs.Channels.{every_channel};

use guards_base::{Chan, table_by};

/// Every channel that there can be, in order.
#[tactic(auto, unfolding(guards_model::specs::Channels::by_channel))]
pub fn every_channel() -> [Chan; 7]
    ensures { result ≡ every_channel }
{
    table_by(
        |c: Chan| -> Chan
            ensures { result ≡ c }
        { c },
    )
}
