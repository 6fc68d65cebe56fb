//! Plain values that every other crate uses: lists, texts, channels, source words and ballots.
#![tactic(auto)]

mod channel;
mod each_channel;
mod flags;
mod list;
mod record;
mod refused;
mod rules;
mod settled;
mod text;
mod word;

pub use channel::{CHANNELS, Chan, ChanSet};
pub use each_channel::{flags_by, set_by, table_by};
pub use guards_model::{Law, Mode, Slot};
pub use list::{Bytes, Numbers, Sequence, Words};
pub use record::{ChannelLine, CycleRecord, Lines, TraceLine, Traces};
pub use refused::Refused;
pub use rules::Rules;
pub use settled::Settled;
pub use text::Text;
pub use word::{Ballot, SourceWord};
