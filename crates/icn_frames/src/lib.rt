//! The frames that channels send, and their one spelling as bytes.
#![tactic(auto)]

mod decoding;
mod encoding;
mod frame;
mod judging;
mod ranges;
mod reading;
mod unread;

pub use decoding::decode;
pub use encoding::encode;
pub use frame::{
    BlockCopy, Body, ControlWord, Copies, Exchange, FinalBody, Finals, Frame, Item, Items, Labels,
    SweepBody, Sweeps,
};
