//! Who was disturbed where a run stopped, and why.
ghost use Rattle.std.specs.Prelude.{◌≡◌, ◌++◌, ◌∷◌, [], ◌<◌, ◌==◌, ◌/◌, ◌%◌, ◌^◌, if◌then◌else◌, string_bytes, IfOk, OnOk};
ghost use Rattle.std.specs.Fmt.{decimal};
ghost use Rattle.guards_model.specs.Channels.{place_or};
ghost use Rattle.campaign_text.specs.Rows.{cause_text, disturbed_text, kinds_text, why_text};

use campaign_facts::{Kind, is_named_by};
use fault_script::Script;
use guards_base::{CHANNELS, ChanSet};
use std::alloc::{AllocError, Global};

/// The kinds that are there, with a slash between each two.
#[tactic(auto, unfolding(crate::specs::Rows::kinds_text))]
fn kinds_text(crash: bool, damage: bool, forge: bool, lose: bool) -> &'static str
    ensures { result.now ≡ kinds_text crash damage forge lose }
{
    match (crash, damage, forge, lose) {
        (false, false, false, false) => "not whole",
        (true, false, false, false) => "crash",
        (false, true, false, false) => "damage",
        (true, true, false, false) => "crash/damage",
        (false, false, true, false) => "forge",
        (true, false, true, false) => "crash/forge",
        (false, true, true, false) => "damage/forge",
        (true, true, true, false) => "crash/damage/forge",
        (false, false, false, true) => "lose",
        (true, false, false, true) => "crash/lose",
        (false, true, false, true) => "damage/lose",
        (true, true, false, true) => "crash/damage/lose",
        (false, false, true, true) => "forge/lose",
        (true, false, true, true) => "crash/forge/lose",
        (false, true, true, true) => "damage/forge/lose",
        (true, true, true, true) => "crash/damage/forge/lose",
    }
}

/// What names a disturbed channel, from a cycle on up to the stop's.
#[tactic(auto, unfolding(crate::specs::Rows::cause_text))]
fn cause_text(script: &Script, first: u32, cycle: u32, channel: u8) -> &'static str
    ensures { result.now ≡ cause_text script.now first cycle channel }
{
    kinds_text(
        is_named_by(Kind::Crash, script, channel, first, cycle),
        is_named_by(Kind::Damage, script, channel, first, cycle),
        is_named_by(Kind::Forgery, script, channel, cycle, cycle),
        is_named_by(Kind::Loss, script, channel, cycle, cycle),
    )
}

/// Appends the piece at this place of a list, each but the first after a plus.
fn push_piece(text: &mut String, place: usize, piece: &str) -> Result<(), AllocError>
    ensures { OnOk result (string_bytes text.new
        ≡ string_bytes text.old ++ (if place == 0 then piece.now else 43 ∷ piece.now)) }
{
    if place > 0 {
        text.push('+')?;
    }
    text.push_str(piece)?;
    Ok(())
}

fn has_bit(mask: u8, channel: u8) -> bool
    requires { channel < 7 }
    ensures { result ≡ ((mask / 2 ^ channel) % 2 == 1) }
{
    mask / (1 << channel) % 2 == 1
}

/// Appends the channel where its bit is set.
fn push_member(list: &mut Vec<u8>, mask: u8, channel: u8) -> Result<(), AllocError>
    requires { channel < 7 }
    ensures { OnOk result (list.new.items
        ≡ list.old.items ++ (if (mask / 2 ^ channel) % 2 == 1 then channel ∷ [] else [])) }
{
    if has_bit(mask, channel) {
        list.push(channel)?;
    }
    Ok(())
}

/// The members of a set, in ascending order.
fn members(alloc: Global, set: ChanSet) -> Result<Vec<u8>, AllocError>
    ensures { IfOk result (λ list. list.items ≡ set) }
{
    let mask = set.mask();
    let mut list = Vec::new(alloc);
    for channel in 0..CHANNELS {
        push_member(&mut list, mask, channel)?;
    }
    Ok(list)
}

/// The number of a channel, as a text.
fn number_text(alloc: Global, channel: u8) -> Result<String, AllocError>
    ensures { IfOk result (λ text. string_bytes text ≡ decimal channel) }
{
    format!(in alloc; "{channel}")
}

/// The channels, with a plus between each two.
fn joined_channels(alloc: Global, channels: &[u8]) -> Result<String, AllocError>
    ensures { IfOk result (λ text. string_bytes text ≡ disturbed_text channels.now) }
{
    let mut text = String::new(alloc);
    for (place, channel) in channels.iter().enumerate() {
        let piece = number_text(alloc, *channel)?;
        push_piece(&mut text, place, &piece)?;
    }
    Ok(text)
}

/// What names a disturbed channel, from its first cycle on.
fn cause_of(script: &Script, firsts: &[u32; 7], cycle: u32, channel: u8) -> &'static str
    ensures { result.now ≡ cause_text script.now (place_or firsts.now channel 0) cycle channel }
{
    cause_text(script, first_of(firsts, channel), cycle, channel)
}

/// What names each of the channels, with a plus between each two.
fn joined_causes(
    alloc: Global,
    script: &Script,
    firsts: &[u32; 7],
    cycle: u32,
    channels: &[u8],
) -> Result<String, AllocError>
    ensures { IfOk result (λ text. string_bytes text ≡ why_text script.now firsts.now cycle channels.now) }
{
    let mut text = String::new(alloc);
    for (place, channel) in channels.iter().enumerate() {
        let piece = cause_of(script, firsts, cycle, *channel);
        push_piece(&mut text, place, piece)?;
    }
    Ok(text)
}

/// The first cycle that counts for a channel.
fn first_of(firsts: &[u32; 7], channel: u8) -> u32
    ensures { result ≡ place_or firsts.now channel 0 }
{
    match firsts.get(channel as usize) {
        Some(first) => *first,
        None => 0,
    }
}

/// The disturbed channels.
pub(crate) fn disturbed_text(alloc: Global, set: ChanSet) -> Result<String, AllocError>
    ensures { IfOk result (λ text. string_bytes text ≡ disturbed_text set) }
{
    let channels = members(alloc, set)?;
    joined_channels(alloc, channels.as_slice())
}

/// What names each disturbed channel.
pub(crate) fn why_text(
    alloc: Global,
    script: &Script,
    firsts: &[u32; 7],
    cycle: u32,
    set: ChanSet,
) -> Result<String, AllocError>
    ensures { IfOk result (λ text. string_bytes text ≡ why_text script.now firsts.now cycle set) }
{
    let channels = members(alloc, set)?;
    joined_causes(alloc, script, firsts, cycle, channels.as_slice())
}
