//! The faults of one channel in one cycle.
ghost use Rattle.std.specs.Prelude.{◌≡◌, ◌<◌, ◌+◌, ◌-◌, ◌^◌, ◌++◌, ◌∷◌, [], map, pos, length, unwrap_or, slice_get, IfOk, OnOk};
ghost use Rattle.guards_model.specs.declared.Slot.TheVariants.{Request, Round1};
ghost use Rattle.guards_model.specs.Slots.{every_slot};
ghost use Rattle.fault_script.specs.Entries.{fault_value};
ghost use Rattle.demo_mission.specs.Demo.{drawn, draws, next_number, number_after};
ghost use Rattle.campaign_draws.specs.Drawing.{after_fault, after_channel, after_forgery, channel_faults, crashes, damages, forged_vote, forgeries, losses, lossy_slots, other_channel};

use crate::draws::Draws;
use crate::rates::Rates;
use crate::sizes::Sizes;
use fault_script::{Fault, Faults};
use guards_base::{Ballot, Bytes, Chan, Slot};
use icn_bus::{Act, Rule};
use icn_frames::{Body, Frame, encode};
use std::alloc::{AllocError, Global};

const SLOTS: [Slot; 9] = [
    Slot::Request,
    Slot::Round1,
    Slot::Round2,
    Slot::Round3,
    Slot::Tasks,
    Slot::Vote,
    Slot::Sweep,
    Slot::Final,
    Slot::Switch,
];

const LOSSY: [Slot; 5] = [
    Slot::Round1,
    Slot::Round2,
    Slot::Vote,
    Slot::Sweep,
    Slot::Final,
];

/// A slot of the cycle by its number.
fn slot_of(number: u64) -> Slot
    requires { number < 9 }
    ensures { result ≡ unwrap_or (slice_get every_slot number) Request }
{
    SLOTS[number as usize]
}

/// A slot in which a piece is lost, by its number.
fn lossy_slot(number: u64) -> Slot
    requires { number < 5 }
    ensures { result ≡ unwrap_or (slice_get lossy_slots number) Round1 }
{
    LOSSY[number as usize]
}

/// Another channel.
fn other_channel(sizes: Sizes, channel: Chan, draws: &mut Draws) -> u8
    requires { channel < sizes.channels }
    ensures channel { result ≡ other_channel sizes.channels channel
        (drawn (sizes.channels - 1) (next_number draws.old)) }
    ensures number { draws.new ≡ next_number draws.old }
{
    let channels = u64::from(sizes.channels);
    let draw = draws.below(channels - 1);
    ((u64::from(channel.index()) + 1 + draw) % channels) as u8
}

/// A crash and its restart.
#[tactic(auto, unfolding(crate::specs::Drawing::crashes, crate::specs::Drawing::after_fault, demo_mission::specs::Demo::number_after))]
fn push_crash(
    faults: &mut Faults,
    sizes: Sizes,
    rates: Rates,
    cycle: u32,
    channel: Chan,
    draws: &mut Draws,
) -> Result<(), AllocError>
    requires { cycle < sizes.cycles }
    ensures faults { OnOk result
        (map fault_value faults.new.items
        ≡ map fault_value faults.old.items ++ crashes sizes rates cycle channel draws.old) }
    ensures number { OnOk result (draws.new ≡ after_fault 2 rates.crash draws.old) }
{
    if !draws.happens(rates.crash) {
        return Ok(());
    }
    let slot = slot_of(draws.below(9));
    let restart = cycle + 1 + draws.below(8) as u32;
    let channel = channel.index();
    faults.push(Fault::Crash {
        channel,
        cycle,
        slot,
    })?;
    if restart < sizes.cycles {
        faults.push(Fault::Restart {
            channel,
            cycle: restart,
        })?;
    }
    Ok(())
}

/// A damage of one word.
#[tactic(auto, unfolding(crate::specs::Drawing::damages, crate::specs::Drawing::after_fault, demo_mission::specs::Demo::number_after))]
fn push_damage(
    faults: &mut Faults,
    sizes: Sizes,
    rates: Rates,
    cycle: u32,
    channel: Chan,
    draws: &mut Draws,
) -> Result<(), AllocError>
    ensures faults { OnOk result
        (map fault_value faults.new.items
        ≡ map fault_value faults.old.items ++ damages sizes rates cycle channel draws.old) }
    ensures number { OnOk result (draws.new ≡ after_fault 3 rates.damage draws.old) }
{
    if !draws.happens(rates.damage) {
        return Ok(());
    }
    let block = draws.below(u64::from(sizes.blocks)) as u8;
    let word = draws.below(8) as u8;
    let value = drawn_word(draws);
    faults.push(Fault::Damage {
        channel: channel.index(),
        cycle,
        block,
        word,
        value,
    })?;
    Ok(())
}

/// A lost frame.
#[tactic(auto, unfolding(crate::specs::Drawing::losses, crate::specs::Drawing::after_fault, demo_mission::specs::Demo::number_after))]
fn push_loss(
    faults: &mut Faults,
    sizes: Sizes,
    rates: Rates,
    cycle: u32,
    channel: Chan,
    draws: &mut Draws,
) -> Result<(), AllocError>
    requires { channel < sizes.channels }
    ensures faults { OnOk result
        (map fault_value faults.new.items
        ≡ map fault_value faults.old.items ++ losses sizes rates cycle channel draws.old) }
    ensures number { OnOk result (draws.new ≡ after_fault 2 rates.lose draws.old) }
{
    if !draws.happens(rates.lose) {
        return Ok(());
    }
    let slot = lossy_slot(draws.below(5));
    let to = other_channel(sizes, channel, draws);
    faults.push(Fault::Bus(Rule {
        cycle,
        slot,
        from: channel,
        to: Some(to),
        act: Act::Lose,
    }))?;
    Ok(())
}

/// A word below two to the 31st.
fn drawn_word(numbers: &mut Draws) -> i64
    ensures value { result ≡ pos (drawn (2 ^ 31) (next_number numbers.old)) }
    ensures number { numbers.new ≡ next_number numbers.old }
{
    numbers.below(2_147_483_648) as i64
}

/// Appends such a word.
fn push_word(words: &mut Vec<i64>, numbers: &mut Draws) -> Result<(), AllocError>
    ensures pushed { OnOk result
        (words.new.items ≡ words.old.items ++ pos (drawn (2 ^ 31) (next_number numbers.old)) ∷ []) }
    ensures number { OnOk result (numbers.new ≡ next_number numbers.old) }
{
    words.push(drawn_word(numbers))?;
    Ok(())
}

/// So many words below two to the 31st.
fn drawn_words(alloc: Global, outputs: u8, numbers: &mut Draws) -> Result<Vec<i64>, AllocError>
    ensures words { IfOk result (λ words. words.items ≡ map (λ word. pos word) (draws outputs (2 ^ 31) numbers.old)) }
    ensures number { OnOk result (numbers.new ≡ number_after outputs numbers.old) }
{
    let mut words = Vec::new(alloc);
    for _output in 0..outputs {
        push_word(&mut words, numbers)?;
    }
    Ok(words)
}

/// A vote frame whose words are drawn.
#[tactic(auto, unfolding(crate::specs::Drawing::forged_vote))]
fn forged_vote(
    alloc: Global,
    sizes: Sizes,
    cycle: u32,
    channel: Chan,
    numbers: &mut Draws,
) -> Result<Bytes, AllocError>
    requires cycle { cycle < sizes.cycles }
    requires channel { channel < sizes.channels }
    ensures piece { IfOk result
        (λ piece. piece.items ≡ forged_vote sizes.version cycle channel (draws sizes.outputs (2 ^ 31) numbers.old)) }
    ensures number { OnOk result (numbers.new ≡ number_after sizes.outputs numbers.old) }
{
    let words = drawn_words(alloc, sizes.outputs, numbers)?;
    let frame = Frame {
        version: sizes.version,
        sender: channel,
        cycle,
        body: Body::Vote(Ballot::of(words.as_slice())),
    };
    let piece = encode(alloc, &frame)?;
    Ok(piece)
}

/// A forged vote frame.
#[tactic(auto, unfolding(crate::specs::Drawing::forgeries, crate::specs::Drawing::after_forgery))]
fn push_forgery(
    alloc: Global,
    faults: &mut Faults,
    sizes: Sizes,
    rates: Rates,
    cycle: u32,
    channel: Chan,
    draws: &mut Draws,
) -> Result<(), AllocError>
    requires cycle { cycle < sizes.cycles }
    requires channel { channel < sizes.channels }
    ensures faults { OnOk result
        (map fault_value faults.new.items
        ≡ map fault_value faults.old.items ++ forgeries sizes rates cycle channel draws.old) }
    ensures number { OnOk result (draws.new ≡ after_forgery sizes rates draws.old) }
{
    if !draws.happens(rates.forge) {
        return Ok(());
    }
    let piece = forged_vote(alloc, sizes, cycle, channel, draws)?;
    let to = other_channel(sizes, channel, draws);
    faults.push(Fault::Bus(Rule {
        cycle,
        slot: Slot::Vote,
        from: channel,
        to: Some(to),
        act: Act::Forge(piece),
    }))?;
    Ok(())
}

/// The faults of a channel in a cycle: a crash, a damage, a loss and a forgery, each if it happens.
#[tactic(auto, unfolding(crate::specs::Drawing::channel_faults, crate::specs::Drawing::after_channel))]
pub(crate) fn push_channel(
    alloc: Global,
    faults: &mut Faults,
    sizes: Sizes,
    rates: Rates,
    cycle: u32,
    channel: Chan,
    draws: &mut Draws,
) -> Result<(), AllocError>
    requires cycle { cycle < sizes.cycles }
    requires channel { channel < sizes.channels }
    ensures faults { OnOk result
        (map fault_value faults.new.items
        ≡ map fault_value faults.old.items ++ channel_faults sizes rates cycle channel draws.old) }
    ensures number { OnOk result (draws.new ≡ after_channel sizes rates draws.old) }
{
    push_crash(faults, sizes, rates, cycle, channel, draws)?;
    push_damage(faults, sizes, rates, cycle, channel, draws)?;
    push_loss(faults, sizes, rates, cycle, channel, draws)?;
    push_forgery(alloc, faults, sizes, rates, cycle, channel, draws)?;
    Ok(())
}
