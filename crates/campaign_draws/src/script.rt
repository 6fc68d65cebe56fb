//! The script of a run.
ghost use Rattle.std.specs.Prelude.{◌≡◌, ◌<◌, ◌++◌, map, take, ℕ, None, IfOk, OnOk};
ghost use Rattle.guards_model.specs.ScriptFaults.{script_fault};
ghost use Rattle.fault_script.specs.Entries.{fault_value};
ghost use Rattle.fault_script.specs.declared.script.ScriptFault.TheVariants as ScriptFault;
ghost use Rattle.campaign_draws.specs.declared.rates.Rates.{Rates};
ghost use Rattle.campaign_draws.specs.Drawing.{after_channels, after_cycles, after_run, channels_faults, cycles_faults, drawn_faults};

use crate::draws::Draws;
use crate::entries::push_channel;
use crate::rates::Rates;
use crate::sizes::Sizes;
use fault_script::{Faults, Script, ScriptFault};
use guards_base::{Chan, Sequence};
use std::alloc::{AllocError, Global};

/// The most entries of a script.
const MOST: usize = 1_024;

/// The channel with this number.
fn chan(number: u8) -> Chan
    requires { number < 7 }
    ensures { result ≡ number }
{
    Chan::new(number).unwrap()
}

/// The faults of a cycle, channel by channel.
fn push_cycle(
    alloc: Global,
    faults: &mut Faults,
    sizes: Sizes,
    rates: Rates,
    cycle: u32,
    draws: &mut Draws,
) -> Result<(), AllocError>
    requires { cycle < sizes.cycles }
    ensures faults { OnOk result
        (map fault_value faults.new.items
        ≡ map fault_value faults.old.items ++ channels_faults sizes rates cycle sizes.channels 0 draws.old) }
    ensures number { OnOk result (draws.new ≡ after_channels sizes rates sizes.channels draws.old) }
{
    for number in 0..sizes.channels {
        let channel = chan(number);
        push_channel(alloc, faults, sizes, rates, cycle, channel, draws)?;
    }
    Ok(())
}

/// The faults of all cycles.
fn all_faults(
    alloc: Global,
    sizes: Sizes,
    rates: Rates,
    draws: &mut Draws,
) -> Result<Faults, AllocError>
    ensures faults { IfOk result
        (λ faults. map fault_value faults.items ≡ cycles_faults sizes rates sizes.cycles 0 draws.old) }
    ensures number { OnOk result (draws.new ≡ after_cycles sizes rates sizes.cycles draws.old) }
{
    let mut faults = Faults::new(alloc);
    for cycle in 0..sizes.cycles {
        push_cycle(alloc, &mut faults, sizes, rates, cycle, draws)?;
    }
    Ok(faults)
}

/// The first faults, as many as a script has at most.
fn first_faults(faults: Faults) -> Faults
    ensures { map fault_value result.items ≡ take 1024 (map fault_value faults.items) }
{
    let mut entries = faults.into_vec();
    entries.truncate(MOST);
    Sequence::from_vec(entries)
}

/// The error of a script whose entries keep the rules.
fn want_of_memory(fault: ScriptFault) -> AllocError
    requires { fault ≡ ScriptFault.Memory }
{
    let _fault = fault;
    AllocError
}

/// The script of entries that were drawn. They keep the rules, so that memory alone may be wanting.
fn script_of(alloc: Global, faults: Faults, sizes: Sizes) -> Result<Script, AllocError>
    requires { (rates : Rates) × (number : ℕ) × (map fault_value faults.items ≡ drawn_faults sizes rates number) }
    ensures made { IfOk result (λ script. script ≡ map fault_value faults.items) }
    ensures kept { IfOk result (λ script. script_fault sizes.channels sizes.cycles sizes.blocks script ≡ None) }
{
    match Script::new(alloc, faults, sizes.channels, sizes.cycles, sizes.blocks) {
        Ok(script) => Ok(script),
        Err(fault) => Err(want_of_memory(fault)),
    }
}

/// Draws the entries of the script of a run, and goes on to the number after its draws.
#[tactic(auto, unfolding(crate::specs::Drawing::after_run))]
pub fn drawn_entries(
    alloc: Global,
    sizes: Sizes,
    rates: Rates,
    draws: &mut Draws,
) -> Result<Faults, AllocError>
    ensures entries { IfOk result (λ entries. map fault_value entries.items ≡ drawn_faults sizes rates draws.old) }
    ensures number { OnOk result (draws.new ≡ after_run sizes rates draws.old) }
{
    let all = all_faults(alloc, sizes, rates, draws)?;
    Ok(first_faults(all))
}

/// Draws the script of a run, and goes on to the number after its draws. It keeps the rules of a script, so it fails
/// for want of memory alone.
pub(crate) fn drawn_script(
    alloc: Global,
    sizes: Sizes,
    rates: Rates,
    draws: &mut Draws,
) -> Result<Script, AllocError>
    ensures script { IfOk result (λ script. script ≡ drawn_faults sizes rates draws.old) }
    ensures kept { IfOk result (λ script. script_fault sizes.channels sizes.cycles sizes.blocks script ≡ None) }
    ensures number { OnOk result (draws.new ≡ after_run sizes rates draws.old) }
{
    let entries = drawn_entries(alloc, sizes, rates, draws)?;
    script_of(alloc, entries, sizes)
}
