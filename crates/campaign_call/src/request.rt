//! The words of a campaign.
ghost use Rattle.std.specs.Prelude.{◌≡◌, ◌≤◌, IfSome};
ghost use Rattle.std.specs.Char.{is_ascii_digit};
ghost use Rattle.std.specs.List.{list_all};
ghost use Rattle.command_line.specs.Commands.{is_number, number_of};
ghost use Rattle.campaign_call.specs.Requests.{IsWithin, campaign_of, mission_of_run, number_within, rate_of, rates_of, request_of, request_with};

use campaign_draws::Rates;
use guards_base::Words;

/// The most digits of a number.
const MOST_DIGITS: usize = 20;

/// What the words ask for.
#[derive(Clone, Copy, Debug, PartialEq, Eq)]
pub enum Request {
    /// A campaign: the number from which its first run is drawn, how many runs it has, 1 to 10,000, and the rates of
    /// its faults.
    Campaign { state: u64, runs: u32, rates: Rates },
    /// The mission of the run that this number draws at these rates.
    Mission { state: u64, rates: Rates },
}

fn is_number(text: &str) -> bool
    ensures { result ≡ is_number text.now }
{
    let digits = text.as_bytes();
    !digits.is_empty() && digits.len() <= MOST_DIGITS && are_digits(digits)
}

fn are_digits(bytes: &[u8]) -> bool
    ensures { result ≡ list_all is_ascii_digit bytes.now }
{
    bytes.iter().all(|byte| byte.is_ascii_digit())
}

/// The number that a text of one to twenty digits writes, where it is below two to the 64th.
fn number_of(text: &str) -> Option<u64>
    ensures { result ≡ number_of text.now }
{
    if is_number(text) {
        text.parse::<u64>().ok()
    } else {
        None
    }
}

/// The number of a text, where it is from low to high.
#[tactic(auto, unfolding(crate::specs::Requests::number_within))]
fn number_within(low: u64, high: u64, text: &str) -> Option<u64>
    ensures value { result ≡ number_within low high text.now }
    ensures most { IfSome result (λ number. number ≤ high) }
{
    match number_of(text) {
        Some(number) if low <= number && number <= high => Some(number),
        _ => None,
    }
}

fn rate_of(text: &str) -> Option<u32>
    ensures { result ≡ rate_of text.now }
{
    match number_within(0, 1_000_000, text) {
        Some(number) => Some(number as u32),
        None => None,
    }
}

#[tactic(auto, unfolding(crate::specs::Requests::rates_of))]
fn rates_of(crash: &str, damage: &str, lose: &str, forge: &str) -> Option<Rates>
    ensures { result ≡ rates_of crash.now damage.now lose.now forge.now }
{
    let Some(crash) = rate_of(crash) else {
        return None;
    };
    let Some(damage) = rate_of(damage) else {
        return None;
    };
    let Some(lose) = rate_of(lose) else {
        return None;
    };
    let Some(forge) = rate_of(forge) else {
        return None;
    };
    Some(Rates {
        crash,
        damage,
        lose,
        forge,
    })
}

fn runs_of(text: &str) -> Option<u32>
    ensures value { result ≡ number_within 1 10000 text.now }
    ensures most { IfSome result (λ runs. runs ≤ 10000) }
{
    match number_within(1, 10_000, text) {
        Some(number) => Some(number as u32),
        None => None,
    }
}

#[tactic(auto, unfolding(crate::specs::Requests::campaign_of))]
fn campaign_of(state: &str, runs: &str, rates: Option<Rates>) -> Option<Request>
    ensures value { result ≡ campaign_of state.now runs.now rates }
    ensures few { IfSome result IsWithin }
{
    let Some(state) = number_of(state) else {
        return None;
    };
    let Some(runs) = runs_of(runs) else {
        return None;
    };
    match rates {
        Some(rates) => Some(Request::Campaign { state, runs, rates }),
        None => None,
    }
}

#[tactic(auto, unfolding(crate::specs::Requests::mission_of_run))]
fn mission_of_run(state: &str, rates: Option<Rates>) -> Option<Request>
    ensures value { result ≡ mission_of_run state.now rates }
    ensures few { IfSome result IsWithin }
{
    let Some(state) = number_of(state) else {
        return None;
    };
    match rates {
        Some(rates) => Some(Request::Mission { state, rates }),
        None => None,
    }
}

#[tactic(auto, unfolding(crate::specs::Requests::request_with))]
fn request_with(first: &str, second: &str, rates: Option<Rates>) -> Option<Request>
    ensures value { result ≡ request_with first.now second.now rates }
    ensures few { IfSome result IsWithin }
{
    if first == "mission" {
        mission_of_run(second, rates)
    } else {
        campaign_of(first, second, rates)
    }
}

/// What the words ask for: `mission`, a number and the rates of crashes, damages, losses and forgeries, each up to
/// 1,000,000; or a number, how many runs, 1 to 10,000, and the rates. Numbers have one to twenty digits and are below
/// two to the 64th. No other list of words asks for anything.
pub fn read_request(words: &Words) -> Option<Request>
    ensures value { result ≡ request_of words.now.items }
    ensures few { IfSome result IsWithin }
{
    match words.as_slice() {
        [first, second, crash, damage, lose, forge] => request_with(
            first.as_str(),
            second.as_str(),
            rates_of(
                crash.as_str(),
                damage.as_str(),
                lose.as_str(),
                forge.as_str(),
            ),
        ),
        _ => None,
    }
}
