//! The control word, by which a joining channel is handed its control.
ghost use Rattle.std.specs.Prelude.{◌≡◌, ◌≤◌, All};
ghost use Rattle.guards_model.specs.Controls.{word_of_control, control_of_word};

use crate::control::Control;
use alpha_count::Alpha;
use guards_base::Rules;
use icn_frames::ControlWord;

// The units of each count.
fn units_of(alphas: &[Alpha; 7]) -> [u32; 7]
    ensures { result ≡ alphas.now }
{
    [
        alphas[0].units(),
        alphas[1].units(),
        alphas[2].units(),
        alphas[3].units(),
        alphas[4].units(),
        alphas[5].units(),
        alphas[6].units(),
    ]
}

// The count of so many units.
fn alpha(units: u32) -> Alpha
    requires { units ≤ 16777216 }
    ensures { result ≡ units }
{
    Alpha::of(units).unwrap()
}

// The counts of so many units each.
fn alphas_of(units: &[u32; 7]) -> [Alpha; 7]
    requires { All (λ n. n ≤ 16777216) units.now }
    ensures { result ≡ units.now }
{
    [
        alpha(units[0]),
        alpha(units[1]),
        alpha(units[2]),
        alpha(units[3]),
        alpha(units[4]),
        alpha(units[5]),
        alpha(units[6]),
    ]
}

impl Control {
    /// The alpha-counts in units of 1/65536, a place for each channel.
    pub fn counts(&self) -> [u32; 7]
        ensures { result ≡ self.now.counts }
    {
        units_of(&self.alphas)
    }

    /// The control word of this control, with the law of the rules. The transfer is not in it.
    pub fn word(&self, rules: &Rules) -> ControlWord
        ensures { result ≡ word_of_control rules.now self.now }
    {
        ControlWord {
            law: rules.law,
            active: self.active,
            fresh: self.fresh,
            alphas: units_of(&self.alphas),
        }
    }

    /// The control that a control word carries. No transfer runs in it.
    pub fn from_word(word: &ControlWord) -> Control
        requires { All (λ n. n ≤ 16777216) word.now.counts }
        ensures { result ≡ control_of_word word.now }
    {
        Control {
            active: word.active,
            alphas: alphas_of(&word.alphas),
            fresh: word.fresh,
            transfer: None,
        }
    }
}
