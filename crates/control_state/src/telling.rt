//! What many agreed words tell.
ghost use Rattle.std.specs.Prelude.{◌≡◌, nat_le, count_by, is_none, None};
ghost use Rattle.guards_model.specs.Channels.{has, place_or, tolerated_faults};
ghost use Rattle.guards_model.specs.Diagnosis.{enough_heard as is_heard};
ghost use Rattle.control_state.specs.Telling.{tells_if, is_accused};

use guards_base::{Chan, ChanSet, SourceWord};

// How many disturbed channels this many active ones bear.
fn tolerated(active: ChanSet) -> usize
    ensures { result ≡ tolerated_faults active }
{
    usize::from(active.count().saturating_sub(1) / 3)
}

// The code of a channel.
fn code_at(heard: &[u8; 7], c: Chan) -> u8
    ensures { result ≡ place_or heard.now c 0 }
{
    heard[usize::from(c.index())]
}

// Whether a word that is there accuses a channel.
fn accuses(word: &Option<SourceWord>, c: Chan) -> bool
    ensures { result ≡ tells_if (λ w. has w.accuse c) word.now }
{
    match word {
        None => false,
        Some(word) => word.accuse.has(c),
    }
}

// Whether a word that is there has a code of at least this for a channel.
fn has_code(word: &Option<SourceWord>, code: u8, c: Chan) -> bool
    ensures { result ≡ tells_if (λ w. nat_le code (place_or w.heard c 0)) word.now }
{
    match word {
        None => false,
        Some(word) => code <= code_at(&word.heard, c),
    }
}

// How many of the words accuse a channel.
fn accusing(agreed: &[Option<SourceWord>], c: Chan) -> usize
    ensures { result ≡ count_by (tells_if (λ w. has w.accuse c)) agreed.now }
{
    agreed.iter().filter(|w| accuses(w, c)).count()
}

// How many of the words have a code of at least this for a channel.
fn telling(agreed: &[Option<SourceWord>], code: u8, c: Chan) -> usize
    ensures { result ≡ count_by (tells_if (λ w. nat_le code (place_or w.heard c 0))) agreed.now }
{
    agreed.iter().filter(|w| has_code(w, code, c)).count()
}

/// Whether more agreed words accuse a channel than disturbed channels are tolerated.
pub fn enough_accuse(active: ChanSet, agreed: &[Option<SourceWord>; 7], c: Chan) -> bool
    ensures { result ≡ is_accused active agreed.now c }
{
    tolerated(active) < accusing(agreed, c)
}

/// Whether that many agreed words have a code of at least this for a channel.
pub fn enough_heard(active: ChanSet, agreed: &[Option<SourceWord>; 7], code: u8, c: Chan) -> bool
    ensures { result ≡ is_heard active agreed.now code c }
{
    tolerated(active) < telling(agreed, code, c)
}

/// Whether the agreed word of a channel is missing.
pub fn is_missing(agreed: &[Option<SourceWord>; 7], c: Chan) -> bool
    ensures { result ≡ is_none (place_or agreed.now c None) }
{
    agreed[usize::from(c.index())].is_none()
}
