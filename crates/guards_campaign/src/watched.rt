//! A sink that tells meanwhile how far a campaign is.

use guards_io::{Failed, Sink};
use std::alloc::Global;
use std::io::Write;

/// A sink, and a writer that is told after each piece how many rows of a campaign the sink took: one line, which the
/// next one is written over. A writer that fails is let be.
#[derive(Drop)]
pub struct Watched<K, E> {
    alloc: Global,
    out: K,
    teller: Option<E>,
    runs: u32,
    pieces: u32,
}

/// Tells how many of so many runs have their rows.
fn tell<E: Write>(alloc: Global, teller: &mut E, rows: u32, runs: u32) {
    if let Ok(text) = format!(in alloc; "{rows} of {runs} runs\r") {
        let _ = teller.write(text.as_bytes());
    }
}

impl<K, E> Watched<K, E> {
    /// A sink that tells nothing where there is no teller.
    pub fn new(alloc: Global, out: K, teller: Option<E>, runs: u32) -> Watched<K, E> {
        Watched {
            alloc,
            out,
            teller,
            runs,
            pieces: 0,
        }
    }
}

impl<K: Sink, E: Write> Sink for Watched<K, E> {
    ghost seen = { λ sink. K.seen sink.out };

    fn write(&mut self, piece: &[u8]) -> Result<usize, Failed> {
        let taken = self.out.write(piece)?;
        if let Some(teller) = &mut self.teller {
            if self.pieces > 0 && self.pieces <= self.runs {
                tell(self.alloc, teller, self.pieces, self.runs);
            }
            self.pieces = self.pieces.saturating_add(1);
        }
        Ok(taken)
    }
}
