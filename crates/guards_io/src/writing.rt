//! Writes a text to a sink.
ghost use Rattle.std.specs.Prelude.{OnOk, OnErr};
ghost use Rattle.std.specs.Io.KnownBytes.{Appends};
ghost use Rattle.guards_io.specs.Causes.{HasCause};
ghost use Rattle.guards_io.specs.Writes.{AppendsPart, Puts, WritesLine};

use crate::{Failed, Sink};

/// Why a text was not written to its end.
#[derive(Clone, Copy, Debug, PartialEq, Eq)]
pub enum WriteStop {
    /// The sink failed.
    Failed,
    Memory,
}

/// Hands the piece to the sink, and what was not taken of it again.
pub fn write_all<K: Sink>(out: &mut K, piece: &[u8]) -> Result<(), Failed>
    ensures written { OnOk result (Appends (K.seen out.old).written (K.seen out.new).written piece.now) }
    ensures part { OnErr result (AppendsPart (K.seen out.old).written (K.seen out.new).written piece.now) }
    ensures cause { HasCause (K.seen out.old).faults (K.seen out.new).faults result }
{
    let mut rest = piece;
    while !rest.is_empty() {
        let count = out.write(rest)?;
        (_, rest) = rest.split_at(count);
    }
    Ok(())
}

/// Writes one part. A part without bytes is not given.
pub fn put<K: Sink>(out: &mut K, part: &str) -> Result<(), WriteStop>
    ensures { Puts (K.seen out.old) (K.seen out.new) part.now result }
{
    match write_all(out, part.as_bytes()) {
        Ok(()) => Ok(()),
        Err(_) => Err(WriteStop::Failed),
    }
}

/// Writes a line that ends a call, as far as the sink takes it.
pub fn put_line<K: Sink>(out: &mut K, line: &str)
    ensures { WritesLine (K.seen out.old) (K.seen out.new) line.now }
{
    let _ = write_all(out, line.as_bytes());
}
