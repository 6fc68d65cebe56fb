//! Reads a source to its end.
ghost use Rattle.std.specs.Prelude.{◌≡◌, ◌≤◌, ◌<◌, ◌++◌, ◌^◌, ℕ, List, length, IfOk, IsErrOf};
ghost use Rattle.std.specs.Io.KnownBytes.{Consumes, Keeps, IsAtEnd};
ghost use Rattle.guards_io.specs.Causes.{Rose};
ghost use Rattle.guards_io.specs.Stream.{ReadsAll};

use crate::traits::Source;
use guards_base::Bytes;
use std::alloc::{AllocError, Global};

// How many bytes are read at once.
const PIECE: usize = 4096;

/// Why a source was not read to its end.
#[derive(Clone, Copy, Debug, PartialEq, Eq)]
pub enum ReadStop {
    /// The source failed.
    Failed,
    /// One byte more than the limit was taken.
    TooLong,
    Memory,
}

/// Reads one piece to the end of `bytes`: at most `most` bytes, and none only at the end of input.
fn read_piece<S: Source>(src: &mut S, most: usize, bytes: &mut Bytes) -> Result<usize, ReadStop>
    requires { 0 < most }
    ensures read { IfOk result (λ count. (piece : List ℕ) × (length piece ≡ count) × (count ≤ most)
        × (bytes.new.items ≡ bytes.old.items ++ piece) × Consumes (S.seen src.old).left (S.seen src.new).left piece) }
    ensures end { IfOk result (λ count. count ≡ 0 → IsAtEnd (S.seen src.new).left) }
    ensures kept { IfOk result (λ _. (S.seen src.new).faults ≡ (S.seen src.old).faults) }
    ensures failed { IsErrOf result ReadStop.Failed →
        Keeps (S.seen src.old).left (S.seen src.new).left × Rose (S.seen src.old).faults (S.seen src.new).faults }
    ensures long { IsErrOf result ReadStop.TooLong → ⊥ }
    ensures short { IsErrOf result ReadStop.Memory → (piece : List ℕ) × (length piece ≤ most)
        × Consumes (S.seen src.old).left (S.seen src.new).left piece
        × ((S.seen src.new).faults ≡ (S.seen src.old).faults) }
{
    let mut buf = [0; PIECE];
    let room = most.min(PIECE);
    let Ok(count) = src.read(&mut buf[..room]) else {
        return Err(ReadStop::Failed);
    };
    if bytes.append(&buf[..count]).is_err() {
        return Err(ReadStop::Memory);
    }
    Ok(count)
}

/// Reads all that the source has left, where that is no more than so many bytes.
pub fn read_all<S: Source>(alloc: Global, src: &mut S, limit: usize) -> Result<Bytes, ReadStop>
    requires { limit < 2 ^ 32 }
    ensures { ReadsAll limit (S.seen src.old) (S.seen src.new) result }
{
    let mut bytes = Bytes::new(alloc);
    while bytes.len() <= limit {
        let most = limit + 1 - bytes.len();
        if read_piece(src, most, &mut bytes)? == 0 {
            return Ok(bytes);
        }
    }
    Err(ReadStop::TooLong)
}
