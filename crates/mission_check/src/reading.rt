//! Reads a mission, and tells what it is.
ghost use Rattle.guards_io.specs.Writes.{Writes};
ghost use Rattle.guards_io.specs.Views.{SinkView};
ghost use Rattle.mission_check.specs.Reading.{GivesBytes, ReadsBytes, ReadsMission, RefusesMission, Tells, ChecksBytes, CompletesCheck};
ghost use Rattle.std.specs.Prelude.{List, ℕ};

use crate::check::write_check;
use crate::limit::MAX_MISSION_BYTES;
use crate::lines::{long_line, mission_line, read_line};
use crate::status::Status;
use document_checks::ReadFault;
use guards_base::Bytes;
use guards_io::{ReadStop, Sink, Source, WriteStop, put_line, read_all};
use mission_text::read;
use mission_type::Mission;
use std::alloc::Global;

/// Writes the line of bytes that are no mission.
pub fn refuse_mission<K: Sink>(alloc: Global, out: &mut K, fault: ReadFault) -> Status
    ensures { RefusesMission fault (K.seen out.old) (K.seen out.new) result }
{
    let ReadFault::Bad(why) = fault else {
        return Status::NoMemory;
    };
    match mission_line(alloc, &why) {
        Ok(line) => {
            put_line(out, &line);
            Status::BadMission(why)
        }
        Err(_) => Status::NoMemory,
    }
}

/// Takes the bytes that the source has left, no more than a mission has. Where that fails, it writes the line that says
/// why.
pub fn take_bytes<S: Source, K: Sink>(
    alloc: Global,
    src: &mut S,
    out: &mut K,
) -> Result<Bytes, Status>
    ensures { GivesBytes
        (S.seen src.old) (S.seen src.new) (K.seen out.old) (K.seen out.new) result }
{
    match read_all(alloc, src, MAX_MISSION_BYTES) {
        Ok(bytes) => Ok(bytes),
        Err(ReadStop::Failed) => {
            put_line(out, read_line());
            Err(Status::ReadFault)
        }
        Err(ReadStop::TooLong) => {
            put_line(out, long_line());
            Err(Status::TooLong)
        }
        Err(ReadStop::Memory) => Err(Status::NoMemory),
    }
}

/// Reads the mission that the bytes are. Where they are none, it writes the line that says why.
pub fn read_bytes<K: Sink>(alloc: Global, bytes: &[u8], out: &mut K) -> Result<Mission, Status>
    ensures { ReadsBytes bytes.now (K.seen out.old) (K.seen out.new) result }
{
    match read(alloc, bytes) {
        Ok(mission) => Ok(mission),
        Err(fault) => Err(refuse_mission(alloc, out, fault)),
    }
}

/// Reads the mission that the source gives. Where there is none, it writes the line that says why.
pub fn read_mission<S: Source, K: Sink>(
    alloc: Global,
    src: &mut S,
    out: &mut K,
) -> Result<Mission, Status>
    ensures { ReadsMission
        (S.seen src.old) (S.seen src.new) (K.seen out.old) (K.seen out.new) result }
{
    match take_bytes(alloc, src, out) {
        Ok(bytes) => read_bytes(alloc, bytes.as_slice(), out),
        Err(status) => Err(status),
    }
}

/// The status of a text that was written.
pub fn status_of_write(written: Result<(), WriteStop>) -> Status
    ensures { (text : List ℕ) (old new : SinkView) → Writes old new text written → Tells text old new result }
{
    match written {
        Ok(()) => Status::Done,
        Err(WriteStop::Failed) => Status::WriteFault,
        Err(WriteStop::Memory) => Status::NoMemory,
    }
}

/// Reads a mission and writes what it is: its sizes, the rounds of a cycle, the bound of a join, and each row's
/// expressions.
pub fn check_mission<S: Source, K: Sink>(alloc: Global, src: &mut S, out: &mut K) -> Status
    ensures outcome { ChecksBytes
        (S.seen src.old) (S.seen src.new) (K.seen out.old) (K.seen out.new) result }
    ensures completes { CompletesCheck
        (S.seen src.old) (S.seen src.new) (K.seen out.old) (K.seen out.new) result }
{
    check_read(alloc, src, out)
}

fn check_read<S: Source, K: Sink>(alloc: Global, src: &mut S, out: &mut K) -> Status
    ensures { ChecksBytes
        (S.seen src.old) (S.seen src.new) (K.seen out.old) (K.seen out.new) result }
{
    match read_mission(alloc, src, out) {
        Ok(mission) => status_of_write(write_check(alloc, &mission, out)),
        Err(status) => status,
    }
}
