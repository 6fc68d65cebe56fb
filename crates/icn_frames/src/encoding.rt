//! Writing a frame.

ghost use Rattle.std.specs.Prelude.{◌≡◌, ◌<◌, ◌++◌, ◌∷◌, ◌^◌, true, nat_le, length, IsTrue, IfOk, OnOk};
ghost use Rattle.std.specs.List.{flat_map, list_all};
ghost use Rattle.std.specs.Int.{w16, to_be_bytes};
ghost use Rattle.guards_model.specs.Frames.{u32, i64, counted, optional, packed_codes, source_word_bytes, item_bytes, copy_bytes, names_law, law_bytes, control_bytes, kind, exchange_body, sweep_body, final_body, body_bytes, spelling, in_range};
ghost use Rattle.icn_frames.specs.Bodies.{view_body};
ghost use Rattle.icn_frames.specs.Writes.{IsShort};

use crate::frame::{BlockCopy, Body, ControlWord, Exchange, FinalBody, Frame, Item, SweepBody};
use crate::ranges::labels;
use byteorder::{BigEndian, ByteOrder};
use guards_base::{Ballot, Bytes, Law, SourceWord};
use std::alloc::{AllocError, Global};

#[tactic(auto, unfolding(guards_model::specs::Frames::u32))]
fn put_u32(out: &mut Bytes, number: u32) -> Result<(), AllocError>
    ensures { OnOk result (out.new.items ≡ out.old.items ++ u32 number) }
{
    let mut bytes = [0; 4];
    BigEndian::write_u32(&mut bytes, number);
    out.append(&bytes)
}

#[tactic(auto, unfolding(guards_model::specs::Frames::i64))]
fn put_word(out: &mut Bytes, word: i64) -> Result<(), AllocError>
    ensures { OnOk result (out.new.items ≡ out.old.items ++ i64 word) }
{
    let mut bytes = [0; 8];
    BigEndian::write_i64(&mut bytes, word);
    out.append(&bytes)
}

fn put_words(out: &mut Bytes, words: &[i64]) -> Result<(), AllocError>
    ensures { OnOk result (out.new.items ≡ out.old.items ++ flat_map i64 words.now) }
{
    for word in words {
        put_word(out, *word)?;
    }
    Ok(())
}

/// The codes as one number, with two bits for each channel.
#[tactic(auto, unfolding(guards_model::specs::Frames::packed_codes))]
fn packed(codes: &[u8; 7]) -> u16
    requires { list_all (λ code. nat_le code 2) codes.now ≡ true }
    ensures { result ≡ packed_codes codes.now }
{
    let [a, b, c, d, e, f, g] = *codes;
    u16::from(a)
        + u16::from(b) * 4
        + u16::from(c) * 16
        + u16::from(d) * 64
        + u16::from(e) * 256
        + u16::from(f) * 1024
        + u16::from(g) * 4096
}

fn put_codes(out: &mut Bytes, codes: &[u8; 7]) -> Result<(), AllocError>
    requires { list_all (λ code. nat_le code 2) codes.now ≡ true }
    ensures { OnOk result (out.new.items ≡ out.old.items ++ to_be_bytes w16 (packed_codes codes.now)) }
{
    let mut bytes = [0; 2];
    BigEndian::write_u16(&mut bytes, packed(codes));
    out.append(&bytes)
}

fn put_source_word(out: &mut Bytes, word: &SourceWord) -> Result<(), AllocError>
    ensures { OnOk result (out.new.items ≡ out.old.items ++ source_word_bytes word.now) }
{
    out.push(word.width)?;
    put_words(out, word.in_use())?;
    out.push(word.accuse.mask())?;
    put_codes(out, &word.heard)
}

fn put_item(out: &mut Bytes, item: &Item) -> Result<(), AllocError>
    ensures { OnOk result (out.new.items ≡ out.old.items ++ item_bytes item.now) }
{
    out.append(labels(&item.path))?;
    match &item.word {
        None => out.push(0),
        Some(word) => {
            out.push(1)?;
            put_source_word(out, word)
        }
    }
}

fn put_items(out: &mut Bytes, items: &[Item]) -> Result<(), AllocError>
    requires { length items.now < 2 ^ 8 }
    ensures { OnOk result (out.new.items ≡ out.old.items ++ counted item_bytes items.now) }
{
    out.push(items.len() as u8)?;
    for item in items {
        put_item(out, item)?;
    }
    Ok(())
}

fn put_copy(out: &mut Bytes, copy: &BlockCopy) -> Result<(), AllocError>
    ensures { OnOk result (out.new.items ≡ out.old.items ++ copy_bytes copy.now) }
{
    out.push(copy.block)?;
    put_words(out, &copy.words.words)
}

fn put_copies(out: &mut Bytes, copies: &[BlockCopy]) -> Result<(), AllocError>
    requires { length copies.now < 2 ^ 8 }
    ensures { OnOk result (out.new.items ≡ out.old.items ++ counted copy_bytes copies.now) }
{
    out.push(copies.len() as u8)?;
    for copy in copies {
        put_copy(out, copy)?;
    }
    Ok(())
}

fn put_counts(out: &mut Bytes, counts: &[u32]) -> Result<(), AllocError>
    ensures { OnOk result (out.new.items ≡ out.old.items ++ flat_map u32 counts.now) }
{
    for count in counts {
        put_u32(out, *count)?;
    }
    Ok(())
}

/// From version 2 on the law is named.
fn put_law(out: &mut Bytes, version: u8, law: Law) -> Result<(), AllocError>
    ensures { OnOk result (out.new.items ≡ out.old.items ++ law_bytes (names_law version) law) }
{
    if version < 2 {
        return Ok(());
    }
    match law {
        Law::Multiply => out.push(1),
        Law::Subtract => out.push(2),
    }
}

fn put_control(out: &mut Bytes, version: u8, control: &ControlWord) -> Result<(), AllocError>
    ensures { OnOk result (out.new.items ≡ out.old.items ++ control_bytes version control.now) }
{
    put_law(out, version, control.law)?;
    out.push(control.active.mask())?;
    out.push(control.fresh.mask())?;
    put_counts(out, &control.alphas)
}

fn put_start(out: &mut Bytes, start: Option<u32>) -> Result<(), AllocError>
    ensures { OnOk result (out.new.items ≡ out.old.items ++ optional u32 start) }
{
    match start {
        None => out.push(0),
        Some(start) => {
            out.push(1)?;
            put_u32(out, start)
        }
    }
}

fn put_ballot(out: &mut Bytes, ballot: &Ballot) -> Result<(), AllocError>
    ensures { OnOk result (out.new.items ≡ out.old.items ++ counted i64 ballot.now) }
{
    out.push(ballot.count)?;
    put_words(out, ballot.in_use())
}

fn kind_of(body: &Body) -> u8
    ensures { result ≡ kind (view_body body.now) }
{
    match body {
        Body::Request(_) => 1,
        Body::Exchange(_) => 2,
        Body::Vote(_) => 3,
        Body::Sweep(_) => 4,
        Body::Final(_) => 5,
        Body::Switch(_) => 6,
    }
}

fn put_exchange(out: &mut Bytes, exchange: &Exchange) -> Result<(), AllocError>
    requires { length exchange.now.items < 2 ^ 8 }
    ensures { OnOk result (out.new.items ≡ out.old.items ++ body_bytes 1 (exchange_body exchange.now)) }
{
    out.push(exchange.round)?;
    put_items(out, exchange.items.as_slice())
}

fn put_sweep(out: &mut Bytes, sweep: &SweepBody) -> Result<(), AllocError>
    requires { length sweep.now.copies < 2 ^ 8 }
    ensures { OnOk result (out.new.items ≡ out.old.items ++ body_bytes 1 (sweep_body sweep.now)) }
{
    out.push(sweep.target.index())?;
    put_u32(out, sweep.start)?;
    put_copies(out, sweep.blocks.as_slice())
}

fn put_final(out: &mut Bytes, version: u8, last: &FinalBody) -> Result<(), AllocError>
    requires { length last.now.copies < 2 ^ 8 }
    ensures { OnOk result (out.new.items ≡ out.old.items ++ body_bytes version (final_body last.now)) }
{
    out.push(last.target.index())?;
    put_u32(out, last.start)?;
    put_copies(out, last.blocks.as_slice())?;
    put_control(out, version, &last.control)
}

fn put_body(out: &mut Bytes, version: u8, body: &Body) -> Result<(), AllocError>
    requires { IsShort (view_body body.now) }
    ensures { OnOk result (out.new.items ≡ out.old.items ++ body_bytes version (view_body body.now)) }
{
    match body {
        Body::Request(start) => put_start(out, *start),
        Body::Exchange(exchange) => put_exchange(out, exchange),
        Body::Vote(ballot) => put_ballot(out, ballot),
        Body::Sweep(sweep) => put_sweep(out, sweep),
        Body::Final(last) => put_final(out, version, last),
        Body::Switch(active) => out.push(active.mask()),
    }
}

/// Room that the most frames do with, so that their spelling is not moved while it grows.
const ROOM: usize = 768;

/// The frame's one spelling.
pub fn encode(alloc: Global, frame: &Frame) -> Result<Bytes, AllocError>
    requires { IsTrue (in_range frame.now) }
    ensures { IfOk result (λ bytes. bytes.items ≡ spelling frame.now) }
{
    let mut out = Bytes::new(alloc);
    out.reserve(ROOM)?;
    out.append(&[
        0x47,
        frame.version,
        kind_of(&frame.body),
        frame.sender.index(),
    ])?;
    put_u32(&mut out, frame.cycle)?;
    put_body(&mut out, frame.version, &frame.body)?;
    Ok(out)
}
