//! Writes a beat line as a readable line. The digits are those of the beat line.

ghost use Rattle.std.specs.Prelude.{◌≡◌, ◌+◌, ◌-◌, ◌*◌, ◌/◌, ◌<◌, ◌≤◌, ◌++◌, [], ◌∷◌, length, take, OnOk};
ghost use Rattle.std.specs.Prelude.{option_map, unwrap_or};
ghost use Rattle.tl_beat.specs.declared.beat.Link.{Link};
ghost use Rattle.tl_beat.specs.statement.Line.{Spells};
ghost use Rattle.tl_beat.specs.statement.Width.{IsWidth};
ghost use Rattle.tl_explain.specs.statement.Text.{text_of};
ghost use Rattle.tl_explain.specs.code.Cuts.{HasData, IsShort, acknowledgement_text, address_text, head_text, part};
ghost use Rattle.tl_explain.specs.code.Cuts.{release_text, request_text, response_text, sink_text, size_and_source};
ghost use Rattle.tl_explain.specs.code.Cuts.{tail_text};

use crate::columns::{
    ADDRESS, BEHIND_ADDRESS, BEHIND_DENIED, CORRUPT, DATA_END, DENIED, FIRST_FIELD, PARAM, SINK,
    SIZE, SOURCE,
};
use crate::params::{name_on_a, name_on_b, name_on_c, name_on_d};
use std::alloc::AllocError;
use tl_beat::beat::Beat;

/// Room for a readable line, at least.
const ROOM: usize = 128;

/// The `K` bytes from a place on.
#[inline(always)]
fn bytes_at<const K: usize>(bytes: &[u8], at: usize) -> [u8; K]
    requires { at + K ≤ length bytes.now }
    ensures { result ≡ part bytes.now at K }
{
    let mut chunk = [0; K];
    chunk.copy_from_slice(&bytes[at..at + K]);
    chunk
}

/// Writes bytes at a place, and returns the place after them. It takes an array, since a copy between slices first
/// tests whether they overlap.
#[inline(always)]
fn put<const K: usize>(room: &mut [u8], at: usize, bytes: [u8; K]) -> usize
    requires room { at + K ≤ length room.old }
    ensures text { take result room.new ≡ take at room.old ++ bytes.entry }
    ensures end { result ≡ at + K }
    ensures len { length room.new ≡ length room.old }
{
    room[at..at + K].copy_from_slice(&bytes);
    at + K
}

/// Writes `K` to `2 * K` bytes by their first `K` and last `K`, which are copied without a call.
#[inline(always)]
fn put_halves<const K: usize>(room: &mut [u8], at: usize, bytes: &[u8]) -> usize
    requires halves { (K ≤ length bytes.now) × (length bytes.now ≤ 2 * K) }
    requires room { at + length bytes.now ≤ length room.old }
    ensures text { take result room.new ≡ take at room.old ++ bytes.now }
    ensures end { result ≡ at + length bytes.now }
    ensures len { length room.new ≡ length room.old }
{
    let back = bytes.len() - K;
    let first = bytes_at::<K>(bytes, 0);
    let last = bytes_at::<K>(bytes, back);
    put(room, at, first);
    put(room, at + back, last)
}

/// Writes a name by its two halves.
#[inline(always)]
fn put_name(room: &mut [u8], at: usize, name: &str) -> usize
    requires name { (2 ≤ length name.now) × (length name.now ≤ 16) }
    requires room { at + length name.now ≤ length room.old }
    ensures text { take result room.new ≡ take at room.old ++ name.now }
    ensures end { result ≡ at + length name.now }
    ensures len { length room.new ≡ length room.old }
{
    let bytes = name.as_bytes();
    if bytes.len() < 4 {
        put_halves::<2>(room, at, bytes)
    } else if bytes.len() < 8 {
        put_halves::<4>(room, at, bytes)
    } else {
        put_halves::<8>(room, at, bytes)
    }
}

/// Writes a param by its name, or by its digit if it has none.
#[inline(always)]
fn put_param(room: &mut [u8], at: usize, digit: u8, param: Option<&str>) -> usize
    requires param { IsShort (option_map (λ s. s.now) param) }
    requires room { at + 13 ≤ length room.old }
    ensures text { take result room.new
        ≡ take at room.old ++ unwrap_or (option_map (λ s. s.now) param.entry) (digit ∷ []) }
    ensures end { result ≤ at + 13 }
    ensures len { length room.new ≡ length room.old }
{
    match param {
        Some(name) => put_name(room, at, name),
        None => put(room, at, [digit]),
    }
}

/// Writes link and channel. Eight bytes are copied at once, so some after them are copied too.
#[inline(always)]
fn put_front(room: &mut [u8], line: &[u8]) -> usize
    requires line { FIRST_FIELD + 3 ≤ length line.now }
    requires room { 8 ≤ length room.old }
    ensures text { take result room.new ≡ take FIRST_FIELD line.now }
    ensures end { result ≡ FIRST_FIELD }
    ensures len { length room.new ≡ length room.old }
{
    put(room, 0, bytes_at::<8>(line, 0));
    FIRST_FIELD
}

/// Writes link, channel and name.
#[inline(always)]
#[tactic(auto, unfolding(crate::specs::code::Cuts::head_text))]
fn put_head(room: &mut [u8], line: &[u8], name: &str) -> usize
    requires line { FIRST_FIELD + 3 ≤ length line.now }
    requires name { (2 ≤ length name.now) × (length name.now ≤ 14) }
    requires room { length room.old ≡ ROOM }
    ensures text { take result room.new ≡ head_text line.now name.now }
    ensures end { result ≤ 20 }
    ensures len { length room.new ≡ ROOM }
{
    let at = put_front(room, line);
    let at = put_name(room, at, name);
    put(room, at, [b' '])
}

/// Writes size and source of a line of channels A to D.
#[inline(always)]
#[tactic(auto, unfolding(crate::specs::code::Cuts::size_and_source))]
fn put_size_and_source(room: &mut [u8], at: usize, line: &[u8]) -> usize
    requires line { SOURCE + 2 ≤ length line.now }
    requires room { at + 17 ≤ length room.old }
    ensures text { take result room.new ≡ take at room.old ++ size_and_source line.now }
    ensures end { result ≡ at + 17 }
    ensures len { length room.new ≡ length room.old }
{
    let at = put(room, at, *b" size=");
    let at = put(room, at, bytes_at::<1>(line, SIZE));
    let at = put(room, at, *b" source=");
    put(room, at, bytes_at::<2>(line, SOURCE))
}

/// Writes size, source and address of a line of channels A to C.
#[inline(always)]
#[tactic(auto, unfolding(crate::specs::code::Cuts::address_text))]
fn put_address(room: &mut [u8], at: usize, line: &[u8]) -> usize
    requires line { ADDRESS + 8 ≤ length line.now }
    requires room { at + 34 ≤ length room.old }
    ensures text { take result room.new ≡ take at room.old ++ address_text line.now }
    ensures end { result ≡ at + 34 }
    ensures len { length room.new ≡ length room.old }
{
    let at = put_size_and_source(room, at, line);
    let at = put(room, at, *b" address=");
    put(room, at, bytes_at::<8>(line, ADDRESS))
}

/// Writes size, source, sink and denied of a line of channel D.
#[inline(always)]
#[tactic(auto, unfolding(crate::specs::code::Cuts::sink_text))]
fn put_sink(room: &mut [u8], at: usize, line: &[u8]) -> usize
    requires line { DENIED < length line.now }
    requires room { at + 34 ≤ length room.old }
    ensures text { take result room.new ≡ take at room.old ++ sink_text line.now }
    ensures end { result ≡ at + 34 }
    ensures len { length room.new ≡ length room.old }
{
    let at = put_size_and_source(room, at, line);
    let at = put(room, at, *b" sink=");
    let at = put(room, at, bytes_at::<2>(line, SINK));
    let at = put(room, at, *b" denied=");
    put(room, at, bytes_at::<1>(line, DENIED))
}

/// Writes the data, or the dash if there are none. The compiler knows their number, and copies them without a call.
#[inline(always)]
fn put_data<const W: usize>(room: &mut [u8], at: usize, bytes: &[u8]) -> usize
    requires width { IsWidth W }
    requires bytes { HasData W (length bytes.now) }
    requires room { at + length bytes.now ≤ length room.old }
    ensures text { take result room.new ≡ take at room.old ++ bytes.now }
    ensures end { result ≡ at + length bytes.now }
    ensures len { length room.new ≡ length room.old }
{
    if bytes.len() == 1 {
        return put(room, at, bytes_at::<1>(bytes, 0));
    }
    put_halves::<W>(room, at, &bytes[..2 * W])
}

/// Writes data and the corrupt bit.
#[inline(always)]
#[tactic(auto, unfolding(crate::specs::code::Cuts::tail_text))]
fn put_tail<const W: usize>(room: &mut [u8], at: usize, tail: &[u8]) -> usize
    requires width { IsWidth W }
    requires tail { HasData W (length tail.now - DATA_END) }
    requires room { at + 49 ≤ length room.old }
    ensures text { take result room.new ≡ take at room.old ++ tail_text tail.now }
    ensures end { result ≤ at + 49 }
    ensures len { length room.new ≡ length room.old }
{
    let at = put(room, at, *b" data=");
    let at = put_data::<W>(room, at, &tail[..tail.len() - DATA_END]);
    let at = put(room, at, *b" corrupt=");
    put(room, at, bytes_at::<CORRUPT>(tail, tail.len() - CORRUPT))
}

/// Writes the digits of the mask. The compiler knows their number.
#[inline(always)]
fn put_mask<const W: usize>(room: &mut [u8], at: usize, line: &[u8]) -> usize
    requires width { IsWidth W }
    requires line { BEHIND_ADDRESS + W / 4 ≤ length line.now }
    requires room { at + 4 ≤ length room.old }
    ensures text { take result room.new ≡ take at room.old ++ part line.now BEHIND_ADDRESS (W / 4) }
    ensures end { result ≡ at + W / 4 }
    ensures len { length room.new ≡ length room.old }
{
    if W == 4 {
        put(room, at, bytes_at::<1>(line, BEHIND_ADDRESS))
    } else if W == 8 {
        put(room, at, bytes_at::<2>(line, BEHIND_ADDRESS))
    } else {
        put(room, at, bytes_at::<4>(line, BEHIND_ADDRESS))
    }
}

/// Writes the fields after the name in a line of channels A and B.
#[inline(always)]
#[tactic(auto, unfolding(crate::specs::code::Cuts::request_text))]
fn put_request<const W: usize>(
    room: &mut [u8],
    at: usize,
    line: &[u8],
    param: Option<&str>,
) -> usize
    requires width { IsWidth W }
    requires line { HasData W (length line.now - (BEHIND_ADDRESS + W / 4 + 1 + DATA_END)) }
    requires param { IsShort (option_map (λ s. s.now) param) }
    requires room { (at ≤ 20) × (length room.old ≡ ROOM) }
    ensures text { take result room.new
        ≡ request_text (W / 4) line.now (take at room.old) (option_map (λ s. s.now) param.entry) }
    ensures end { result ≤ ROOM }
    ensures len { length room.new ≡ ROOM }
{
    let at = put_param(room, at, line[PARAM], param);
    let at = put_address(room, at, line);
    let at = put(room, at, *b" mask=");
    let at = put_mask::<W>(room, at, line);
    put_tail::<W>(room, at, &line[BEHIND_ADDRESS + W / 4 + 1..])
}

/// Writes the fields after the name in a line of channel C.
#[inline(always)]
#[tactic(auto, unfolding(crate::specs::code::Cuts::release_text))]
fn put_release<const W: usize>(
    room: &mut [u8],
    at: usize,
    line: &[u8],
    param: Option<&str>,
) -> usize
    requires width { IsWidth W }
    requires line { HasData W (length line.now - (BEHIND_ADDRESS + DATA_END)) }
    requires param { IsShort (option_map (λ s. s.now) param) }
    requires room { (at ≤ 20) × (length room.old ≡ ROOM) }
    ensures text { take result room.new
        ≡ release_text line.now (take at room.old) (option_map (λ s. s.now) param.entry) }
    ensures end { result ≤ ROOM }
    ensures len { length room.new ≡ ROOM }
{
    let at = put_param(room, at, line[PARAM], param);
    let at = put_address(room, at, line);
    put_tail::<W>(room, at, &line[BEHIND_ADDRESS..])
}

/// Writes the fields after the name in a line of channel D.
#[inline(always)]
#[tactic(auto, unfolding(crate::specs::code::Cuts::response_text))]
fn put_response<const W: usize>(
    room: &mut [u8],
    at: usize,
    line: &[u8],
    param: Option<&str>,
) -> usize
    requires width { IsWidth W }
    requires line { HasData W (length line.now - (BEHIND_DENIED + DATA_END)) }
    requires param { IsShort (option_map (λ s. s.now) param) }
    requires room { (at ≤ 20) × (length room.old ≡ ROOM) }
    ensures text { take result room.new
        ≡ response_text line.now (take at room.old) (option_map (λ s. s.now) param.entry) }
    ensures end { result ≤ ROOM }
    ensures len { length room.new ≡ ROOM }
{
    let at = put_param(room, at, line[PARAM], param);
    let at = put_sink(room, at, line);
    put_tail::<W>(room, at, &line[BEHIND_DENIED..])
}

/// Writes a line of channel E.
#[inline(always)]
#[tactic(auto, unfolding(crate::specs::code::Cuts::acknowledgement_text))]
fn put_acknowledgement(room: &mut [u8], line: &[u8]) -> usize
    requires line { FIRST_FIELD + 3 ≤ length line.now }
    requires room { length room.old ≡ ROOM }
    ensures text { take result room.new ≡ acknowledgement_text line.now }
    ensures end { result ≤ ROOM }
    ensures len { length room.new ≡ ROOM }
{
    let at = put_front(room, line);
    let at = put(room, at, *b"GrantAck sink=");
    put(room, at, bytes_at::<3>(line, FIRST_FIELD))
}

/// Writes the readable line of the beat that a line spells, and returns its length.
#[inline(always)]
fn put_beat<const W: usize>(room: &mut [u8], line: &[u8], beat: &Beat<W>) -> usize
    requires width { IsWidth W }
    requires spelled { (link : Link) × Spells line.now link beat.now }
    requires room { length room.old ≡ ROOM }
    ensures text { (link : Link) → Spells line.now link beat.now → take result room.new ≡ text_of link beat.now }
    ensures end { result ≤ ROOM }
    ensures len { length room.new ≡ ROOM }
{
    match beat {
        Beat::A(beat) => {
            let at = put_head(room, line, beat.opcode.name());
            let param = name_on_a(beat.opcode, beat.param);
            put_request::<W>(room, at, line, param)
        }
        Beat::B(beat) => {
            let at = put_head(room, line, beat.opcode.name());
            let param = name_on_b(beat.opcode, beat.param);
            put_request::<W>(room, at, line, param)
        }
        Beat::C(beat) => {
            let at = put_head(room, line, beat.opcode.name());
            let param = name_on_c(beat.opcode, beat.param);
            put_release::<W>(room, at, line, param)
        }
        Beat::D(beat) => {
            let at = put_head(room, line, beat.opcode.name());
            let param = name_on_d(beat.opcode, beat.param);
            put_response::<W>(room, at, line, param)
        }
        Beat::E(_) => put_acknowledgement(room, line),
    }
}

/// Appends the readable line of the beat that a line spells.
#[inline(always)]
pub fn append_text<const W: usize>(
    line: &[u8],
    beat: &Beat<W>,
    out: &mut Vec<u8>,
) -> Result<(), AllocError>
    requires width { IsWidth W }
    requires spelled { (link : Link) × Spells line.now link beat.now }
    ensures { OnOk result ((link : Link) → Spells line.now link beat.now →
        out.new.items ≡ out.old.items ++ text_of link beat.now) }
{
    let start = out.len();
    out.extend_from_slice(&[0; ROOM])?;
    let len = put_beat(&mut out[start..], line, beat);
    out.truncate(start + len);
    Ok(())
}
