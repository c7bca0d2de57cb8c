//! Reading the line of each channel.

ghost use Rattle.std.specs.Prelude.{◌≡◌, ◌<◌, ◌/◌, ◌^◌, ℕ, List, IfErr, IfOk, IfSome, Ok};
ghost use Rattle.tl_beat.specs.code.FromLeft.{Gives};
ghost use Rattle.tl_wide.specs.code.FromLeft.{head_at, line_a_at, line_b_at, line_c_at, line_d_at, line_e_at};
ghost use Rattle.tl_wide.specs.code.FromLeft.{on_a, on_b, on_c, on_d, placed};
ghost use Rattle.tl_wide.specs.code.Reading.{made_a, made_b, made_c, made_d};
ghost use Rattle.tl_wide.specs.statement.Width.{IsWideWidth};

use crate::beat::{WideBeat, WideBeatA, WideBeatB, WideBeatC, WideBeatD, WideBeatE};
use crate::read::field::{address, id, mask};
use tl_beat::beat::Link;
use tl_beat::fault::LineFault;
use tl_beat::opcode::{OpA, OpB, OpC, OpD};
use tl_beat::read::field::{at_most, bit_field, byte, digits, nibble, tail, value, without_letter};

/// The fields that lines of channels A to D begin with, but for the letter.
#[derive(Clone, Copy)]
pub(crate) struct Head {
    link: u8,
    opcode: u8,
    param: u8,
    size: u8,
    source: u16,
}

/// The first fields of a line, each at its place.
#[inline(always)]
pub(crate) fn spelled_head(bytes: &[u8]) -> Option<(Head, &[u8])>
    ensures { IfSome result (λ head. head_at bytes.now ≡ Ok (head.0, head.1.now)) }
{
    match bytes {
        [
            l1,
            l0,
            b' ',
            _,
            _,
            o,
            b' ',
            p,
            b' ',
            z,
            b' ',
            s3,
            s2,
            s1,
            s0,
            b' ',
            rest @ ..,
        ] => {
            let (l1, l0) = (value(*l1), value(*l0));
            let (s3, s2, s1, s0) = (value(*s3), value(*s2), value(*s1), value(*s0));
            let (opcode, param, size) = (value(*o), value(*p), value(*z));
            let link_is = (l1 < 16) & (l0 < 16);
            let source_is = ((s3 < 16) & (s2 < 16)) & ((s1 < 16) & (s0 < 16));
            let rest_is = (opcode < 16) & (param < 16) & (size < 16);
            if !(link_is & source_is & rest_is) {
                return None;
            }
            let head = Head {
                link: 16 * l1 + l0,
                opcode,
                param,
                size,
                source: 256 * u16::from(16 * s3 + s2) + u16::from(16 * s1 + s0),
            };
            Some((head, rest))
        }
        _ => None,
    }
}

/// The first fields of a line, from left to right.
#[cold]
#[inline(never)]
#[tactic(auto, unfolding(crate::specs::code::FromLeft::head_at))]
pub(crate) fn any_head(bytes: &[u8]) -> Result<(Head, &[u8]), LineFault>
    ensures { Gives result (head_at bytes.now) }
{
    let (link, rest) = byte(bytes)?;
    let (opcode, rest) = nibble(without_letter(rest))?;
    let (param, rest) = nibble(rest)?;
    let (size, rest) = nibble(rest)?;
    let (source, rest) = id(rest)?;
    let head = Head {
        link,
        opcode,
        param,
        size,
        source,
    };
    Ok((head, rest))
}

#[inline(always)]
fn place_a<const W: usize>(
    head: Head,
    address: u64,
    mask: u64,
    tail: (Option<[u8; W]>, bool),
    beat: &mut WideBeat<W>,
) -> Result<Link, LineFault>
    ensures read { placed result beat.new ≡ on_a head.link
        (made_a head.opcode head.param head.size head.source address mask tail.entry.0 tail.entry.1) }
    ensures unchanged { IfErr result (λ _. beat.new ≡ beat.old) }
{
    let opcode = OpA::with_code(head.opcode).ok_or(LineFault::F4)?;
    let param = at_most(head.param, 7)?;
    let (lanes, corrupt) = tail;
    if lanes.is_some() != opcode.carries_data() {
        return Err(LineFault::F6);
    }
    *beat = WideBeat::A(WideBeatA {
        opcode,
        param,
        size: head.size,
        source: head.source,
        address,
        mask,
        lanes,
        corrupt,
    });
    Ok(Link(head.link))
}

#[inline(always)]
fn place_b<const W: usize>(
    head: Head,
    address: u64,
    mask: u64,
    tail: (Option<[u8; W]>, bool),
    beat: &mut WideBeat<W>,
) -> Result<Link, LineFault>
    ensures read { placed result beat.new ≡ on_b head.link
        (made_b head.opcode head.param head.size head.source address mask tail.entry.0 tail.entry.1) }
    ensures unchanged { IfErr result (λ _. beat.new ≡ beat.old) }
{
    let opcode = OpB::with_code(head.opcode).ok_or(LineFault::F4)?;
    let param = at_most(head.param, 7)?;
    let (lanes, corrupt) = tail;
    if lanes.is_some() != opcode.carries_data() {
        return Err(LineFault::F6);
    }
    *beat = WideBeat::B(WideBeatB {
        opcode,
        param,
        size: head.size,
        source: head.source,
        address,
        mask,
        lanes,
        corrupt,
    });
    Ok(Link(head.link))
}

#[inline(always)]
fn place_c<const W: usize>(
    head: Head,
    address: u64,
    tail: (Option<[u8; W]>, bool),
    beat: &mut WideBeat<W>,
) -> Result<Link, LineFault>
    ensures read { placed result beat.new ≡ on_c head.link
        (made_c head.opcode head.param head.size head.source address tail.entry.0 tail.entry.1) }
    ensures unchanged { IfErr result (λ _. beat.new ≡ beat.old) }
{
    let opcode = OpC::with_code(head.opcode).ok_or(LineFault::F4)?;
    let param = at_most(head.param, 7)?;
    let (lanes, corrupt) = tail;
    if lanes.is_some() != opcode.carries_data() {
        return Err(LineFault::F6);
    }
    *beat = WideBeat::C(WideBeatC {
        opcode,
        param,
        size: head.size,
        source: head.source,
        address,
        lanes,
        corrupt,
    });
    Ok(Link(head.link))
}

#[inline(always)]
fn place_d<const W: usize>(
    head: Head,
    sink: u16,
    denied: bool,
    tail: (Option<[u8; W]>, bool),
    beat: &mut WideBeat<W>,
) -> Result<Link, LineFault>
    ensures read { placed result beat.new ≡ on_d head.link
        (made_d head.opcode head.param head.size head.source sink denied tail.entry.0 tail.entry.1) }
    ensures unchanged { IfErr result (λ _. beat.new ≡ beat.old) }
{
    let opcode = OpD::with_code(head.opcode).ok_or(LineFault::F4)?;
    let param = at_most(head.param, 3)?;
    let (lanes, corrupt) = tail;
    if lanes.is_some() != opcode.carries_data() {
        return Err(LineFault::F6);
    }
    *beat = WideBeat::D(WideBeatD {
        opcode,
        param,
        size: head.size,
        source: head.source,
        sink,
        denied,
        lanes,
        corrupt,
    });
    Ok(Link(head.link))
}

/// Reads the line of a beat of channel A, without its line feed, into `beat`, and returns its link.
#[tactic(auto, unfolding(crate::specs::code::FromLeft::line_a_at))]
#[inline(always)]
pub(crate) fn line_a<const W: usize>(
    head: Head,
    rest: &[u8],
    beat: &mut WideBeat<W>,
) -> Result<Link, LineFault>
    requires { IsWideWidth W }
    ensures read { (bytes : List ℕ) → head_at bytes ≡ Ok (head, rest.now) → placed result beat.new ≡ line_a_at bytes }
    ensures unchanged { IfErr result (λ _. beat.new ≡ beat.old) }
{
    let (address, rest) = address(rest)?;
    let (mask, rest) = mask::<W>(rest)?;
    let tail = tail(rest)?;
    place_a(head, address, mask, tail, beat)
}

/// Reads the line of a beat of channel B, without its line feed, into `beat`, and returns its link.
#[tactic(auto, unfolding(crate::specs::code::FromLeft::line_b_at))]
#[inline(always)]
pub(crate) fn line_b<const W: usize>(
    head: Head,
    rest: &[u8],
    beat: &mut WideBeat<W>,
) -> Result<Link, LineFault>
    requires { IsWideWidth W }
    ensures read { (bytes : List ℕ) → head_at bytes ≡ Ok (head, rest.now) → placed result beat.new ≡ line_b_at bytes }
    ensures unchanged { IfErr result (λ _. beat.new ≡ beat.old) }
{
    let (address, rest) = address(rest)?;
    let (mask, rest) = mask::<W>(rest)?;
    let tail = tail(rest)?;
    place_b(head, address, mask, tail, beat)
}

/// Reads the line of a beat of channel C, without its line feed, into `beat`, and returns its link.
#[tactic(auto, unfolding(crate::specs::code::FromLeft::line_c_at))]
#[inline(always)]
pub(crate) fn line_c<const W: usize>(
    head: Head,
    rest: &[u8],
    beat: &mut WideBeat<W>,
) -> Result<Link, LineFault>
    requires { IsWideWidth W }
    ensures read { (bytes : List ℕ) → head_at bytes ≡ Ok (head, rest.now) → placed result beat.new ≡ line_c_at bytes }
    ensures unchanged { IfErr result (λ _. beat.new ≡ beat.old) }
{
    let (address, rest) = address(rest)?;
    let tail = tail(rest)?;
    place_c(head, address, tail, beat)
}

/// Reads the line of a beat of channel D, without its line feed, into `beat`, and returns its link.
#[tactic(auto, unfolding(crate::specs::code::FromLeft::line_d_at))]
#[inline(always)]
pub(crate) fn line_d<const W: usize>(
    head: Head,
    rest: &[u8],
    beat: &mut WideBeat<W>,
) -> Result<Link, LineFault>
    requires { IsWideWidth W }
    ensures read { (bytes : List ℕ) → head_at bytes ≡ Ok (head, rest.now) → placed result beat.new ≡ line_d_at bytes }
    ensures unchanged { IfErr result (λ _. beat.new ≡ beat.old) }
{
    let (sink, rest) = id(rest)?;
    let (denied, rest) = bit_field(rest)?;
    let tail = tail(rest)?;
    place_d(head, sink, denied, tail, beat)
}

/// Reads the line of a beat of channel E, without its line feed, into `beat`, and returns its link.
#[tactic(auto, unfolding(crate::specs::code::FromLeft::line_e_at))]
#[inline(always)]
pub(crate) fn line_e<const W: usize>(
    bytes: &[u8],
    beat: &mut WideBeat<W>,
) -> Result<Link, LineFault>
    ensures read { placed result beat.new ≡ line_e_at bytes.now }
    ensures unchanged { IfErr result (λ _. beat.new ≡ beat.old) }
{
    let (link, rest) = byte(bytes)?;
    let (sink, rest) = digits(without_letter(rest), 4)?;
    if !rest.is_empty() {
        return Err(LineFault::F3);
    }
    *beat = WideBeat::E(WideBeatE { sink: sink as u16 });
    Ok(Link(link))
}
