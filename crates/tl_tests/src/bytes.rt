//! The values that the bytes of a block may have after Grants, reports and Puts.

use crate::expect::{holds, same, same_in};
use std::alloc::{AllocError, Global};
use std::process::Abort;
use std::test::Fail;
use tl_beat::beat::{Beat, BeatC};
use tl_beat::opcode::OpC;
use tl_bytes::block_bytes::BlockBytes;
use tl_bytes::carried::CarriedBytes;
use tl_bytes::known_bytes::KnownBytes;
use tl_bytes::read_bytes::ReadBytes;
use tl_bytes::standing::Standing;
use tl_bytes::windows::WritingWindows;
use tl_bytes::write::Write;

/// A block each of whose bytes is this.
fn each(byte: u8) -> KnownBytes {
    KnownBytes::all(&[byte; 64])
}

/// The write of a Put of eight bytes at the start of the block.
fn eight(byte: u8) -> Write {
    Write {
        first: 0,
        mask: 0xff,
        values: each(byte),
    }
}

/// Takes the answer to a Put of eight bytes. `moment` is the number of beats taken before it.
fn put(
    alloc: Global,
    block: &mut BlockBytes,
    byte: u8,
    windows: WritingWindows,
    moment: u64,
) -> Result<(), AllocError> {
    let standing = block.standing(&windows, false);
    *block = block.with(alloc, &eight(byte), standing, moment)?;
    Ok(())
}

/// The windows of an access whose request is complete at this moment, while no link holds its block.
fn opened(asked: u64) -> WritingWindows {
    WritingWindows::new(true, asked, asked)
}

/// The byte at a place may have the values 5, 7 and 9 exactly as these say.
fn may_be(rt: &impl Abort, block: &BlockBytes, place: u8, possible: [bool; 3]) {
    let found = [
        block.may_be(place, 5),
        block.may_be(place, 7),
        block.may_be(place, 9),
    ];
    same_in(rt, &found, &possible, &place);
}

#[test]
fn bytes_that_are_told(rt: HostRuntime) -> Result<(), Fail> {
    let mut block = BlockBytes::new(rt.alloc());
    may_be(&rt, &block, 0, [true, true, true]);
    block = BlockBytes::told(rt.alloc(), &each(9), 4)?;
    may_be(&rt, &block, 0, [false, false, true]);
    may_be(&rt, &block, 63, [false, false, true]);
    block = BlockBytes::told(rt.alloc(), &KnownBytes::none(), 8)?;
    may_be(&rt, &block, 63, [true, true, true]);
    Ok(())
}

#[test]
fn a_put_in_its_only_window(rt: HostRuntime) -> Result<(), Fail> {
    let mut block = BlockBytes::new(rt.alloc());
    put(rt.alloc(), &mut block, 7, opened(1), 1)?;
    may_be(&rt, &block, 7, [false, true, false]);
    may_be(&rt, &block, 8, [true, true, true]);
    Ok(())
}

#[test]
fn of_two_puts_that_overlap_either_came_last(rt: HostRuntime) -> Result<(), Fail> {
    let mut block = BlockBytes::new(rt.alloc());
    put(rt.alloc(), &mut block, 7, opened(2), 2)?;
    put(rt.alloc(), &mut block, 5, opened(1), 3)?;
    may_be(&rt, &block, 0, [true, true, false]);
    Ok(())
}

#[test]
fn of_two_puts_one_after_the_other_the_second_came_last(rt: HostRuntime) -> Result<(), Fail> {
    let mut block = BlockBytes::new(rt.alloc());
    put(rt.alloc(), &mut block, 5, opened(1), 1)?;
    put(rt.alloc(), &mut block, 7, opened(3), 3)?;
    may_be(&rt, &block, 0, [false, true, false]);
    Ok(())
}

#[test]
fn a_put_beside_a_copy(rt: HostRuntime) -> Result<(), Fail> {
    let mut block = BlockBytes::told(rt.alloc(), &each(9), 1)?;
    let windows = opened(3).after(false, 4);
    same(&rt, &block.standing(&windows, false), &Standing::Anywhere);
    put(rt.alloc(), &mut block, 7, windows, 5)?;
    may_be(&rt, &block, 0, [false, true, true]);
    block = BlockBytes::told(rt.alloc(), &each(5), 7)?;
    same(&rt, &block.standing(&windows, false), &Standing::Told);
    put(rt.alloc(), &mut block, 7, windows, 8)?;
    may_be(&rt, &block, 0, [true, false, false]);
    let again = windows.after(true, 9);
    same(&rt, &block.standing(&again, false), &Standing::Anywhere);
    put(rt.alloc(), &mut block, 7, again, 9)?;
    may_be(&rt, &block, 0, [true, true, false]);
    Ok(())
}

/// A read may bring the values 5, 7 and 9 at a place exactly as these say.
fn may_bring(rt: &impl Abort, read: &ReadBytes, place: u8, possible: [bool; 3]) {
    let found = [
        read.may_bring(place, 5),
        read.may_bring(place, 7),
        read.may_bring(place, 9),
    ];
    same_in(rt, &found, &possible, &place);
}

#[test]
fn a_read_beside_a_put(rt: HostRuntime) -> Result<(), Fail> {
    let mut block = BlockBytes::told(rt.alloc(), &each(5), 1)?;
    let mut read = ReadBytes::none(rt.alloc());
    may_bring(&rt, &read, 0, [false, false, false]);
    read.find(&block, &[])?;
    may_bring(&rt, &read, 0, [true, false, false]);
    read.find(&block, &[eight(7)])?;
    may_bring(&rt, &read, 0, [true, true, false]);
    may_bring(&rt, &read, 8, [true, false, false]);
    put(rt.alloc(), &mut block, 7, opened(2), 5)?;
    block = BlockBytes::told(rt.alloc(), &each(9), 9)?;
    read.find(&block, &[])?;
    may_bring(&rt, &read, 0, [true, true, true]);
    may_bring(&rt, &read, 8, [true, false, true]);
    let mut after = ReadBytes::none(rt.alloc());
    after.find(&block, &[])?;
    may_bring(&rt, &after, 0, [false, false, true]);
    Ok(())
}

#[test]
fn a_grant_beside_a_put(rt: HostRuntime) -> Result<(), Fail> {
    let block = BlockBytes::told(rt.alloc(), &each(9), 1)?;
    holds(&rt, block.may_grant(0, 9, &[eight(7)]));
    holds(&rt, block.may_grant(0, 7, &[eight(7)]));
    holds(&rt, !block.may_grant(0, 5, &[eight(7)]));
    holds(&rt, !block.may_grant(8, 7, &[eight(7)]));
    holds(&rt, !block.may_grant(0, 7, &[]));
    Ok(())
}

/// A beat of ReleaseData at a width of 16, each of whose bytes is this.
fn released(byte: u8, corrupt: bool) -> Beat<16> {
    Beat::C(BeatC {
        opcode: OpC::ReleaseData,
        param: 1,
        size: 6,
        source: 0,
        address: 0,
        lanes: Some([byte; 16]),
        corrupt,
    })
}

#[test]
fn bytes_that_are_given_back(rt: HostRuntime) -> Result<(), Fail> {
    let mut carried = CarriedBytes::new();
    for beat in [
        released(5, false),
        released(7, true),
        released(7, false),
        released(9, false),
    ] {
        carried.add(&beat);
    }
    let block = BlockBytes::told(rt.alloc(), carried.bytes(), 3)?;
    may_be(&rt, &block, 15, [true, false, false]);
    may_be(&rt, &block, 16, [true, true, true]);
    may_be(&rt, &block, 32, [false, true, false]);
    may_be(&rt, &block, 63, [false, false, true]);
    Ok(())
}
