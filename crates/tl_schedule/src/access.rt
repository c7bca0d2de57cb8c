//! Reads the accesses in lines.

ghost use Rattle.std.specs.Prelude.{◌≡◌, ◌≤◌, ◌-◌, ◌*◌, ◌^◌, ◌++◌, take, drop, option_map};
ghost use Rattle.tl_beat.specs.statement.Width.{IsWidth};
ghost use Rattle.tl_burst.specs.statement.Burst.{data_beats};
ghost use Rattle.tl_schedule.specs.statement.EventLine.{lanes_of, mask_digits, placed};
ghost use Rattle.tl_schedule.specs.code.EventReading.{arith_at, asked_at, data_request, get_at};
ghost use Rattle.tl_schedule.specs.code.EventReading.{hint_at, logic_at, part_at, put_at, request_of};
ghost use Rattle.tl_schedule.specs.code.FieldReading.{bytes_in, fields_behind, last};

use crate::field::{is_end, last_bytes, number_field};
use crate::name::{Word, arithmetic_field, intent_field, logical_field};
use tl_beat::opcode::OpA;

/// The fields of an access's message, without size and address.
#[derive(Clone, Copy)]
pub(crate) struct Request {
    pub opcode: OpA,
    pub param: u8,
    pub payload: [u8; 64],
    pub mask: u64,
}

/// The number of bytes of an access.
fn bytes_of(size: u8) -> usize
    requires { size ≤ 6 }
    ensures value { result ≡ 2 ^ size }
    ensures room { result ≤ 64 }
{
    1 << size
}

/// The number of beats for the data of an access of `2^size` bytes.
pub fn beats<const W: usize>(size: u8) -> u8
    requires width { IsWidth W }
    requires small { size ≤ 6 }
    ensures value { result ≡ data_beats W size }
    ensures room { W * result ≤ 64 }
{
    let bytes = bytes_of(size);
    if bytes > W { (bytes / W) as u8 } else { 1 }
}

/// A number with this many lowest bits set.
fn ones(count: usize) -> u64
    requires { count ≤ 64 }
    ensures { result ≡ 2 ^ count - 1 }
{
    if count == 64 {
        return u64::MAX;
    }
    (1 << count) - 1
}

/// The mask of the lanes that carry a byte of an access of `2^size` bytes, in this many beats.
pub fn lanes<const W: usize>(size: u8, address: u32, beats: u8) -> u64
    requires width { IsWidth W }
    requires small { size ≤ 6 }
    requires room { W * beats ≤ 64 }
    ensures { result ≡ lanes_of W size address beats }
{
    let bytes = bytes_of(size);
    if bytes < W {
        (ones(bytes) << (address as usize % W)) % (1 << W)
    } else {
        ones(W * beats as usize)
    }
}

/// Writes the first bytes of an access, from lane `at` to before lane `end`.
fn write_lanes(payload: &mut [u8; 64], bytes: &[u8; 64], at: usize, end: usize)
    requires order { at ≤ end }
    requires inside { end ≤ 64 }
    ensures { payload.new ≡ take at payload.old ++ (take (end - at) bytes.now ++ drop end payload.old) }
{
    payload[at..end].copy_from_slice(&bytes[..end - at]);
}

/// The bytes of an access on their lanes.
fn in_lanes<const W: usize>(size: u8, address: u32, bytes: [u8; 64]) -> [u8; 64]
    requires width { IsWidth W }
    requires small { size ≤ 6 }
    ensures { result ≡ placed W size address bytes }
{
    if bytes_of(size) >= W {
        return bytes;
    }
    let mut payload = [0; 64];
    write_lanes(&mut payload, &bytes, address as usize % W, W);
    payload
}

/// A request with data, which are in the last field.
fn with_data<const W: usize>(
    size: u8,
    address: u32,
    opcode: OpA,
    param: u8,
    mask: u64,
    bytes: &[u8],
) -> Option<Request>
    requires width { IsWidth W }
    requires small { size ≤ 6 }
    ensures { result ≡ option_map (data_request W size address opcode param mask)
        (last (bytes_in (2 ^ size)) (fields_behind bytes.now)) }
{
    let data = last_bytes(bytes, bytes_of(size))?;
    let payload = in_lanes::<W>(size, address, data);
    Some(Request {
        opcode,
        param,
        payload,
        mask,
    })
}

fn get<const W: usize>(size: u8, address: u32, bytes: &[u8]) -> Option<Request>
    requires width { IsWidth W }
    requires small { size ≤ 6 }
    ensures { result ≡ option_map (request_of W size address) (get_at (fields_behind bytes.now)) }
{
    if !is_end(bytes) {
        return None;
    }
    Some(Request {
        opcode: OpA::Get,
        param: 0,
        payload: [0; 64],
        mask: lanes::<W>(size, address, 1),
    })
}

fn hint<const W: usize>(size: u8, address: u32, bytes: &[u8]) -> Option<Request>
    requires width { IsWidth W }
    requires small { size ≤ 6 }
    ensures { result ≡ option_map (request_of W size address) (hint_at (fields_behind bytes.now)) }
{
    let (intent, rest) = intent_field(bytes)?;
    if !is_end(rest) {
        return None;
    }
    Some(Request {
        opcode: OpA::Intent,
        param: intent.param(),
        payload: [0; 64],
        mask: lanes::<W>(size, address, 1),
    })
}

fn put_full<const W: usize>(size: u8, address: u32, bytes: &[u8]) -> Option<Request>
    requires width { IsWidth W }
    requires small { size ≤ 6 }
    ensures { result ≡ option_map (request_of W size address) (put_at size (fields_behind bytes.now)) }
{
    let mask = lanes::<W>(size, address, beats::<W>(size));
    with_data::<W>(size, address, OpA::PutFullData, 0, mask, bytes)
}

/// The number of digits of a mask.
fn mask_count<const W: usize>(size: u8) -> u8
    requires width { IsWidth W }
    requires small { size ≤ 6 }
    ensures value { result ≡ mask_digits W size }
    ensures few { result ≤ 16 }
{
    (W / 4) as u8 * beats::<W>(size)
}

fn put_part<const W: usize>(size: u8, address: u32, bytes: &[u8]) -> Option<Request>
    requires width { IsWidth W }
    requires small { size ≤ 6 }
    ensures { result ≡ option_map (request_of W size address) (part_at W size (fields_behind bytes.now)) }
{
    let (mask, rest) = number_field(bytes, mask_count::<W>(size))?;
    with_data::<W>(size, address, OpA::PutPartialData, 0, mask, rest)
}

fn arith<const W: usize>(size: u8, address: u32, bytes: &[u8]) -> Option<Request>
    requires width { IsWidth W }
    requires small { size ≤ 6 }
    ensures { result ≡ option_map (request_of W size address) (arith_at size (fields_behind bytes.now)) }
{
    let (operation, rest) = arithmetic_field(bytes)?;
    let mask = lanes::<W>(size, address, beats::<W>(size));
    with_data::<W>(
        size,
        address,
        OpA::ArithmeticData,
        operation.param(),
        mask,
        rest,
    )
}

fn logic<const W: usize>(size: u8, address: u32, bytes: &[u8]) -> Option<Request>
    requires width { IsWidth W }
    requires small { size ≤ 6 }
    ensures { result ≡ option_map (request_of W size address) (logic_at size (fields_behind bytes.now)) }
{
    let (operation, rest) = logical_field(bytes)?;
    let mask = lanes::<W>(size, address, beats::<W>(size));
    with_data::<W>(
        size,
        address,
        OpA::LogicalData,
        operation.param(),
        mask,
        rest,
    )
}

/// The request that the fields after an access's address spell.
pub(crate) fn asked_request<const W: usize>(
    word: Word,
    size: u8,
    address: u32,
    bytes: &[u8],
) -> Option<Request>
    requires width { IsWidth W }
    requires small { size ≤ 6 }
    ensures { result ≡ option_map (request_of W size address) (asked_at W word size (fields_behind bytes.now)) }
{
    match word {
        Word::Get => get::<W>(size, address, bytes),
        Word::Put => put_full::<W>(size, address, bytes),
        Word::Part => put_part::<W>(size, address, bytes),
        Word::Arith => arith::<W>(size, address, bytes),
        Word::Logic => logic::<W>(size, address, bytes),
        Word::Hint => hint::<W>(size, address, bytes),
        _ => None,
    }
}
