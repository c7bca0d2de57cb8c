//! The places of the fields in a beat line, counted from 0.

/// After the link and the channel's letter: the opcode of channels A to D, the sink of channel E.
pub const FIRST_FIELD: usize = 5;

/// The param of channels A to D.
pub const PARAM: usize = 7;

/// The size of channels A to D.
pub const SIZE: usize = 9;

/// The source of channels A to D, of two digits.
pub const SOURCE: usize = 11;

/// The address of channels A to C, of eight digits.
pub const ADDRESS: usize = 14;

/// After the address: the mask of channels A and B, the data of channel C.
pub const BEHIND_ADDRESS: usize = 23;

/// The sink of channel D, of two digits.
pub const SINK: usize = 14;

/// The denied bit of channel D.
pub const DENIED: usize = 17;

/// After the denied bit: the data of channel D.
pub const BEHIND_DENIED: usize = 19;

/// From the end of a line of channels A to D: the space after the data.
pub const DATA_END: usize = 3;

/// From the end of a line of channels A to D: the corrupt bit.
pub const CORRUPT: usize = 2;
