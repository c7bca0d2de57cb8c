//! The possible values of a byte, each from a moment on.

ghost use Rattle.std.specs.Prelude.{◌≡◌};
ghost use Rattle.tl_bytes.specs.code.Tellings.{covers_value};
ghost use Rattle.tl_bytes.specs.statement.Bytes as bytes;

/// A possible value of a byte, from a moment on: a value, or any. Moments are numbers of beats.
#[derive(Clone, Copy, Debug, PartialEq, Eq)]
pub struct Telling {
    pub value: Option<u8>,
    pub moment: u64,
}

/// A possible value of the byte at a place of its block.
#[derive(Clone, Copy, Debug, PartialEq, Eq)]
pub struct Told {
    pub place: u8,
    pub telling: Telling,
}

/// A further possible value of the byte at a place: a value, or any.
#[derive(Clone, Copy, Debug, PartialEq, Eq)]
pub struct Possible {
    pub place: u8,
    pub value: Option<u8>,
}

/// Whether two possible values are the same.
pub fn same_value(one: Option<u8>, other: Option<u8>) -> bool
    ensures { result ≡ bytes.same_value one other }
{
    match (one, other) {
        (None, None) => true,
        (Some(one), Some(other)) => one == other,
        _ => false,
    }
}

/// Whether a possible value is this byte, or any.
pub fn could_be(byte: u8, value: Option<u8>) -> bool
    ensures { result ≡ bytes.could_be byte value }
{
    match value {
        None => true,
        Some(value) => value == byte,
    }
}

/// Whether the first possible value allows each byte that the second allows.
pub fn covers(one: Option<u8>, other: Option<u8>) -> bool
    ensures { result ≡ covers_value one other }
{
    match one {
        None => true,
        Some(_) => same_value(one, other),
    }
}
