//! Reads the fields of a line: the parts between its spaces.

ghost use Rattle.std.specs.Prelude.{◌≡◌, ◌==◌, ◌<◌, ◌≤◌, ◌*◌, ◌^◌, ◌∷◌, ℕ, []};
ghost use Rattle.std.specs.Prelude.{IfSome, MatchOption, option_map, position};
ghost use Rattle.tl_beat.specs.statement.Line.{pieces};
ghost use Rattle.tl_client.specs.statement.Offer.{padded};
ghost use Rattle.tl_params.specs.code.HeaderReading.{Gives as GivesRest};
ghost use Rattle.tl_beat.specs.code.FromLeft.{digit_of};
ghost use Rattle.tl_schedule.specs.code.FieldReading.{Gives, bytes_in, fields_behind, front, hex_at};
ghost use Rattle.tl_schedule.specs.code.FieldReading.{is_none_left, last, number_in, pair_at, size_in};

/// The value of a hexadecimal digit, lower-case.
#[inline(always)]
fn hex(byte: u8) -> Option<u8>
    ensures value { result ≡ digit_of byte }
    ensures small { IfSome result (λ d. d < 16) }
{
    match byte {
        b'0'..=b'9' => Some(byte - b'0'),
        b'a'..=b'f' => Some(byte - 87),
        _ => None,
    }
}

/// The number that a field with this many digits spells.
#[inline(always)]
pub fn number(field: &[u8], count: u8) -> Option<u64>
    requires { count ≤ 16 }
    ensures value { result ≡ number_in 0 count field.now }
    ensures below { IfSome result (λ n. n < 16 ^ count) }
{
    if field.len() != usize::from(count) {
        return None;
    }
    let mut number = 0u64;
    for i in 0..field.len() {
        number = 16 * number + u64::from(hex(field[i])?);
    }
    Some(number)
}

/// The size, up to a limit, that a field with one digit spells.
#[inline(always)]
pub fn size_of(field: &[u8], limit: u8) -> Option<u8>
    ensures value { result ≡ size_in limit field.now }
    ensures within { IfSome result (λ size. size ≤ limit) }
{
    let size = number(field, 1)? as u8;
    if size > limit {
        return None;
    }
    Some(size)
}

/// The byte of the two digits at the front, and the bytes after them.
fn pair(bytes: &[u8]) -> Option<(u8, &[u8])>
    ensures { GivesRest result (pair_at bytes.now) }
{
    match bytes {
        [high, low, rest @ ..] => {
            let high = hex(*high)?;
            let low = hex(*low)?;
            Some((16 * high + low, rest))
        }
        _ => None,
    }
}

/// The bytes that a field with this many pairs of digits spells, the last byte first, then zeros.
pub fn data(field: &[u8], count: usize) -> Option<[u8; 64]>
    requires { count ≤ 64 }
    ensures { result ≡ option_map padded (bytes_in count field.now) }
{
    let mut bytes = [0u8; 64];
    let mut rest = field;
    for i in 0..count {
        let (byte, after) = pair(rest)?;
        bytes[count - 1 - i] = byte;
        rest = after;
    }
    if !rest.is_empty() {
        return None;
    }
    Some(bytes)
}

fn first_space(bytes: &[u8]) -> Option<usize>
    ensures { result ≡ position (λ b. b == 32) bytes.now }
{
    bytes.iter().position(|b| *b == b' ')
}

/// The first field, and the bytes from the next space on.
pub fn cut(bytes: &[u8]) -> (&[u8], &[u8])
    ensures { pieces bytes.now ≡ result.0.now ∷ fields_behind result.1.now }
{
    match first_space(bytes) {
        None => (bytes, &[]),
        Some(i) => bytes.split_at(i),
    }
}

/// The next field, after a space, and the bytes after it.
pub fn next(bytes: &[u8]) -> Option<(&[u8], &[u8])>
    ensures { MatchOption result (fields_behind bytes.now ≡ []) (λ x. fields_behind bytes.now
        ≡ x.0.now ∷ fields_behind x.1.now) }
{
    match bytes {
        [] => None,
        [_, rest @ ..] => Some(cut(rest)),
    }
}

/// Whether no field is left.
pub fn is_end(bytes: &[u8]) -> bool
    ensures { result ≡ is_none_left (fields_behind bytes.now) }
{
    bytes.is_empty()
}

/// A number of this many digits in the next field.
pub fn number_field(bytes: &[u8], count: u8) -> Option<(u64, &[u8])>
    requires { count ≤ 16 }
    ensures gives { Gives result (front (number_in 0 count) (fields_behind bytes.now)) }
    ensures below { IfSome result (λ x. x.0 < 16 ^ count) }
{
    let (field, rest) = next(bytes)?;
    let number = number(field, count)?;
    Some((number, rest))
}

/// A size up to a limit in the next field.
pub fn size_field(bytes: &[u8], limit: u8) -> Option<(u8, &[u8])>
    ensures gives { Gives result (front (size_in limit) (fields_behind bytes.now)) }
    ensures within { IfSome result (λ x. x.0 ≤ limit) }
{
    let (field, rest) = next(bytes)?;
    let size = size_of(field, limit)?;
    Some((size, rest))
}

/// An address in the next field.
pub fn address_field(bytes: &[u8]) -> Option<(u32, &[u8])>
    ensures { Gives result (front (number_in 0 8) (fields_behind bytes.now)) }
{
    let (address, rest) = number_field(bytes, 8)?;
    Some((address as u32, rest))
}

/// A block in the next field.
pub fn block_field(bytes: &[u8]) -> Option<(u16, &[u8])>
    ensures { Gives result (front (number_in 0 3) (fields_behind bytes.now)) }
{
    let (block, rest) = number_field(bytes, 3)?;
    Some((block as u16, rest))
}

/// This many bytes in the last field, then zeros.
pub fn last_bytes(bytes: &[u8], count: usize) -> Option<[u8; 64]>
    requires { count ≤ 64 }
    ensures { result ≡ option_map padded (last (bytes_in count) (fields_behind bytes.now)) }
{
    let (field, rest) = next(bytes)?;
    if !is_end(rest) {
        return None;
    }
    data(field, count)
}
