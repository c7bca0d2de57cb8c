//! The text of a wide beat, built from digits, lanes and bits.

ghost use Rattle.std.specs.Prelude.{◌≡◌, ◌<◌, ◌≤◌, ◌+◌, ◌-◌, ◌*◌, ◌/◌, ◌%◌, ◌++◌, ◌∷◌, [], length};
ghost use Rattle.tl_beat.specs.statement.Digits.{bit_text, digits, lane_digits, lanes_text};
ghost use Rattle.tl_wide.specs.statement.Width.{IsWideWidth};

use arrayvec::ArrayVec;
use tl_beat::lanes::sixteen_digits;
use tl_beat::text::{append_data, append_digits};

/// Appends the lowest `count` hexadecimal digits of a number, from the highest on.
pub fn append_long(text: &mut ArrayVec<u8, 64>, number: u64, count: u8)
    requires count { count ≤ 16 }
    requires room { length text.old.items + count ≤ 64 }
    ensures text { text.new.items ≡ text.old.items ++ digits count number }
    ensures len { length text.new.items ≡ length text.old.items + count }
{
    let (high, low) = ((number >> 32) as u32, (number % (1 << 32)) as u32);
    if count <= 8 {
        append_digits(text, low, count);
        return;
    }
    append_digits(text, high, count - 8);
    append_digits(text, low, 8);
}

/// Appends the digits of lanes, eight at a time, the last lane first.
fn append_eights(line: &mut ArrayVec<u8, 192>, lanes: &[u8])
    requires eights { length lanes.now % 8 ≡ 0 }
    requires room { length line.old.items + 2 * length lanes.now ≤ 192 }
    ensures text { line.new.items ≡ line.old.items ++ lane_digits lanes.now }
    ensures len { length line.new.items ≡ length line.old.items + 2 * length lanes.now }
{
    let count = lanes.len() / 8;
    for i in 0..count {
        let at = 8 * (count - 1 - i);
        let _ = line.try_extend_from_slice(&sixteen_digits(&lanes[at..at + 8]));
    }
}

/// Appends the data of a wide beat: the digits of its lanes, the last lane first, or a dash.
pub fn append_wide_data<const W: usize>(line: &mut ArrayVec<u8, 192>, lanes: &Option<[u8; W]>)
    requires width { IsWideWidth W }
    requires room { length line.old.items ≤ 62 }
    ensures text { line.new.items ≡ line.old.items ++ lanes_text lanes.now }
    ensures len { length line.new.items ≤ length line.old.items + 128 }
{
    match lanes {
        None => line.push(b'-'),
        Some(bytes) => {
            if W == 4 {
                let mut few = ArrayVec::new();
                append_data(&mut few, lanes);
                let _ = line.try_extend_from_slice(few.as_slice());
            } else {
                append_eights(line, bytes);
            }
        }
    }
}
