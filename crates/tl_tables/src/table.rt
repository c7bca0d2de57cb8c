//! The tables of a link, and the rows whose bins are one after another.

ghost use Rattle.std.specs.Prelude.{◌≡◌, ◌<◌, ◌≤◌, length, map};
ghost use Rattle.tl_tables.specs.code.Walk;

use tl_beat::opcode::{OpA, OpD};
use tl_cover::message::MessageKind;
use tl_cover::situation::{Bytes, Depth, Situation, Wait};

/// A table of a link.
#[derive(Clone, Copy)]
pub enum Table {
    /// The messages, by opcode, param and bytes.
    Messages,
    /// The messages that change a permission, by the one that was held before.
    Permissions,
    /// How long Probes waited.
    Waits,
    /// The accesses, by bytes and alignment.
    Alignments,
    /// How many messages of a kind were pending.
    Depths,
}

/// The bins of a row, one after another in the order of the bins: the columns before the first, and their number.
#[derive(Clone, Copy)]
pub struct Run {
    pub before: u8,
    pub bins: u8,
}

impl Table {
    /// The word at the front of its first line.
    pub fn title(self) -> &'static str
        ensures { result.now ≡ (Walk.table_of self).title }
    {
        match self {
            Table::Messages => "messages",
            Table::Permissions => "permissions",
            Table::Waits => "waits",
            Table::Alignments => "alignments",
            Table::Depths => "pending",
        }
    }

    /// The heads of its columns.
    pub fn columns(self) -> &'static [&'static str]
        ensures { map (λ s. s.now) result.now ≡ (Walk.table_of self).columns }
    {
        match self {
            Table::Messages | Table::Alignments => &["1", "2", "4", "8", "16", "32", "64"],
            Table::Permissions => &["None", "Branch", "Trunk"],
            Table::Depths => &["1", "2", "3-4", "5-8", "9-16", "17-up"],
            Table::Waits => &[
                "0", "1", "2-3", "4-7", "8-15", "16-31", "32-63", "64-127", "128-up",
            ],
        }
    }

    /// The number of its columns.
    pub fn width(self) -> u8
        ensures { result ≡ Walk.columns self }
    {
        match self {
            Table::Messages | Table::Alignments => 7,
            Table::Permissions => 3,
            Table::Depths => 6,
            Table::Waits => 9,
        }
    }

    /// The row that begins with a bin, if it begins one in this table.
    pub fn run_of(self, bin: Situation) -> Option<Run>
        ensures { result ≡ Walk.run_of self bin }
    {
        match (self, bin) {
            (Table::Messages, Situation::Sent(kind)) => messages(kind),
            (Table::Waits, Situation::Waited(Wait::None)) => Some(Run { before: 0, bins: 9 }),
            (Table::Alignments, Situation::Aligned(bytes, many)) => alignments(bytes, many),
            (Table::Depths, Situation::Among(_, Depth::One)) => Some(Run { before: 0, bins: 6 }),
            _ => None,
        }
    }
}

/// The row of messages that begins with this kind, if one does.
fn messages(kind: MessageKind) -> Option<Run>
    ensures { result ≡ Walk.messages kind }
{
    match kind {
        MessageKind::A(_, _, Bytes::One) | MessageKind::D(_, _, Bytes::One) => {
            Some(Run { before: 0, bins: 7 })
        }
        MessageKind::A(OpA::ArithmeticData | OpA::LogicalData, _, Bytes::Four) => {
            Some(Run { before: 2, bins: 2 })
        }
        MessageKind::A(OpA::AcquireBlock | OpA::AcquirePerm, ..)
        | MessageKind::B(..)
        | MessageKind::C(..)
        | MessageKind::D(OpD::Grant | OpD::GrantData | OpD::ReleaseAck, ..)
        | MessageKind::E => Some(Run { before: 6, bins: 1 }),
        _ => None,
    }
}

/// The column of a number of bytes.
fn column_of(bytes: Bytes) -> u8
    ensures is { result ≡ Walk.column_of bytes }
    ensures within { result < 7 }
{
    match bytes {
        Bytes::One => 0,
        Bytes::Two => 1,
        Bytes::Four => 2,
        Bytes::Eight => 3,
        Bytes::Sixteen => 4,
        Bytes::ThirtyTwo => 5,
        Bytes::SixtyFour => 6,
    }
}

/// The row of accesses that begins with those of so many bytes at multiples of so many, if one does.
fn alignments(bytes: Bytes, many: Bytes) -> Option<Run>
    ensures { result ≡ Walk.alignments bytes many }
{
    let before = column_of(bytes);
    if column_of(many) != before {
        return None;
    }
    Some(Run {
        before,
        bins: 7 - before,
    })
}
