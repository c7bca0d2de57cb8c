//! The places of a chart's parts.

ghost use Rattle.std.specs.Prelude.{◌≡◌, ◌≤◌};
ghost use Rattle.tl_beat.specs.statement.Line.{letter};
ghost use Rattle.tl_chart.specs.statement.Picture;
ghost use Rattle.tl_chart.specs.statement.Messages.{channel_in};

use tl_beat::control::Control;

/// The place of the manager's lifeline, from the left.
pub const MANAGER: u64 = 526;

/// The place of a row, from the top. The first row is 1.
pub fn row_place(row: usize) -> u64
    ensures place { result ≡ Picture.row_place row }
    ensures near { result ≤ 80072 }
{
    72 + 20 * (row.min(4000) as u64)
}

/// The distance of a column from the manager's lifeline, among this many columns.
fn column_place(count: usize, column: u64) -> u64
    requires { column ≤ 256 }
    ensures place { result ≡ Picture.column_place count column }
    ensures near { result ≤ 20480 }
{
    if count <= 3 {
        80 * column
    } else if count <= 8 {
        50 * column
    } else {
        27 * column
    }
}

/// The number of these links with lower numbers.
fn lower(links: &[u8], link: u8) -> usize
    ensures { result ≡ Picture.lower links.now link }
{
    links.iter().filter(|other| **other < link).count()
}

/// The place of a link's lifeline, from the left, among those that are drawn.
pub fn link_place(links: &[u8], link: u8) -> u64
    ensures place { result ≡ Picture.link_place links.now link }
    ensures near { result ≤ 30000 }
{
    let column = lower(links, link).min(255) as u64;
    MANAGER + column_place(links.len(), column + 1)
}

/// The last row up to a line, among the rows of these lines.
pub fn row_of(rows: &[u64], line: u64) -> usize
    ensures { result ≡ Picture.row_of rows.now line }
{
    rows.iter().filter(|row| **row <= line).count()
}

/// The place, from the top, for the end of a message or a change of permission.
pub fn end_place(rows: &[u64], line: u64) -> u64
    ensures { result ≡ Picture.end_place rows.now line }
{
    row_place(row_of(rows, line)) + 7
}

/// Whether a message goes from the manager to the client.
pub fn is_down(control: &Control) -> bool
    ensures { result ≡ Picture.is_down control.now }
{
    matches!(control, Control::B(_) | Control::D(_))
}

/// The letter of a message's channel.
pub fn letter(control: &Control) -> &'static str
    ensures { result.now ≡ letter (channel_in control.now) }
{
    match control {
        Control::A(_) => "A",
        Control::B(_) => "B",
        Control::C(_) => "C",
        Control::D(_) => "D",
        Control::E(_) => "E",
    }
}

/// The distance of a message's bracket from the client's lifeline.
pub fn bracket_width(control: &Control) -> u64
    ensures { result ≡ Picture.bracket_width control.now }
{
    match control {
        Control::A(_) => 5,
        Control::C(_) => 8,
        _ => 11,
    }
}
