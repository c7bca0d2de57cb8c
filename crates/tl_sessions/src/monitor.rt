//! A monitor of links of any width. Bad input changes nothing.

ghost use Rattle.tl_beat.specs.statement.Width.{IsWidth};
ghost use Rattle.tl_sessions.specs.statement.Judged.{ToldOf, ToldOfLine, EntriesOf, stops, goes_on};

use tl_beat::read::read_line;
use tl_monitor::monitor::Monitor;
use tl_pictures::answer::Answer;
use tl_pictures::codes::link_at;
use tl_pictures::picture::Picture;

/// A monitor of links whose beats have 4, 8 or 16 bytes.
#[derive(Drop)]
pub enum AnyMonitor {
    Four(Monitor<4>),
    Eight(Monitor<8>),
    Sixteen(Monitor<16>),
}

/// Judges a beat of a link. A beat that breaks a rule closes the monitor.
pub fn push<const W: usize>(monitor: &mut Monitor<W>, link: u8, picture: &Picture) -> Answer
    requires { IsWidth W }
    ensures { ToldOf stops monitor.old monitor.new link picture.now result }
{
    let Some(link) = link_at(link) else {
        return Answer::BAD;
    };
    let Some(beat) = picture.beat::<W>() else {
        return Answer::BAD;
    };
    Answer::of(monitor.push(link, &beat))
}

/// Judges a beat of a link. A beat that breaks a rule doesn't close the monitor.
pub fn try_push<const W: usize>(monitor: &mut Monitor<W>, link: u8, picture: &Picture) -> Answer
    requires { IsWidth W }
    ensures { ToldOf goes_on monitor.old monitor.new link picture.now result }
{
    let Some(link) = link_at(link) else {
        return Answer::BAD;
    };
    let Some(beat) = picture.beat::<W>() else {
        return Answer::BAD;
    };
    Answer::of(monitor.try_push(link, &beat))
}

/// Judges the beat of a line of a trace, as `push` does.
pub fn push_line<const W: usize>(monitor: &mut Monitor<W>, line: &[u8]) -> Answer
    requires { IsWidth W }
    ensures { ToldOfLine monitor.old monitor.new line.now result }
{
    match read_line::<W>(line) {
        Err(_) => Answer::BAD,
        Ok((link, beat)) => Answer::of(monitor.push(link, &beat)),
    }
}

/// The number of keys pending and blocks held on a link.
pub fn entries<const W: usize>(monitor: &Monitor<W>, link: u8, entries: &mut u64) -> Answer
    ensures { EntriesOf monitor.now link entries.old entries.new result }
{
    match link_at(link) {
        None => Answer::BAD,
        Some(link) => {
            *entries = monitor.entries(link) as u64;
            Answer::OK
        }
    }
}
