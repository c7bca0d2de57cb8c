//! A manager of links of any width. Bad input changes nothing.

ghost use Rattle.std.specs.Prelude.{◌≡◌};
ghost use Rattle.tl_sessions.specs.statement.Manager.{Admitted, StallsAt, ShowsAt, PopsAt, ClosedAt, admission_number};

use tl_manager::manager::admission::Admission;
use tl_pictures::answer::Answer;
use tl_pictures::codes::{channel_at, link_at};
use tl_pictures::depiction::show;
use tl_pictures::picture::Picture;
use tl_ports::manager::ManagerPort;

/// A manager of links whose beats have 4, 8 or 16 bytes, with its beats to send.
#[derive(Drop)]
pub enum AnyManager {
    Four(ManagerPort<4>),
    Eight(ManagerPort<8>),
    Sixteen(ManagerPort<16>),
}

fn number_of(admission: Admission) -> u8
    ensures { result ≡ admission_number admission }
{
    match admission {
        Admission::Waits => 0,
        Admission::Passes => 1,
    }
}

/// Offers a manager a beat of a link. If it breaks no rule, `taken` is set to 1 if the beat is taken, to 0 if it has to
/// wait.
pub fn offer<const W: usize>(
    port: &mut ManagerPort<W>,
    link: u8,
    picture: &Picture,
    taken: &mut u8,
) -> Answer
    ensures { Admitted W port.old port.new link picture.now taken.old taken.new result }
{
    let Some(link) = link_at(link) else {
        return Answer::BAD;
    };
    let Some(beat) = picture.beat::<W>() else {
        return Answer::BAD;
    };
    match port.offer(link, beat.channel(), &beat) {
        Err(_) => Answer::NO_MEMORY,
        Ok(Err(rule)) => Answer::broken(rule),
        Ok(Ok(admission)) => {
            *taken = number_of(admission);
            Answer::OK
        }
    }
}

/// Sets `stalled` to 1 if the manager would stall a beat of a link, otherwise to 0.
pub fn stalls<const W: usize>(
    port: &ManagerPort<W>,
    link: u8,
    picture: &Picture,
    stalled: &mut u8,
) -> Answer
    ensures { StallsAt W port.now link picture.now stalled.old stalled.new result }
{
    let Some(link) = link_at(link) else {
        return Answer::BAD;
    };
    let Some(beat) = picture.beat::<W>() else {
        return Answer::BAD;
    };
    *stalled = u8::from(port.stalls(link, beat.channel(), &beat));
    Answer::OK
}

/// Shows the next beat to send on a channel of a link; `NOTHING` if there is none.
pub fn next<const W: usize>(
    port: &ManagerPort<W>,
    link: u8,
    channel: u8,
    picture: &mut Picture,
) -> Answer
    ensures { ShowsAt W port.now link channel picture.old picture.new result }
{
    let Some(link) = link_at(link) else {
        return Answer::BAD;
    };
    match channel_at(channel) {
        None => Answer::BAD,
        Some(channel) => show(port.next(link, channel), picture),
    }
}

/// Shows the next beat to send on a channel of a link, and removes it; `NOTHING` if there is none.
pub fn pop<const W: usize>(
    port: &mut ManagerPort<W>,
    link: u8,
    channel: u8,
    picture: &mut Picture,
) -> Answer
    ensures { PopsAt W port.old port.new link channel picture.old picture.new result }
{
    let Some(link) = link_at(link) else {
        return Answer::BAD;
    };
    match channel_at(channel) {
        None => Answer::BAD,
        Some(channel) => show(port.pop(link, channel), picture),
    }
}

/// Sets `is_closed` to 1 if the manager has refused a beat of a link or has no such link, otherwise to 0.
pub fn closed<const W: usize>(port: &ManagerPort<W>, link: u8, is_closed: &mut u8) -> Answer
    ensures { ClosedAt W port.now link is_closed.old is_closed.new result }
{
    match link_at(link) {
        None => Answer::BAD,
        Some(link) => {
            *is_closed = u8::from(port.closed(link));
            Answer::OK
        }
    }
}
