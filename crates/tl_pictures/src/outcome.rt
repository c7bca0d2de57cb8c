//! A client's replies and answers in C.

ghost use Rattle.std.specs.Prelude.{◌≡◌};
ghost use Rattle.tl_pictures.specs.statement.Outcome.{busy_number, perm_number, outcome_of, no_bytes, finish_of};
ghost use Rattle.tl_pictures.specs.statement.Outcome.{reception_of};

use tl_client::busy::Busy;
use tl_client::reply::Reply;
use tl_client::verdict::{Finish, Verdict};
use tl_rules::perm::Perm;

/// The reply to an operation. `kind` is 0 for a value, 1 for a Store that is done, 2 for a miss, 3 for a message that
/// was handed out with `source`, and 4 if nothing was done for the reason B1 to B5 with the number `busy`. The other
/// fields are 0.
#[repr(C)]
#[derive(Clone, Copy, Debug, PartialEq, Eq)]
pub struct Outcome {
    pub value: u64,
    pub kind: u8,
    pub source: u8,
    pub busy: u8,
}

/// The answer to a beat. `kind` is 0 if it is stalled, 1 if it was taken, and 2 to 6 if it completes the response to
/// the request or Release with `source`: 2 AccessAck, 3 HintAck, 4 AccessAckData of `size` with `bytes`, 5 a Grant of
/// `perm`, 6 ReleaseAck. The other fields are 0.
#[repr(C)]
#[derive(Clone, Copy, Debug, PartialEq, Eq)]
pub struct Reception {
    pub bytes: [u8; 64],
    pub kind: u8,
    pub source: u8,
    pub size: u8,
    pub perm: u8,
}

fn number_of(busy: Busy) -> u8
    ensures { result ≡ busy_number busy }
{
    match busy {
        Busy::B1 => 1,
        Busy::B2 => 2,
        Busy::B3 => 3,
        Busy::B4 => 4,
        Busy::B5 => 5,
    }
}

/// The number of a permission: 0 for None, 1 for Branch, 2 for Trunk.
pub fn number_of_perm(perm: Perm) -> u8
    ensures { result ≡ perm_number perm }
{
    match perm {
        Perm::None => 0,
        Perm::Branch => 1,
        Perm::Trunk => 2,
    }
}

fn told(kind: u8, value: u64, source: u8, busy: u8) -> Outcome
    ensures { result ≡ record { value = value; kind = kind; source = source; busy = busy } }
{
    Outcome {
        value,
        kind,
        source,
        busy,
    }
}

impl Outcome {
    /// The reply to an operation.
    pub fn of(reply: Reply) -> Outcome
        ensures { result ≡ outcome_of reply }
    {
        match reply {
            Reply::Value(value) => told(0, value, 0, 0),
            Reply::Stored => told(1, 0, 0, 0),
            Reply::Miss => told(2, 0, 0, 0),
            Reply::Started(source) => told(3, 0, source, 0),
            Reply::Busy(busy) => told(4, 0, 0, number_of(busy)),
        }
    }
}

fn received(kind: u8, source: u8, perm: u8) -> Reception
    ensures { result ≡ record { bytes = no_bytes; kind = kind; source = source; size = 0; perm = perm } }
{
    Reception {
        bytes: [0; 64],
        kind,
        source,
        size: 0,
        perm,
    }
}

fn finished(source: u8, finish: Finish) -> Reception
    ensures { result ≡ finish_of source finish }
{
    match finish {
        Finish::Ack => received(2, source, 0),
        Finish::Hint => received(3, source, 0),
        Finish::Data(size, bytes) => Reception {
            bytes,
            kind: 4,
            source,
            size,
            perm: 0,
        },
        Finish::Granted(perm) => received(5, source, number_of_perm(perm)),
        Finish::Released => received(6, source, 0),
    }
}

impl Reception {
    /// The answer to a beat.
    pub fn of(verdict: Verdict) -> Reception
        ensures { result ≡ reception_of verdict }
    {
        match verdict {
            Verdict::Stalled => received(0, 0, 0),
            Verdict::Taken => received(1, 0, 0),
            Verdict::Done(source, finish) => finished(source, finish),
        }
    }
}
