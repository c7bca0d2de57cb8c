//! The numbers of requests and Releases outstanding.

ghost use Rattle.std.specs.Prelude.{ℕ, ◌≡◌, ◌+◌, ◌*◌, ◌/◌, true, false};
ghost use Rattle.tl_beat.specs.statement.Width.{IsWidth};
ghost use Rattle.tl_coherence.specs.declared.event.Event.TheVariants.{Ask};
ghost use Rattle.tl_coherence.specs.statement.Load;
ghost use Rattle.tl_world.specs.code.Opened.{counted};

use tl_beat::beat::Beat;
use tl_client::operation::Op;
use tl_client::reply::Reply;
use tl_client::verdict::Finish;
use tl_coherence::event::Outcome;

/// Whether the operation starts a request.
fn starts_request<const W: usize>(operation: &Op<W>, outcome: &Outcome<W>) -> bool
    ensures { (client : ℕ) → result ≡ Load.starts_request (Ask client operation.now) outcome.now }
{
    match (operation, outcome) {
        (Op::Release { .. }, _) => false,
        (
            _,
            Outcome::Replied {
                reply: Reply::Started(_),
            },
        ) => true,
        _ => false,
    }
}

/// Whether the operation starts a Release.
fn starts_release<const W: usize>(operation: &Op<W>, outcome: &Outcome<W>) -> bool
    ensures { (client : ℕ) → result ≡ Load.starts_release (Ask client operation.now) outcome.now }
{
    match (operation, outcome) {
        (
            Op::Release { .. },
            Outcome::Replied {
                reply: Reply::Started(_),
            },
        ) => true,
        _ => false,
    }
}

/// Whether the outcome ends a request.
fn ends_request<const W: usize>(outcome: &Outcome<W>) -> bool
    ensures { result ≡ Load.ends_request outcome.now }
{
    match outcome {
        Outcome::Done { finish, .. } => match finish {
            Finish::Ack | Finish::Hint | Finish::Data(_, _) => true,
            Finish::Granted(_) | Finish::Released => false,
        },
        Outcome::Moved { beat: Beat::E(_) } => true,
        _ => false,
    }
}

/// Whether the outcome ends a Release.
fn ends_release<const W: usize>(outcome: &Outcome<W>) -> bool
    ensures { result ≡ Load.ends_release outcome.now }
{
    match outcome {
        Outcome::Done {
            finish: Finish::Released,
            ..
        } => true,
        _ => false,
    }
}

/// The number outstanding, after one more starts or ends.
fn after(count: u16, starts: bool, ends: bool) -> u16
    ensures { result ≡ counted starts ends count }
{
    if starts {
        count.saturating_add(1)
    } else if ends {
        count.saturating_sub(1)
    } else {
        count
    }
}

/// The numbers of requests and Releases outstanding.
#[derive(Clone, Copy, Default, PartialEq, Eq)]
pub struct Outstanding {
    pub requests: u16,
    pub releases: u16,
}

impl Outstanding {
    /// Counts an operation that a client was asked for.
    pub fn count_ask<const W: usize>(&mut self, operation: &Op<W>, outcome: &Outcome<W>)
        ensures requests { (client : ℕ) → self.new.requests
            ≡ counted (Load.starts_request (Ask client operation.now) outcome.now) (Load.ends_request outcome.now)
            self.old.requests }
        ensures releases { (client : ℕ) → self.new.releases
            ≡ counted (Load.starts_release (Ask client operation.now) outcome.now) (Load.ends_release outcome.now)
            self.old.releases }
    {
        self.requests = after(
            self.requests,
            starts_request(operation, outcome),
            ends_request(outcome),
        );
        self.releases = after(
            self.releases,
            starts_release(operation, outcome),
            ends_release(outcome),
        );
    }

    /// Counts a delivery.
    pub fn count_delivery<const W: usize>(&mut self, outcome: &Outcome<W>)
        ensures requests { self.new.requests ≡ counted false (Load.ends_request outcome.now) self.old.requests }
        ensures releases { self.new.releases ≡ counted false (Load.ends_release outcome.now) self.old.releases }
    {
        self.requests = after(self.requests, false, ends_request(outcome));
        self.releases = after(self.releases, false, ends_release(outcome));
    }

    /// The number of deliveries that they can still need.
    pub fn load<const W: usize>(&self) -> u64
        requires { IsWidth W }
        ensures { result ≡ (64 / W + 33) * self.now.requests + (64 / W + 1) * self.now.releases }
    {
        let beats = (64 / W) as u64;
        (beats + 33) * u64::from(self.requests) + (beats + 1) * u64::from(self.releases)
    }
}
