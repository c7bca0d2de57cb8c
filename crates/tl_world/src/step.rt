//! The steps of a manager and its clients at an event.

ghost use Rattle.std.specs.Prelude.{ℕ, ◌≡◌, ◌<◌, length, true, false};
ghost use Rattle.tl_beat.specs.statement.Width.{IsWidth};
ghost use Rattle.tl_params.specs.declared.config.Config.{Config};
ghost use Rattle.tl_world.specs.code.Holds.{Holds, HasRoom, IsStepped, is_stay};
ghost use Rattle.tl_coherence.specs.statement.Step;
ghost use Rattle.tl_coherence.specs.statement.Step.{handed_by, stepped};
ghost use Rattle.tl_coherence.specs.statement.System.{System, with_messages};
ghost use Rattle.tl_world.specs.code.Carrying.{Carries, Fit, AreKept, AreMoved};
ghost use Rattle.tl_client.specs.declared.operation.Op.TheVariants.{Load, Store};
ghost use Rattle.tl_client.specs.statement.Answer.{handed, message_of, verdict_of};
ghost use Rattle.tl_coherence.specs.declared.event.Event.TheVariants.{Ask, Deliver};
ghost use Rattle.tl_world.specs.statement.Answered.{answered};
ghost use Rattle.tl_coherence.specs.declared.event.Outcome.TheVariants as outcome;

use crate::clients::{ask_at, ask_load_at, ask_store_at, goes_on_at, offer_at};
use crate::network::Network;
use crate::rings::Rings;
use tl_beat::beat::{Beat, Link};
use tl_beat::channel::Channel;
use tl_burst::message::{Message, MessageE};
use tl_client::agent::Agent;
use tl_client::answer::Answer;
use tl_client::operation::Op;
use tl_client::reply::Reply;
use tl_client::verdict::Finish;
use tl_coherence::event::Outcome;
use tl_manager::directory::Directory;
use tl_manager::manager::reply::Outbox;

/// Whether a client takes the beats of a channel.
pub fn is_to_client(channel: Channel) -> bool
    ensures { result ≡ Step.is_to_client channel }
{
    match channel {
        Channel::B | Channel::D => true,
        Channel::A | Channel::C | Channel::E => false,
    }
}

/// Whether a beat with this answer stays on its channel.
fn stays(answer: Answer, bytes: &[u8; 64]) -> bool
    ensures { result ≡ is_stay (verdict_of answer bytes.now) }
{
    matches!(answer, Answer::Stalled)
}

/// Writes the outcome of a beat with this answer of a client.
fn write_outcome<const W: usize>(
    outcome: &mut Outcome<W>,
    beat: &Beat<W>,
    answer: Answer,
    bytes: &[u8; 64],
)
    ensures { outcome.new ≡ Step.outcome_of beat.now (verdict_of answer bytes.now) }
{
    *outcome = match answer {
        Answer::Stalled => Outcome::Stalled,
        Answer::Taken | Answer::Probed { .. } => Outcome::Moved { beat: *beat },
        Answer::Granted { source, perm, .. } => Outcome::Done {
            beat: *beat,
            source,
            finish: Finish::Granted(perm),
        },
        Answer::Ended { source, ending } => Outcome::Done {
            beat: *beat,
            source,
            finish: ending.finish(bytes),
        },
    };
}

/// Appends the message that a client hands out with its answer to its channel, if there is one.
fn send_answer<const W: usize>(rings: &mut Rings<W>, link: Link, answer: Answer, bytes: &[u8; 64])
    requires { IsWidth W }
    ensures kept { AreKept rings.old rings.new }
    ensures moved { (n : ℕ) (s : System W) → Carries n rings.old s →
        Fit n rings.old (with_messages (handed_by link.0 (message_of answer bytes.now)) s) →
        AreMoved n rings.old rings.new (with_messages (handed_by link.0 (message_of answer bytes.now)) s) }
{
    if answer.hands_out() {
        rings.send_if_any(link, &answer.message(bytes));
    }
}

/// Appends the message that a client hands out with its reply to its channel, if an operation started.
fn send_started<const W: usize>(
    rings: &mut Rings<W>,
    link: Link,
    reply: Reply,
    message: &Message<W>,
)
    requires { IsWidth W }
    ensures kept { AreKept rings.old rings.new }
    ensures moved { (n : ℕ) (s : System W) → Carries n rings.old s →
        Fit n rings.old (with_messages (handed_by link.0 (handed reply message.now)) s) →
        AreMoved n rings.old rings.new (with_messages (handed_by link.0 (handed reply message.now)) s) }
{
    if reply.hands_out() {
        rings.send(link, message);
    }
}

/// The outcome of a beat that is refused: it would stay on its channel. No end refuses one. Each end hands out only
/// messages that break no rule of the link, a channel keeps them in order, and the other end judges them by the same
/// rules after the same messages.
fn refused<const W: usize>() -> Outcome<W>
    ensures { result ≡ outcome.Stalled }
{
    Outcome::Stalled
}

impl<const W: usize, A: Agent<W>, D: Directory> Network<W, A, D> {
    /// Asks the client of this number, which must exist, and writes the outcome into `outcome`.
    fn ask(&mut self, client: u8, operation: &Op<W>, outcome: &mut Outcome<W>)
        requires width { IsWidth W }
        requires inside { client < length self.old.clients.items }
        ensures { (config : Config) (s : System W) → Holds A.represents A.terms D.perm_of config self.old s →
            HasRoom config (stepped config (Ask client operation.now) s).after →
            IsStepped A.represents A.terms D.perm_of config self.old self.new (Ask client operation.now) outcome.new
            s }
    {
        let mut message = Message::E(MessageE { sink: 0 });
        let reply = ask_at(
            &mut self.clients,
            usize::from(client),
            operation,
            &mut message,
        );
        send_started(&mut self.rings, Link(client), reply, &message);
        *outcome = Outcome::Replied { reply };
    }

    /// Asks the client of this number, if there is one, and writes the outcome into `outcome`.
    pub fn ask_if_there(&mut self, client: u8, operation: &Op<W>, outcome: &mut Outcome<W>)
        requires { IsWidth W }
        ensures { (config : Config) (s : System W) → Holds A.represents A.terms D.perm_of config self.old s →
            HasRoom config (stepped config (Ask client operation.now) s).after →
            IsStepped A.represents A.terms D.perm_of config self.old self.new (Ask client operation.now) outcome.new
            s }
    {
        if usize::from(client) >= self.clients.len() {
            *outcome = Outcome::NoSuchClient;
            return;
        }
        self.ask(client, operation, outcome)
    }

    /// Asks the client of this number for a Load. Returns its reply, or None if there is no such client.
    pub fn ask_load(&mut self, client: u8, address: u32, size: u8) -> Option<Reply>
        ensures { (config : Config) (s : System W) → Holds A.represents A.terms D.perm_of config self.old s →
            HasRoom config (stepped config (Ask client (Load address size)) s).after →
            IsStepped A.represents A.terms D.perm_of config self.old self.new (Ask client (Load address size))
            (answered result) s }
    {
        if usize::from(client) >= self.clients.len() {
            return None;
        }
        Some(ask_load_at(&mut self.clients, usize::from(client), address, size))
    }

    /// Asks the client of this number for a Store. Returns its reply, or None if there is no such client.
    pub fn ask_store(&mut self, client: u8, address: u32, size: u8, value: u64) -> Option<Reply>
        ensures { (config : Config) (s : System W) → Holds A.represents A.terms D.perm_of config self.old s →
            HasRoom config (stepped config (Ask client (Store address size value)) s).after →
            IsStepped A.represents A.terms D.perm_of config self.old self.new (Ask client (Store address size value))
            (answered result) s }
    {
        if usize::from(client) >= self.clients.len() {
            return None;
        }
        Some(ask_store_at(&mut self.clients, usize::from(client), address, size, value))
    }

    /// Offers the first beat of a channel to a client.
    fn to_client(&mut self, link: Link, channel: Channel, outcome: &mut Outcome<W>)
        requires width { IsWidth W }
        requires inside { link.0 < length self.old.clients.items }
        ensures { (config : Config) (s : System W) → Holds A.represents A.terms D.perm_of config self.old s →
            Step.is_to_client channel ≡ true → HasRoom config (stepped config (Deliver link channel) s).after →
            IsStepped A.represents A.terms D.perm_of config self.old self.new (Deliver link channel) outcome.new s }
    {
        let Some(beat) = self.rings.first(link, channel) else {
            *outcome = Outcome::Empty;
            return;
        };
        let client = usize::from(link.0);
        if goes_on_at(&mut self.clients, client, channel, beat) {
            *outcome = Outcome::Moved { beat: *beat };
            self.rings.drop_first(link, channel);
            return;
        }
        let mut bytes = [0; 64];
        match offer_at(&mut self.clients, client, channel, beat, &mut bytes) {
            Err(_) => *outcome = refused(),
            Ok(answer) => {
                if stays(answer, &bytes) {
                    *outcome = Outcome::Stalled;
                    return;
                }
                write_outcome(outcome, beat, answer, &bytes);
                self.rings.drop_first(link, channel);
                send_answer(&mut self.rings, link, answer, &bytes);
            }
        }
    }

    /// Offers the first beat of a channel to the manager.
    fn to_manager(&mut self, link: Link, channel: Channel, outcome: &mut Outcome<W>)
        requires width { IsWidth W }
        requires inside { link.0 < length self.old.clients.items }
        ensures { (config : Config) (s : System W) → Holds A.represents A.terms D.perm_of config self.old s →
            Step.is_to_client channel ≡ false → HasRoom config (stepped config (Deliver link channel) s).after →
            IsStepped A.represents A.terms D.perm_of config self.old self.new (Deliver link channel) outcome.new s }
    {
        let Some(beat) = self.rings.first(link, channel) else {
            *outcome = Outcome::Empty;
            return;
        };
        if self.manager.goes_on(link, channel, beat) {
            *outcome = Outcome::Moved { beat: *beat };
            self.rings.drop_first(link, channel);
            return;
        }
        let mut outbox = Outbox::Nothing;
        match self.manager.offer_into(link, channel, beat, &mut outbox) {
            Err(_) => *outcome = refused(),
            Ok(false) => *outcome = Outcome::Stalled,
            Ok(true) => {
                *outcome = Outcome::Moved { beat: *beat };
                self.rings.drop_first(link, channel);
                self.rings.send_out(&outbox);
            }
        }
    }

    /// Offers the first beat of a channel of a link to the end that takes it, and writes the outcome into `outcome`.
    pub fn deliver(&mut self, link: Link, channel: Channel, outcome: &mut Outcome<W>)
        requires width { IsWidth W }
        ensures { (config : Config) (s : System W) → Holds A.represents A.terms D.perm_of config self.old s →
            HasRoom config (stepped config (Deliver link channel) s).after →
            IsStepped A.represents A.terms D.perm_of config self.old self.new (Deliver link channel) outcome.new s }
    {
        if usize::from(link.0) >= self.clients.len() {
            *outcome = Outcome::NoSuchClient;
            return;
        }
        if is_to_client(channel) {
            self.to_client(link, channel, outcome)
        } else {
            self.to_manager(link, channel, outcome)
        }
    }
}
