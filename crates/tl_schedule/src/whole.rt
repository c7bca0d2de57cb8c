//! The stores of whole blocks that clients have asked for, by client and source.

ghost use Rattle.std.specs.Prelude.{ℕ, ◌≡◌, ◌∷◌, [], filter, not, OnOk, Some};
ghost use Rattle.tl_coherence.specs.statement.Log.{Log};
ghost use Rattle.tl_schedule.specs.code.Storing.{Remembers, is_of, kept_of, store_of};
ghost use Rattle.tl_schedule.specs.statement.Commits.{begun_in, in_place, requested, started_with, store_granted};

use std::alloc::{AllocError, Global};
use tl_client::operation::Op;
use tl_client::reply::Reply;
use tl_client::verdict::Finish;
use tl_coherence::event::{Event, Outcome};

/// The store of a whole block.
#[derive(Clone, Copy, Debug, PartialEq, Eq)]
pub struct WholeStore {
    pub block: u16,
    pub bytes: [u8; 64],
}

/// A request that a client began with a source, and the whole block that it stores when it is granted, if it does.
#[derive(Clone, Copy)]
pub struct Begun {
    client: u8,
    source: u8,
    store: Option<WholeStore>,
}

impl Begun {
    /// Whether it is the request of this client with this source.
    fn is_of(&self, client: u8, source: u8) -> bool
        ensures { result ≡ is_of client source self.now }
    {
        self.client == client && self.source == source
    }
}

/// Removes the request of a client with a source.
fn forget(begun: &mut Vec<Begun>, client: u8, source: u8)
    ensures { begun.new.items ≡ filter (λ x. not (is_of client source x)) begun.old.items }
{
    begun.retain(|x| !x.is_of(client, source));
}

/// The whole block that a request stores when it is granted, if it does. None for the operations that are no request.
fn requested<const W: usize>(operation: &Op<W>) -> Option<Option<WholeStore>>
    ensures { result ≡ requested operation.now }
{
    match operation {
        Op::AcquireWhole { block, bytes } => Some(Some(WholeStore {
            block: *block,
            bytes: *bytes,
        })),
        Op::Acquire { .. } | Op::Access(_) => Some(None),
        Op::Load { .. } | Op::Store { .. } | Op::Release { .. } => None,
    }
}

/// The source with which an operation started.
fn started_with(reply: Reply) -> Option<u8>
    ensures { result ≡ started_with reply }
{
    match reply {
        Reply::Started(source) => Some(source),
        Reply::Value(_) | Reply::Stored | Reply::Miss | Reply::Busy(_) => None,
    }
}

/// The request that started in an event.
fn begun_in<const W: usize>(event: &Event<W>, outcome: &Outcome<W>) -> Option<Begun>
    ensures { result ≡ begun_in event.now outcome.now }
{
    let Event::Ask { client, operation } = event else {
        return None;
    };
    let Outcome::Replied { reply } = outcome else {
        return None;
    };
    let store = requested(operation)?;
    let source = started_with(*reply)?;
    Some(Begun {
        client: *client,
        source,
        store,
    })
}

/// The last request of each client with each source, for the stores of whole blocks that are granted.
#[derive(Drop)]
pub struct WholeStores {
    begun: Vec<Begun>,
}

impl WholeStores {
    /// No requests, as before the first event.
    pub fn new(alloc: Global) -> Self
        ensures { (w : ℕ) → Remembers {w = w} result [] }
    {
        WholeStores {
            begun: Vec::new(alloc),
        }
    }

    /// The store of the last request of a client with this source, if there is such a request.
    fn kept_of(&self, client: u8, source: u8) -> Option<Option<WholeStore>>
        ensures { result ≡ kept_of client source self.now.begun.items }
    {
        self.begun
            .iter()
            .find(|x| x.is_of(client, source))
            .map(|x| x.store)
    }

    /// The same, nothing without a request.
    fn store_of(&self, client: u8, source: u8) -> Option<WholeStore>
        ensures { result ≡ store_of client source self.now.begun.items }
    {
        self.kept_of(client, source)?
    }

    /// Keeps a request, in place of the one before it.
    fn replace(&mut self, begun: Begun) -> Result<(), AllocError>
        ensures { OnOk result ((k s : ℕ) → store_of k s self.new.begun.items
            ≡ in_place k s (Some begun) (store_of k s self.old.begun.items)) }
    {
        forget(&mut self.begun, begun.client, begun.source);
        self.begun.push(begun)?;
        Ok(())
    }

    /// The store that is granted in an event.
    pub fn granted<const W: usize>(
        &self,
        event: &Event<W>,
        outcome: &Outcome<W>,
    ) -> Option<WholeStore>
        ensures { (log : Log W) → Remembers self.now log → result ≡ store_granted log event.now outcome.now }
    {
        match (event, outcome) {
            (
                Event::Deliver { link, .. },
                Outcome::Done {
                    source,
                    finish: Finish::Granted(_),
                    ..
                },
            ) => self.store_of(link.0, *source),
            _ => None,
        }
    }

    /// Notes an event with its outcome.
    pub fn note<const W: usize>(
        &mut self,
        event: &Event<W>,
        outcome: &Outcome<W>,
    ) -> Result<(), AllocError>
        ensures { OnOk result ((log : Log W) → Remembers self.old log →
            Remembers self.new ((event.now, outcome.now) ∷ log)) }
    {
        match begun_in(event, outcome) {
            None => Ok(()),
            Some(begun) => self.replace(begun),
        }
    }
}
