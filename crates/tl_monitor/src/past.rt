//! Answers the questions of the H rules from the state of a link.

ghost use Rattle.std.specs.Prelude.{Option, ◌≡◌};
ghost use Rattle.tl_burst.specs.statement.Messages.{History};
ghost use Rattle.tl_params.specs.declared.liberties.Liberties.{Liberties};
ghost use Rattle.tl_rules.specs.code.Open.{open_probe, open_request_if};
ghost use Rattle.tl_monitor.specs.code.Keeps.{Keeps};
ghost use Rattle.tl_monitor.specs.code.Past.{comes_request, comes_release, comes_grant};
ghost use Rattle.tl_monitor.specs.declared.bursts.Unfinished.{Unfinished};

use crate::bursts::Unfinished;
use crate::link_state::LinkState;
use tl_beat::control::Control;
use tl_rules::key::Key;
use tl_rules::kind::{is_grant, is_release};
use tl_rules::liberties::Liberties;
use tl_rules::past::{Probe, Request};
use tl_rules::past_under::PastUnder;
use tl_rules::perm::Perm;

/// Whether an unfinished burst is of a request with this source.
fn comes_request(source: u8, burst: &Option<Unfinished<()>>) -> bool
    ensures { result ≡ comes_request source burst.now }
{
    match burst {
        Some(
            Unfinished {
                control: Control::A(x),
                ..
            },
        ) => x.source == source,
        _ => false,
    }
}

/// Whether an unfinished burst is of a Release with this source.
fn comes_release(source: u8, burst: &Option<Unfinished<()>>) -> bool
    ensures { result ≡ comes_release source burst.now }
{
    match burst {
        Some(
            Unfinished {
                control: Control::C(x),
                ..
            },
        ) => is_release(x.opcode) && x.source == source,
        _ => false,
    }
}

/// Whether an unfinished burst is of a Grant with this sink.
fn comes_grant(sink: u8, burst: &Option<Unfinished<()>>) -> bool
    ensures { result ≡ comes_grant sink burst.now }
{
    match burst {
        Some(
            Unfinished {
                control: Control::D(x),
                ..
            },
        ) => is_grant(x.opcode) && x.sink == sink,
        _ => false,
    }
}

impl LinkState {
    /// The pending request with this source, if it is complete. With `early` it needn't be complete.
    #[inline(always)]
    pub fn open_request<const W: usize>(&self, early: bool, source: u8) -> Option<Request>
        ensures { (l : Liberties) (t : History W) → Keeps l self.now t → result ≡ open_request_if early source t }
    {
        if !early && comes_request(source, &self.bursts.a) {
            None
        } else {
            self.requests.get(source)
        }
    }

    /// The pending Probe of the block.
    pub fn probe<const W: usize>(&self, block: u32) -> Option<Probe>
        ensures { (l : Liberties) (t : History W) → Keeps l self.now t → result ≡ open_probe block t }
    {
        match self.blocks.get(block).probe {
            None => None,
            Some(pending) => Some(pending.probe),
        }
    }
}

/// The state of a link with these liberties.
#[derive(Clone, Copy)]
pub struct KeptUnder<'a> {
    pub liberties: Liberties,
    pub state: &'a LinkState,
}

impl<'a, const W: usize> PastUnder<W> for KeptUnder<'a> {
    ghost use Rattle.tl_monitor.specs.code.Keeps.{Keeps};

    ghost knows = { λ k l t. (k.liberties ≡ l) × Keeps l k.state.now t };

    #[inline(always)]
    fn is_pending(&self, key: Key) -> bool {
        let state = self.state;
        match key {
            Key::RequestSource(source) => state.requests.get(source).is_some(),
            Key::ReleaseSource(source) => state.releases.get(source).is_some(),
            Key::AcquireOf(block) => state.blocks.get(block).acquire,
            Key::ReleaseOf(block) => state.blocks.get(block).release,
            Key::GrantSink(sink) => state.sinks.get(sink).is_some(),
            Key::GrantAckOf(block) => state.blocks.get(block).grant.is_some(),
            Key::ProbeOf(block) => state.blocks.get(block).probe.is_some(),
        }
    }

    fn held(&self, block: u32) -> Perm {
        self.state.blocks.get(block).held
    }

    fn request(&self, source: u8) -> Option<Request> {
        self.state.open_request::<W>(self.liberties.early, source)
    }

    fn release(&self, source: u8) -> Option<u8> {
        if !self.liberties.early && comes_release(source, &self.state.bursts.c) {
            return None;
        }
        Some(self.state.releases.get(source)?.size)
    }

    fn probe(&self, block: u32) -> Option<Probe> {
        self.state.probe::<W>(block)
    }

    fn probe_source(&self, block: u32) -> Option<u8> {
        match self.state.blocks.get(block).probe {
            None => None,
            Some(pending) => Some(pending.source),
        }
    }

    fn has_grant(&self, sink: u8) -> bool {
        self.state.sinks.get(sink).is_some()
            && (self.liberties.early || !comes_grant(sink, &self.state.bursts.d))
    }
}
