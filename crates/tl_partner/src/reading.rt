//! Beats of clients with liberties.

ghost use Rattle.std.specs.Prelude.{◌≡◌, ◌^◌, ◌<◌};
ghost use Rattle.tl_manager.specs.code.Admission.{admission_of};
ghost use Rattle.tl_manager.specs.statement.Offer.{Judgement};
ghost use Rattle.tl_partner.specs.statement.Dropping;
ghost use Rattle.tl_partner.specs.statement.Naming;

use crate::terms::Terms;
use arrayvec::ArrayVec;
use tl_beat::beat::{Beat, BeatC, Link};
use tl_beat::opcode::OpC;
use tl_burst::message::{Message, MessageB};
use tl_manager::manager::admission::Admission;
use tl_manager::manager::reply::Handed;
use tl_rules::key::block_at;
use tl_rules::kind::{grows_from_none, is_acquire, is_probe_ack};
use tl_rules::order::reports_none;
use tl_rules::param::Prune;
use tl_rules::perm::Perm;
use tl_rules::rule::Rule;

/// Whether a beat says that its client holds None of its block.
pub fn says_none<const W: usize>(beat: &Beat<W>) -> bool
    ensures { result ≡ Dropping.says_none beat.now }
{
    match beat {
        Beat::A(x) => is_acquire(x.opcode) && grows_from_none(x.param),
        Beat::C(x) => is_probe_ack(x.opcode) && reports_none(x.param),
        Beat::B(_) | Beat::D(_) | Beat::E(_) => false,
    }
}

/// The block of a beat; 0 for a beat without address.
pub fn block_of<const W: usize>(beat: &Beat<W>) -> u32
    ensures block { result ≡ Dropping.block_of beat.now }
    ensures small { result < 2 ^ 26 }
{
    match beat {
        Beat::A(x) => block_at(x.address),
        Beat::B(x) => block_at(x.address),
        Beat::C(x) => block_at(x.address),
        Beat::D(_) | Beat::E(_) => 0,
    }
}

/// Whether the first rule that a message breaks is H5 or H12, which depend on the permission recorded.
pub fn is_by_record(judged: Result<Admission, Rule>) -> bool
    ensures { (j : Judgement) → judged ≡ admission_of j → result ≡ Dropping.is_by_record j }
{
    matches!(judged, Err(Rule::H5 | Rule::H12))
}

/// The prune of a Release that gives up this permission.
fn prune_from(perm: Perm) -> Prune
    ensures { result ≡ Dropping.prune_from perm }
{
    match perm {
        Perm::Trunk => Prune::TtoN,
        Perm::None | Perm::Branch => Prune::BtoN,
    }
}

/// The Release without data by which a client gives up this permission of a block.
pub fn release_beat<const W: usize>(block: u32, perm: Perm) -> Beat<W>
    requires { block < 2 ^ 26 }
    ensures { result ≡ Dropping.release_beat block perm }
{
    Beat::C(BeatC {
        opcode: OpC::Release,
        param: prune_from(perm).param(),
        size: 6,
        source: 0,
        address: 64 * block,
        lanes: None,
        corrupt: false,
    })
}

impl Terms {
    /// Whether a beat is, under `ids`, a ProbeAck with another source than the Probes of its link.
    pub fn is_misnamed<const W: usize>(&self, link: Link, beat: &Beat<W>) -> bool
        ensures { result ≡ Naming.is_misnamed self.now link beat.now }
    {
        match beat {
            Beat::C(x) => {
                self.ids && is_probe_ack(x.opcode) && x.source != self.probe_source(link)
            }
            _ => false,
        }
    }

    /// The beat as the first profile has it.
    pub fn plain<const W: usize>(&self, beat: &Beat<W>) -> Beat<W>
        ensures { result ≡ Naming.plain self.now beat.now }
    {
        match beat {
            Beat::C(x) if self.ids && is_probe_ack(x.opcode) => Beat::C(BeatC {
                opcode: x.opcode,
                param: x.param,
                size: x.size,
                source: 0,
                address: x.address,
                lanes: x.lanes,
                corrupt: x.corrupt,
            }),
            _ => *beat,
        }
    }

    /// The message as it is handed out on a link: under `ids` a Probe has the source of the link's Probes.
    fn named<const W: usize>(&self, link: Link, message: &Message<W>) -> Message<W>
        ensures { result ≡ Naming.named self.now link message.now }
    {
        match message {
            Message::B(m) if self.ids => Message::B(MessageB {
                opcode: m.opcode,
                param: m.param,
                size: m.size,
                source: self.probe_source(link),
                address: m.address,
                payload: m.payload,
                mask: m.mask,
                corrupt: m.corrupt,
            }),
            _ => *message,
        }
    }

    /// The messages as they are handed out: under `ids` each Probe has the source of its link.
    pub fn all_named<const W: usize>(&self, handed: &Handed<W>) -> Handed<W>
        ensures { result.items ≡ Naming.all_named self.now handed.now.items }
    {
        let mut named = ArrayVec::new();
        for i in 0..handed.len() {
            let (link, message) = &handed.as_slice()[i];
            named.push((*link, self.named(*link, message)));
        }
        named
    }
}
