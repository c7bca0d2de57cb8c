//! The blocks of the map: their bytes, the permissions recorded, and the requests in service.

ghost use Rattle.std.specs.Prelude.{ℕ, ◌≡◌, ◌≢◌, ◌⊎◌, ◌<◌, ◌≤◌, ◌==◌, ◌&&◌, ◌*◌, if◌then◌else◌};
ghost use Rattle.std.specs.Prelude.{◌^◌, ◌∷◌, not, length, true, false, Some, None};
ghost use Rattle.std.specs.Int.{bit_at};
ghost use Rattle.tl_beat.specs.statement.Width.{IsWidth};
ghost use Rattle.tl_beat.specs.declared.beat.Beat.{Beat};
ghost use Rattle.tl_burst.specs.declared.message.Message.{Message};
ghost use Rattle.tl_params.specs.declared.config.Config.{Config};
ghost use Rattle.tl_rules.specs.statement.Admission.{payload_of};
ghost use Rattle.tl_rules.specs.statement.Conformance.{Trace};
ghost use Rattle.tl_rules.specs.statement.Effect.{Memory, bytes_from};
ghost use Rattle.tl_manager.specs.code.Blocks.{AreBlocks};
ghost use Rattle.tl_rules.specs.statement.History.{is_acquire, block_at};
ghost use Rattle.tl_manager.specs.code.Bit.{bit_if};
ghost use Rattle.tl_beat.specs.declared.beat.BeatC.{BeatC};
ghost use Rattle.tl_beat.specs.declared.beat.BeatE.{BeatE};
ghost use Rattle.tl_manager.specs.statement.Handing.{performed};
ghost use Rattle.tl_manager.specs.code.Ready.{IsTaken};
ghost use Rattle.tl_manager.specs.statement.Reaction.{begun_with, finish, reaction};
ghost use Rattle.tl_manager.specs.statement.End.{End};
ghost use Rattle.tl_manager.specs.statement.Holders;
ghost use Rattle.tl_manager.specs.statement.Holders.{is_above};
ghost use Rattle.tl_manager.specs.code.Outbox.{messages_of};

use crate::directory::Directory;
use crate::manager::blocks::Blocks;
use crate::manager::reply::{
    Outbox, access_answer, cap_granted, grant, is_granted_data, release_ack,
};
use crate::manager::tracker::{Tracker, Trackers};
use crate::word::with_bit;
use tl_beat::beat::Link;
use tl_beat::opcode::OpA;
use tl_burst::message::{Message, MessageA, MessageC};
use tl_rules::key::block_at;
use tl_rules::kind::{capped, is_acquire, is_release, reported};
use tl_rules::param::{Cap, Grow};
use tl_rules::perm::Perm;
use tl_rules::profile::Profile;

/// The state of the blocks.
#[derive(Drop)]
pub struct BlockState<const W: usize, D: Directory> {
    pub profile: Profile,
    pub trackers: Trackers<W>,
    pub directory: D,
    pub blocks: Blocks,
}

/// The cap with which a request probes other clients; an Intent probes none.
pub fn cap_probed(opcode: OpA, param: u8) -> Option<Cap>
    ensures { result ≡ Holders.cap_probed opcode param }
{
    match opcode {
        OpA::Get => Some(Cap::ToB),
        OpA::Intent => None,
        OpA::AcquireBlock | OpA::AcquirePerm if param == Grow::NtoB.param() => Some(Cap::ToB),
        _ => Some(Cap::ToN),
    }
}

/// A word without the bit of a client.
fn without(word: u16, client: u8) -> u16
    requires { client < 16 }
    ensures { (c : ℕ) → bit_at result c ≡ bit_if (bit_at word c == 1 && not (client == c)) }
{
    with_bit(word, client, false)
}

impl<const W: usize, D: Directory> BlockState<W, D> {
    ghost use Rattle.tl_manager.specs.code.Complete.{IsComplete, IsDue};
    ghost use Rattle.tl_manager.specs.code.BlockState.{IsBlockState, IsBlockStateWithout, IsReportedBlockState};
    ghost use Rattle.tl_manager.specs.code.BlockState.{IsDone, IsPlaced, IsPlacedIn, IsReadyAt, IsReport, IsMessage};
    ghost use Rattle.tl_manager.specs.code.Tracked.{service_with};
    ghost use Rattle.tl_manager.specs.code.Trackers.{tracker_at};

    /// The clients whose permission of a block is above this cap, a bit for each.
    fn above(&self, cap: Cap, block: u16) -> u16
        requires { block < D.blocks self.now.directory }
        ensures { (c : ℕ) → bit_at result c ≡ bit_if (is_above cap (D.perm_of self.now.directory block c)) }
    {
        match cap {
            Cap::ToT => 0,
            Cap::ToB => self.directory.owners(block),
            Cap::ToN => self.directory.holders(block),
        }
    }

    /// The clients that a request probes with this cap, a bit for each. An Acquire doesn't probe its sender.
    fn probed(&self, cap: Cap, link: Link, request: &MessageA<W>) -> u16
        requires block { block_at request.now.address < D.blocks self.now.directory }
        requires small { block_at request.now.address < 2 ^ 16 }
        requires client { link.0 < 16 }
        ensures { (c : ℕ) → bit_at result c
            ≡ bit_if (is_above cap (D.perm_of self.now.directory (block_at request.now.address) c)
            && not (is_acquire request.now.opcode && (link.0 == c))) }
    {
        let above = self.above(cap, block_at(request.address) as u16);
        if is_acquire(request.opcode) {
            without(above, link.0)
        } else {
            above
        }
    }

    /// Records the permission of a client for a block.
    fn record(&mut self, block: u32, link: Link, perm: Perm)
        requires block { block < D.blocks self.old.directory }
        requires client { link.0 < D.clients self.old.directory }
        requires small { block < 2 ^ 16 }
        ensures here { D.perm_of self.new.directory block link.0 ≡ perm }
        ensures others { (b c : ℕ) → (b ≢ block) ⊎ (c ≢ link.0) → D.perm_of self.new.directory b c
            ≡ D.perm_of self.old.directory b c }
        ensures blocks { D.blocks self.new.directory ≡ D.blocks self.old.directory }
        ensures clients { D.clients self.new.directory ≡ D.clients self.old.directory }
        ensures rest { (self.new.profile ≡ self.old.profile) × (self.new.trackers ≡ self.old.trackers)
            × (self.new.blocks ≡ self.old.blocks) }
    {
        self.directory.set(block as u16, link.0, perm);
    }

    /// The bytes of a block, if they are carried.
    fn bytes_if(&self, carries: bool, block: u32) -> Option<[u8; 64]>
        requires { block < length self.now.blocks.bytes.items }
        ensures { (memory : Memory) → AreBlocks self.now.blocks.bytes.items memory →
            result ≡ (if carries then Some (bytes_from memory (64 * block) 64) else None) }
    {
        if carries {
            Some(self.blocks.read(block as usize))
        } else {
            None
        }
    }

    /// Grants an Acquire, whose service then waits for the GrantAck. Writes the message into `outbox`, as the calls
    /// below do.
    fn grant(&mut self, number: u8, link: Link, request: &MessageA<W>, outbox: &mut Outbox<W>)
        requires width { IsWidth W }
        requires number { number < 8 }
        requires acquires { is_acquire request.now.opcode ≡ true }
        requires placed { IsPlaced (length self.old.blocks.bytes.items) (D.clients self.old.directory) link
            request.now }
        requires blocks { length self.old.blocks.bytes.items ≤ D.blocks self.old.directory }
        requires few { length self.old.blocks.bytes.items ≤ 1024 }
        ensures done { (config : Config) (t : Trace W) (memory : Memory) → IsReadyAt config number link request.now t →
            IsBlockStateWithout number D.perm_of config self.old t memory →
            IsDone D.perm_of config self.new (messages_of outbox.new) t
            (performed config (service_with number link request.now) t memory) }
        ensures blocks { D.blocks self.new.directory ≡ D.blocks self.old.directory }
        ensures clients { D.clients self.new.directory ≡ D.clients self.old.directory }
        ensures count { length self.new.blocks.bytes.items ≡ length self.old.blocks.bytes.items }
    {
        let block = block_at(request.address);
        let held = self.directory.get(block as u16, link.0);
        let unheld = self.directory.holders(block as u16) == 0;
        let cap = cap_granted(self.profile, request.opcode, request.param, unheld);
        let carries = is_granted_data(request.opcode, request.param, held);
        let bytes = self.bytes_if(carries, block);
        self.record(block, link, cap.right());
        self.trackers.set(number, Tracker::Granted { link, block });
        *outbox = Outbox::One((link, grant(request.source, number, cap, bytes)));
    }

    /// Performs an access and answers it, which ends its service.
    fn perform(&mut self, number: u8, link: Link, request: &MessageA<W>, outbox: &mut Outbox<W>)
        requires width { IsWidth W }
        requires number { number < 8 }
        requires access { is_acquire request.now.opcode ≡ false }
        requires placed { IsPlaced (length self.old.blocks.bytes.items) (D.clients self.old.directory) link
            request.now }
        ensures done { (config : Config) (t : Trace W) (memory : Memory) → IsReadyAt config number link request.now t →
            IsBlockStateWithout number D.perm_of config self.old t memory →
            IsDone D.perm_of config self.new (messages_of outbox.new) t
            (performed config (service_with number link request.now) t memory) }
        ensures directory { self.new.directory ≡ self.old.directory }
        ensures count { length self.new.blocks.bytes.items ≡ length self.old.blocks.bytes.items }
    {
        let answer = self.blocks.perform(request);
        self.trackers.set(number, Tracker::Free);
        *outbox = Outbox::One((link, access_answer(request, answer)));
    }

    /// Performs a request and answers it.
    fn answer(&mut self, number: u8, link: Link, request: &MessageA<W>, outbox: &mut Outbox<W>)
        requires width { IsWidth W }
        requires number { number < 8 }
        requires placed { IsPlaced (length self.old.blocks.bytes.items) (D.clients self.old.directory) link
            request.now }
        requires blocks { length self.old.blocks.bytes.items ≤ D.blocks self.old.directory }
        requires few { length self.old.blocks.bytes.items ≤ 1024 }
        ensures done { (config : Config) (t : Trace W) (memory : Memory) → IsReadyAt config number link request.now t →
            IsBlockStateWithout number D.perm_of config self.old t memory →
            IsDone D.perm_of config self.new (messages_of outbox.new) t
            (performed config (service_with number link request.now) t memory) }
        ensures blocks { D.blocks self.new.directory ≡ D.blocks self.old.directory }
        ensures clients { D.clients self.new.directory ≡ D.clients self.old.directory }
        ensures count { length self.new.blocks.bytes.items ≡ length self.old.blocks.bytes.items }
    {
        if is_acquire(request.opcode) {
            self.grant(number, link, request, outbox);
        } else {
            self.perform(number, link, request, outbox);
        }
    }

    /// Begins the service of a request. It probes the clients whose permission is above its cap; if there is none, it
    /// is performed and answered at once.
    fn begin(&mut self, number: u8, link: Link, request: &MessageA<W>, outbox: &mut Outbox<W>)
        requires width { IsWidth W }
        requires number { number < 8 }
        requires client { link.0 < 16 }
        requires placed { IsPlaced (length self.old.blocks.bytes.items) (D.clients self.old.directory) link
            request.now }
        requires blocks { length self.old.blocks.bytes.items ≤ D.blocks self.old.directory }
        requires few { length self.old.blocks.bytes.items ≤ 1024 }
        ensures done { (config : Config) (t : Trace W) (memory : Memory) → length config.clients.items ≤ 16 →
            IsReadyAt config number link request.now t → IsBlockStateWithout number D.perm_of config self.old t memory →
            IsDone D.perm_of config self.new (messages_of outbox.new) t
            (begun_with config (Holders.cap_probed request.now.opcode request.now.param)
            (service_with number link request.now) t memory) }
        ensures blocks { D.blocks self.new.directory ≡ D.blocks self.old.directory }
        ensures clients { D.clients self.new.directory ≡ D.clients self.old.directory }
        ensures count { length self.new.blocks.bytes.items ≡ length self.old.blocks.bytes.items }
    {
        let Some(cap) = cap_probed(request.opcode, request.param) else {
            self.answer(number, link, request, outbox);
            return;
        };
        let missing = self.probed(cap, link, request);
        if missing == 0 {
            self.answer(number, link, request, outbox);
            return;
        }
        let probing = Tracker::Probing {
            link,
            request: *request,
            missing,
        };
        self.trackers.set(number, probing);
        *outbox = Outbox::Probes {
            block: block_at(request.address) as u16,
            cap,
            clients: missing,
        };
    }

    /// A ProbeAck of a block came from a client. If no other is missing, the request for the block is performed and
    /// answered.
    fn settle(&mut self, link: Link, block: u32, outbox: &mut Outbox<W>)
        requires width { IsWidth W }
        requires client { link.0 < 16 }
        requires placed { (n : ℕ) →
            IsPlacedIn (length self.old.blocks.bytes.items) (D.clients self.old.directory)
            (tracker_at self.old.trackers n) }
        requires blocks { length self.old.blocks.bytes.items ≤ D.blocks self.old.directory }
        requires few { length self.old.blocks.bytes.items ≤ 1024 }
        ensures done { (config : Config) (x : BeatC W) (e : End W) (memory : Memory) → IsReport config link block x e →
            IsReportedBlockState D.perm_of config self.old e.trace ((link, Beat.C x) ∷ e.trace) memory →
            IsDone D.perm_of config self.new (messages_of outbox.new) ((link, Beat.C x) ∷ e.trace)
            (finish config block ((link, Beat.C x) ∷ e.trace) memory) }
        ensures blocks { D.blocks self.new.directory ≡ D.blocks self.old.directory }
        ensures clients { D.clients self.new.directory ≡ D.clients self.old.directory }
        ensures count { length self.new.blocks.bytes.items ≡ length self.old.blocks.bytes.items }
    {
        *outbox = Outbox::Nothing;
        let Some(number) = self.trackers.serving(block) else {
            return;
        };
        let (asking, request, missing) = match self.trackers.at(number) {
            Tracker::Free => return,
            Tracker::Granted { .. } => return,
            Tracker::Probing {
                link: asking,
                request,
                missing,
            } => (asking, request, missing),
        };
        let missing = without(missing, link.0);
        if missing == 0 {
            self.answer(number, asking, &request, outbox);
            return;
        }
        let probing = Tracker::Probing {
            link: asking,
            request,
            missing,
        };
        self.trackers.set(number, probing);
    }

    /// Takes a message of channel C. A Release is answered at once. A ProbeAck may be the last that a request waits
    /// for.
    fn take(&mut self, link: Link, message: &MessageC<W>, outbox: &mut Outbox<W>)
        requires width { IsWidth W }
        requires client { link.0 < 16 }
        requires covered { link.0 < D.clients self.old.directory }
        requires inside { block_at message.now.address < length self.old.blocks.bytes.items }
        requires placed { (n : ℕ) →
            IsPlacedIn (length self.old.blocks.bytes.items) (D.clients self.old.directory)
            (tracker_at self.old.trackers n) }
        requires blocks { length self.old.blocks.bytes.items ≤ D.blocks self.old.directory }
        requires few { length self.old.blocks.bytes.items ≤ 1024 }
        ensures done { (config : Config) (x : BeatC W) (e : End W) → IsMessage config link x message.now e →
            IsBlockState D.perm_of config self.old e.trace e.memory →
            IsDone D.perm_of config self.new (messages_of outbox.new) ((link, Beat.C x) ∷ e.trace)
            (reaction config link (Beat.C x) e) }
        ensures blocks { D.blocks self.new.directory ≡ D.blocks self.old.directory }
        ensures clients { D.clients self.new.directory ≡ D.clients self.old.directory }
        ensures count { length self.new.blocks.bytes.items ≡ length self.old.blocks.bytes.items }
    {
        let block = block_at(message.address);
        let carries = message.opcode.carries_data();
        self.blocks
            .write_if(carries, block as usize, &message.payload);
        self.record(block, link, reported(message.param));
        if is_release(message.opcode) {
            *outbox = Outbox::One((link, release_ack(message.source)));
        } else {
            self.settle(link, block, outbox)
        }
    }

    /// Takes the GrantAck with this sink, which ends the service of its Acquire.
    fn acknowledge(&mut self, sink: u8)
        requires { sink < 8 }
        ensures done { (config : Config) (link : Link) (x : BeatE) (e : End W) → x.sink ≡ sink →
            IsTaken config link (Beat.E x) e →
            IsBlockState D.perm_of config self.old e.trace e.memory →
            IsBlockState D.perm_of config self.new ((link, Beat.E x) ∷ e.trace) e.memory }
        ensures directory { self.new.directory ≡ self.old.directory }
        ensures blocks { self.new.blocks ≡ self.old.blocks }
    {
        self.trackers.set(sink, Tracker::Free);
    }

    /// Gives a request the least free tracker, and begins its service.
    fn serve(&mut self, link: Link, request: &MessageA<W>, outbox: &mut Outbox<W>)
        requires width { IsWidth W }
        requires client { link.0 < 16 }
        requires placed { IsPlaced (length self.old.blocks.bytes.items) (D.clients self.old.directory) link
            request.now }
        requires blocks { length self.old.blocks.bytes.items ≤ D.blocks self.old.directory }
        requires few { length self.old.blocks.bytes.items ≤ 1024 }
        requires trackers { self.old.trackers.count ≤ 8 }
        ensures done { (config : Config) (x : Beat W) (e : End W) → length config.clients.items ≤ 16 →
            IsComplete config link x (Message.A request.now) e →
            IsBlockState D.perm_of config self.old e.trace e.memory →
            IsDone D.perm_of config self.new (messages_of outbox.new) ((link, x) ∷ e.trace) (reaction config link x e) }
        ensures blocks { D.blocks self.new.directory ≡ D.blocks self.old.directory }
        ensures clients { D.clients self.new.directory ≡ D.clients self.old.directory }
        ensures count { length self.new.blocks.bytes.items ≡ length self.old.blocks.bytes.items }
    {
        match self.trackers.least_free() {
            None => *outbox = Outbox::Nothing,
            Some(number) => self.begin(number, link, request, outbox),
        }
    }

    /// The reaction to a complete message of a client.
    pub fn complete(&mut self, link: Link, message: &Message<W>, outbox: &mut Outbox<W>)
        requires width { IsWidth W }
        requires client { link.0 < 16 }
        requires covered { link.0 < D.clients self.old.directory }
        requires due { IsDue (length self.old.blocks.bytes.items) (D.clients self.old.directory) link message.now }
        requires placed { (n : ℕ) →
            IsPlacedIn (length self.old.blocks.bytes.items) (D.clients self.old.directory)
            (tracker_at self.old.trackers n) }
        requires blocks { length self.old.blocks.bytes.items ≤ D.blocks self.old.directory }
        requires few { length self.old.blocks.bytes.items ≤ 1024 }
        requires trackers { self.old.trackers.count ≤ 8 }
        ensures done { (config : Config) (x : Beat W) (e : End W) → length config.clients.items ≤ 16 →
            IsComplete config link x message.now e → IsBlockState D.perm_of config self.old e.trace e.memory →
            IsDone D.perm_of config self.new (messages_of outbox.new) ((link, x) ∷ e.trace) (reaction config link x e) }
        ensures blocks { D.blocks self.new.directory ≡ D.blocks self.old.directory }
        ensures clients { D.clients self.new.directory ≡ D.clients self.old.directory }
        ensures count { length self.new.blocks.bytes.items ≡ length self.old.blocks.bytes.items }
    {
        match message {
            Message::A(request) => self.serve(link, request, outbox),
            Message::C(report) => self.take(link, report, outbox),
            Message::E(ack) => {
                self.acknowledge(ack.sink);
                *outbox = Outbox::Nothing;
            }
            Message::B(_) | Message::D(_) => *outbox = Outbox::Nothing,
        }
    }
}
