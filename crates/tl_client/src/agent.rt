//! A client by its end of the link (SiFive TileLink Specification 1.8, the master's side of a link).

ghost use Rattle.std.specs.Prelude.{◌≡◌, None, Ok};
ghost use Rattle.std.specs.Bool.{OnTrue, OnFalse};
ghost use Rattle.tl_rules.specs.statement.History;
ghost use Rattle.tl_client.specs.declared.operation.Op.TheVariants.{Load, Store};
ghost use Rattle.tl_client.specs.declared.verdict.Verdict.TheVariants.{Taken};
ghost use Rattle.tl_client.specs.statement.Answer.{handed, told_by};
ghost use Rattle.tl_client.specs.statement.Ask.{asked};
ghost use Rattle.tl_client.specs.statement.Endpoint.{EndConfig, Endpoint};
ghost use Rattle.tl_client.specs.statement.Offer;
ghost use Rattle.tl_client.specs.statement.Offer.{offered};

use crate::answer::Answer;
use crate::operation::Op;
use crate::reply::Reply;
use crate::verdict::Verdict;
use tl_beat::beat::Beat;
use tl_beat::channel::Channel;
use tl_burst::message::Message;
use tl_rules::perm::Perm;
use tl_rules::rule::Rule;

/// A client. It stores no history: a contract speaks of every end of a link that the client represents.
///
/// A client must implement `ask`, `offer`, `stalls`, `held`, `copy` and `closed`. The other calls have bodies that use
/// these; a client may replace them by faster ones.
pub trait Agent<const W: usize>: Drop {
    /// The client is in a state that represents this end of its link.
    ghost represents: { Self → Endpoint W → Type 0 };

    /// The client's configuration.
    ghost terms: { Self → EndConfig };

    /// Answers an operation, and hands out a message if the operation starts. A `Busy` or `Miss` changes nothing. A
    /// closed link makes no difference.
    fn ask(&mut self, operation: Op<W>) -> (Reply, Option<Message<W>>)
        ensures reply { (e : Endpoint W) → represents self.old e →
            result.0 ≡ (asked (terms self.old) operation.entry e).reply }
        ensures message { (e : Endpoint W) → represents self.old e →
            result.1 ≡ (asked (terms self.old) operation.entry e).message }
        ensures after { (e : Endpoint W) → represents self.old e →
            represents self.new (asked (terms self.old) operation.entry e).after }
        ensures terms { terms self.new ≡ terms self.old };

    /// Takes a beat on this channel, stalls it, or refuses it by the first rule that it breaks. A beat that is taken
    /// may hand out a message. A refusal closes the link and changes nothing else. A stall changes nothing.
    fn offer(
        &mut self,
        channel: Channel,
        beat: &Beat<W>,
    ) -> Result<(Verdict, Option<Message<W>>), Rule>
        ensures answer { (e : Endpoint W) → represents self.old e →
            result ≡ (offered (terms self.old) channel beat.now e).answer }
        ensures after { (e : Endpoint W) → represents self.old e →
            represents self.new (offered (terms self.old) channel beat.now e).after }
        ensures terms { terms self.new ≡ terms self.old };

    /// Whether `offer` of this beat would answer `Stalled`.
    fn stalls(&self, channel: Channel, beat: &Beat<W>) -> bool
        ensures { (e : Endpoint W) → represents self.now e →
            result ≡ Offer.stalls (terms self.now) channel beat.now e };

    /// The permission held of a block: None if it is outside the map.
    fn held(&self, block: u16) -> Perm
        ensures { (e : Endpoint W) → represents self.now e → result ≡ History.held block e.past };

    /// The bytes of the copy of a block. There is a copy exactly if the permission held isn't None.
    fn copy(&self, block: u16) -> Option<[u8; 64]>
        ensures { (e : Endpoint W) → represents self.now e → result ≡ e.copies block };

    /// Whether a beat was refused.
    fn closed(&self) -> bool
        ensures { (e : Endpoint W) → represents self.now e → result ≡ e.closed };

    /// Answers an operation as `ask` does, but writes the message into `message`. It hands one out exactly with the
    /// reply `Started`; with any other reply `message` stays as it was.
    fn ask_into(&mut self, operation: &Op<W>, message: &mut Message<W>) -> Reply
        ensures reply { (e : Endpoint W) → represents self.old e →
            result ≡ (asked (terms self.old) operation.now e).reply }
        ensures message { (e : Endpoint W) → represents self.old e →
            handed result message.new ≡ (asked (terms self.old) operation.now e).message }
        ensures after { (e : Endpoint W) → represents self.old e →
            represents self.new (asked (terms self.old) operation.now e).after }
        ensures terms { terms self.new ≡ terms self.old }
        ensures left { handed result message.new ≡ None → message.new ≡ message.old }
    {
        let (reply, started) = self.ask(*operation);
        if reply.hands_out() {
            *message = started.unwrap_or(*message);
        }
        reply
    }

    /// Answers a Load as `ask` does. It hands out no message.
    fn ask_load(&mut self, address: u32, size: u8) -> Reply
        ensures reply { (e : Endpoint W) → represents self.old e →
            result ≡ (asked (terms self.old) (Load address size) e).reply }
        ensures message { (e : Endpoint W) → represents self.old e →
            None ≡ (asked (terms self.old) (Load address size) e).message }
        ensures after { (e : Endpoint W) → represents self.old e →
            represents self.new (asked (terms self.old) (Load address size) e).after }
        ensures terms { terms self.new ≡ terms self.old }
    {
        self.ask(Op::Load { address, size }).0
    }

    /// Answers a Store as `ask` does. It hands out no message.
    fn ask_store(&mut self, address: u32, size: u8, value: u64) -> Reply
        ensures reply { (e : Endpoint W) → represents self.old e →
            result ≡ (asked (terms self.old) (Store address size value) e).reply }
        ensures message { (e : Endpoint W) → represents self.old e →
            None ≡ (asked (terms self.old) (Store address size value) e).message }
        ensures after { (e : Endpoint W) → represents self.old e →
            represents self.new (asked (terms self.old) (Store address size value) e).after }
        ensures terms { terms self.new ≡ terms self.old }
    {
        self.ask(Op::Store {
            address,
            size,
            value,
        })
        .0
    }

    /// Takes a beat, stalls it or refuses it as `offer` does, with a compact answer, but writes the bytes of the answer,
    /// of a copy or of a response, into `bytes`.
    fn offer_into(
        &mut self,
        channel: Channel,
        beat: &Beat<W>,
        bytes: &mut [u8; 64],
    ) -> Result<Answer, Rule>
        ensures answer { (e : Endpoint W) → represents self.old e →
            told_by result bytes.new ≡ (offered (terms self.old) channel beat.now e).answer }
        ensures after { (e : Endpoint W) → represents self.old e →
            represents self.new (offered (terms self.old) channel beat.now e).after }
        ensures terms { terms self.new ≡ terms self.old }
    {
        let (verdict, message) = self.offer(channel, beat)?;
        Ok(Answer::of(verdict, message, bytes))
    }

    /// Takes a beat that continues a message and doesn't complete it, as `offer` does, and returns whether it did. It
    /// may return false for such a beat too; then nothing changes, and `offer` has the answer.
    fn goes_on(&mut self, channel: Channel, beat: &Beat<W>) -> bool
        ensures answer { OnTrue result ((e : Endpoint W) → represents self.old e →
            Ok (Taken, None) ≡ (offered (terms self.old) channel beat.now e).answer) }
        ensures after { OnTrue result ((e : Endpoint W) → represents self.old e →
            represents self.new (offered (terms self.old) channel beat.now e).after) }
        ensures terms { terms self.new ≡ terms self.old }
        ensures unchanged { OnFalse result (self.new ≡ self.old) }
    {
        false
    }
}
