//! Laws of the history after a message, and of the effect of a message.

ghost use Rattle.std.specs.Prelude.{ℕ, suc, true, [], ◌++◌, None, is_some, length};
ghost use Rattle.std.specs.Prelude.{◌≡◌, ◌<◌, ◌≤◌, ◌+◌, ◌*◌, ◌/◌, ◌%◌, ◌^◌, List};
ghost use Rattle.tl_beat.specs.declared.beat.Beat.{Beat};
ghost use Rattle.tl_beat.specs.declared.channel.Channel.{Channel};
ghost use Rattle.tl_beat.specs.statement.Width.{IsWidth};
ghost use Rattle.tl_burst.specs.declared.message.Message.{Message};
ghost use Rattle.tl_burst.specs.declared.message.MessageA.{MessageA};
ghost use Rattle.tl_burst.specs.statement.Burst.{beats_of, beat_of, begun};
ghost use Rattle.tl_burst.specs.statement.Messages;
ghost use Rattle.tl_burst.specs.statement.Messages.{History, channel_in};
ghost use Rattle.tl_params.specs.declared.key.Key.{Key};
ghost use Rattle.tl_params.specs.declared.level.Level.{Level};
ghost use Rattle.tl_params.specs.declared.profile.Profile.{Profile};
ghost use Rattle.tl_rules.specs.statement.Admission.{sent, payload_of};
ghost use Rattle.tl_rules.specs.statement.Conformance.{broken_in_order, broken_after};
ghost use Rattle.tl_rules.specs.statement.Legality.{illegal_message};
ghost use Rattle.tl_rules.specs.statement.Effect.{Memory, SameBlock};
ghost use Rattle.tl_rules.specs.statement.Effect;
ghost use Rattle.tl_rules.specs.laws.Handed.{pending_with, held_with, request_with};
ghost use Rattle.tl_rules.specs.laws.Handed.{release_with, probe_with, sink_with};
ghost use Rattle.tl_rules.specs.statement.History;
ghost use Rattle.tl_rules.specs.laws.Typed.{IsTyped, AreTyped, HasBlock};

/// If a message is handed out on a channel without an unfinished message, the history shows the effect of its first
/// beat alone.
pub fn hands_out_whole<const W: usize>()
    requires { IsWidth W }
    ensures unfinished { (m : Message W) (ch : Channel) (t : History W) → Messages.unfinished (channel_in m) t ≡ [] →
        Messages.unfinished ch (sent m t) ≡ Messages.unfinished ch t }
    ensures pending { (m : Message W) (key : Key) (t : History W) → Messages.unfinished (channel_in m) t ≡ [] →
        History.pending key (sent m t) ≡ pending_with key m t }
    ensures held { (m : Message W) (block : ℕ) (t : History W) → Messages.unfinished (channel_in m) t ≡ [] →
        History.held block (sent m t) ≡ held_with block m t }
    ensures request { (m : Message W) (source : ℕ) (t : History W) → Messages.unfinished (channel_in m) t ≡ [] →
        History.request_of source (sent m t) ≡ request_with source m (History.request_of source t) }
    ensures release { (m : Message W) (source : ℕ) (t : History W) → Messages.unfinished (channel_in m) t ≡ [] →
        History.release_of source (sent m t) ≡ release_with source m (History.release_of source t) }
    ensures probe { (m : Message W) (block : ℕ) (t : History W) → Messages.unfinished (channel_in m) t ≡ [] →
        History.probe_of block (sent m t) ≡ probe_with block m (History.probe_of block t) }
    ensures sink { (m : Message W) (block : ℕ) (t : History W) → Messages.unfinished (channel_in m) t ≡ [] →
        History.grant_sink block (sent m t) ≡ sink_with block m t }
{}

/// If a request, a Release or a Probe is pending, the history has that message.
pub fn names_what_is_pending<const W: usize>()
    ensures request { (source : ℕ) (t : History W) →
        History.pending (Key.RequestSource source) t ≡ true → is_some (History.request_of source t) ≡ true }
    ensures release { (source : ℕ) (t : History W) →
        History.pending (Key.ReleaseSource source) t ≡ true → is_some (History.release_of source t) ≡ true }
    ensures probe { (block : ℕ) (t : History W) →
        History.pending (Key.ProbeOf block) t ≡ true → is_some (History.probe_of block t) ≡ true }
{}

/// A beat that continues its message breaks no rule of order. If a message breaks no L rule and its first beat breaks
/// no rule of order, none of its beats breaks a rule.
pub fn goes_on_lawfully<const W: usize>()
    ensures later { (profile : Profile) (m : Message W) (i : ℕ) (t : History W) →
        Messages.unfinished (channel_in m) t ≡ begun m (suc i) → broken_in_order profile (beat_of m (suc i)) t ≡ None }
    ensures message { (level : Level) (profile : Profile) (m : Message W) (i : ℕ) (t : History W) →
        illegal_message level (channel_in m) m ≡ None → broken_in_order profile (beat_of m 0) t ≡ None →
        Messages.unfinished (channel_in m) t ≡ [] → i < beats_of m →
        broken_after level profile (beat_of m i) (begun m i ++ t) ≡ None }
{}

/// If a message's payload has 64 bytes, its beats are typed. If beats are typed and fit into a block, their payload has
/// 64 bytes.
pub fn keeps_types<const W: usize>()
    requires { IsWidth W }
    ensures beats { (m : Message W) (i : ℕ) → HasBlock m → i < beats_of m → IsTyped (beat_of m i) }
    ensures payload { (beats : List (Beat W)) → AreTyped beats → W * length beats ≤ 64 →
        length (payload_of beats) ≡ 64 }
{}

/// The effect of an access on its block, and its answer, depend on that block alone.
pub fn acts_on_its_block<const W: usize>()
    ensures after { (m : MessageA W) (f g : Memory) → m.address % 64 + 2 ^ m.size ≤ 64 →
        SameBlock (m.address / 64) f g →
        SameBlock (m.address / 64) (Effect.after m.opcode m f) (Effect.after m.opcode m g) }
    ensures reply { (m : MessageA W) (f g : Memory) → m.address % 64 + 2 ^ m.size ≤ 64 →
        SameBlock (m.address / 64) f g →
        Effect.access_result m.opcode m f ≡ Effect.access_result m.opcode m g }
{}
