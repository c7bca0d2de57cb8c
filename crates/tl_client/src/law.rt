//! Laws of a client.

ghost use Rattle.std.specs.Prelude.{ℕ, if◌then◌else◌, ◌≡◌, ◌<◌, ◌≤◌, ◌+◌, ◌%◌, ◌^◌, ◌||◌, [], true};
ghost use Rattle.std.specs.Prelude.{false, length, slice_index_or, List, Option, None, Some, Ok, Err};
ghost use Rattle.tl_beat.specs.declared.beat.Beat.{Beat};
ghost use Rattle.tl_beat.specs.declared.beat.BeatD.{BeatD};
ghost use Rattle.tl_beat.specs.declared.channel.Channel.{Channel};
ghost use Rattle.tl_beat.specs.declared.channel.Channel.TheVariants as channel;
ghost use Rattle.tl_beat.specs.statement.Width.{IsWidth};
ghost use Rattle.tl_burst.specs.declared.message.Message.{Message};
ghost use Rattle.tl_burst.specs.statement.Messages.{unfinished};
ghost use Rattle.tl_params.specs.declared.key.Key.{Key};
ghost use Rattle.tl_params.specs.declared.rule.Rule.{Rule};
ghost use Rattle.tl_rules.specs.statement.Admission.{sent_if_any};
ghost use Rattle.tl_params.specs.declared.perm.Perm.TheVariants as perm;
ghost use Rattle.tl_rules.specs.statement.Conformance.{same_perm};
ghost use Rattle.tl_rules.specs.statement.Effect.{byte_of};
ghost use Rattle.tl_rules.specs.laws.Handed.{pending_if_any, request_if_any, release_if_any};
ghost use Rattle.tl_rules.specs.statement.History;
ghost use Rattle.tl_rules.specs.statement.History.{block_at, held};
ghost use Rattle.tl_rules.specs.laws.Typed.{IsTyped};
ghost use Rattle.tl_client.specs.declared.busy.Busy.{Busy};
ghost use Rattle.tl_client.specs.declared.operation.Op.{Op};
ghost use Rattle.tl_client.specs.declared.reply.Reply.TheVariants as reply;
ghost use Rattle.tl_client.specs.declared.verdict.Verdict.TheVariants as verdict;
ghost use Rattle.tl_client.specs.laws.Accounted.{IsAccounted};
ghost use Rattle.tl_client.specs.laws.After.{heard, handed, is_refused, copy_left, copy_by};
ghost use Rattle.tl_client.specs.laws.After.{waiting_left, waiting_by, open_by, release_by, IsStarted};
ghost use Rattle.tl_client.specs.statement.Ask.{asked, busy, is_word, loaded, copy_stored};
ghost use Rattle.tl_client.specs.laws.Bytes.{IsTypedOp, HasBytes};
ghost use Rattle.tl_client.specs.statement.Endpoint.{EndConfig, Endpoint, copy_at, fresh, shut};
ghost use Rattle.tl_client.specs.laws.Inside.{IsInside};
ghost use Rattle.tl_client.specs.statement.EndpointInvariant.{IsEndpointInvariant, holds};
ghost use Rattle.tl_client.specs.laws.Held.{left_by, held_by};
ghost use Rattle.tl_client.specs.statement.Requests.{open_beat, open_release};
ghost use Rattle.tl_client.specs.laws.Sound.{IsSoundIfAny, IsSoundAnswer, IsProperIfAny, IsProperAnswer, IsLegalAfter};
ghost use Rattle.tl_client.specs.statement.Offer.{offered, stalls, is_stalled, taken};
ghost use Rattle.tl_client.specs.statement.Offer.{waits, broken_before, broken_later};

/// `stalls` is true exactly if the answer to the beat is Stalled.
pub fn stalls_as_answered<const W: usize>()
    ensures { (terms : EndConfig) (ch : Channel) (x : Beat W) (e : Endpoint W) →
        stalls terms ch x e ≡ is_stalled (offered terms ch x e).answer }
{}

/// The permission held of a block after an operation is the one before it, except that a Release that starts leaves the
/// right end of its prune. Messages on channel C must have been handed out whole.
pub fn held_after_asked<const W: usize>()
    requires { IsWidth W }
    ensures { (terms : EndConfig) (op : Op W) (e : Endpoint W) (k : ℕ) → unfinished channel.C e.past ≡ [] →
        held k (asked terms op e).after.past ≡ left_by (busy terms op e) op k (held k e.past) }
{}

/// The permission held of a block after a beat is the one before it, except that a Probe that is taken leaves the right
/// end of its report, and that the last beat of a Grant gives its cap.
pub fn held_after_offered<const W: usize>()
    requires { IsWidth W }
    ensures { (terms : EndConfig) (ch : Channel) (x : Beat W) (e : Endpoint W) (k : ℕ) →
        unfinished channel.C e.past ≡ [] →
        held k (offered terms ch x e).after.past ≡ held_by (offered terms ch x e).answer x e.past k }
{}

/// A message that a client hands out breaks no L rule at its level, and no corrupt bit of it is set.
pub fn hands_out_sound_messages<const W: usize>()
    requires { IsWidth W }
    ensures asked { (terms : EndConfig) (op : Op W) (e : Endpoint W) →
        IsSoundIfAny terms.level (asked terms op e).message }
    ensures offered { (terms : EndConfig) (ch : Channel) (x : Beat W) (e : Endpoint W) →
        IsSoundAnswer terms.level (offered terms ch x e).answer }
{}

/// A client keeps `IsEndpointInvariant`: whole messages, a copy exactly if the permission held isn't None, and the
/// bytes of each AcquirePerm until its Grant.
pub fn keeps<const W: usize>()
    requires { IsWidth W }
    ensures fresh { IsEndpointInvariant (fresh {w = W}) }
    ensures asked { (terms : EndConfig) (op : Op W) (e : Endpoint W) → IsEndpointInvariant e →
        IsEndpointInvariant (asked terms op e).after }
    ensures offered { (terms : EndConfig) (ch : Channel) (x : Beat W) (e : Endpoint W) → IsEndpointInvariant e →
        IsEndpointInvariant (offered terms ch x e).after }
{}

/// An operation starts with one of the client's own sources.
pub fn starts_with_own_sources<const W: usize>()
    ensures { (terms : EndConfig) (op : Op W) (e : Endpoint W) (s : ℕ) → (asked terms op e).reply ≡ reply.Started s →
        s < terms.sources }
{}

/// The history after a call is the one before it, then the beat if it was taken, then all beats of the message that is
/// handed out. The link is closed once a beat is refused.
pub fn remembers_what_passes<const W: usize>()
    ensures asked { (terms : EndConfig) (op : Op W) (e : Endpoint W) →
        (asked terms op e).after.past ≡ sent_if_any (asked terms op e).message e.past }
    ensures offered { (terms : EndConfig) (ch : Channel) (x : Beat W) (e : Endpoint W) →
        (offered terms ch x e).after.past
        ≡ sent_if_any (handed (offered terms ch x e).answer) (heard (offered terms ch x e).answer x e.past) }
    ensures asked_closed { (terms : EndConfig) (op : Op W) (e : Endpoint W) → (asked terms op e).after.closed
        ≡ e.closed }
    ensures offered_closed { (terms : EndConfig) (ch : Channel) (x : Beat W) (e : Endpoint W) →
        (offered terms ch x e).after.closed ≡ (e.closed || is_refused (offered terms ch x e).answer) }
{}

/// The copy of a block, and the bytes that wait for its Grant, after an operation and after a beat.
pub fn copies_after_calls<const W: usize>()
    ensures asked { (terms : EndConfig) (op : Op W) (e : Endpoint W) (k : ℕ) →
        (asked terms op e).after.copies k ≡ copy_left (busy terms op e) op k (held k e.past) (e.copies k) }
    ensures offered { (terms : EndConfig) (ch : Channel) (x : Beat W) (e : Endpoint W) (k : ℕ) →
        (offered terms ch x e).after.copies k ≡ copy_by (offered terms ch x e).answer x k e }
    ensures asked_waiting { (terms : EndConfig) (op : Op W) (e : Endpoint W) (k : ℕ) →
        (asked terms op e).after.waiting k ≡ waiting_left (busy terms op e) op k (e.waiting k) }
    ensures offered_waiting { (terms : EndConfig) (ch : Channel) (x : Beat W) (e : Endpoint W) (k : ℕ) →
        (offered terms ch x e).after.waiting k ≡ waiting_by (offered terms ch x e).answer x k e }
{}

/// The unfinished bursts, the pending keys and the last request and Release with a source, after an operation, in terms
/// of the message that it hands out.
pub fn pending_after_asked<const W: usize>()
    requires { IsWidth W }
    ensures unfinished { (terms : EndConfig) (op : Op W) (e : Endpoint W) (ch : Channel) → IsEndpointInvariant e →
        unfinished ch (asked terms op e).after.past ≡ unfinished ch e.past }
    ensures pending { (terms : EndConfig) (op : Op W) (e : Endpoint W) (key : Key) → IsEndpointInvariant e →
        History.pending key (asked terms op e).after.past ≡ pending_if_any key (asked terms op e).message e.past }
    ensures request { (terms : EndConfig) (op : Op W) (e : Endpoint W) (s : ℕ) → IsEndpointInvariant e →
        History.request_of s (asked terms op e).after.past
        ≡ request_if_any s (asked terms op e).message (History.request_of s e.past) }
    ensures release { (terms : EndConfig) (op : Op W) (e : Endpoint W) (s : ℕ) → IsEndpointInvariant e →
        History.release_of s (asked terms op e).after.past
        ≡ release_if_any s (asked terms op e).message (History.release_of s e.past) }
{}

/// The same after a beat, in terms of its answer. The last request and Release with a source are as before.
pub fn pending_after_offered<const W: usize>()
    requires { IsWidth W }
    ensures unfinished { (terms : EndConfig) (ch : Channel) (x : Beat W) (e : Endpoint W) (at : Channel) →
        IsEndpointInvariant e →
        unfinished at (offered terms ch x e).after.past ≡ unfinished at (heard (offered terms ch x e).answer x e.past) }
    ensures pending { (terms : EndConfig) (ch : Channel) (x : Beat W) (e : Endpoint W) (key : Key) →
        IsEndpointInvariant e →
        History.pending key (offered terms ch x e).after.past
        ≡ pending_if_any key (handed (offered terms ch x e).answer) (heard (offered terms ch x e).answer x e.past) }
    ensures request { (terms : EndConfig) (ch : Channel) (x : Beat W) (e : Endpoint W) (s : ℕ) → IsEndpointInvariant e →
        History.request_of s (offered terms ch x e).after.past ≡ History.request_of s e.past }
    ensures release { (terms : EndConfig) (ch : Channel) (x : Beat W) (e : Endpoint W) (s : ℕ) → IsEndpointInvariant e →
        History.release_of s (offered terms ch x e).after.past ≡ History.release_of s e.past }
{}

/// The pending request and the pending Release with a source, after an operation and after a beat.
pub fn open_after_calls<const W: usize>()
    requires { IsWidth W }
    ensures asked { (terms : EndConfig) (op : Op W) (e : Endpoint W) (s : ℕ) → IsEndpointInvariant e →
        open_beat s (asked terms op e).after.past ≡ request_if_any s (asked terms op e).message (open_beat s e.past) }
    ensures asked_release { (terms : EndConfig) (op : Op W) (e : Endpoint W) (s : ℕ) → IsEndpointInvariant e →
        open_release s (asked terms op e).after.past
        ≡ release_if_any s (asked terms op e).message (open_release s e.past) }
    ensures offered { (terms : EndConfig) (ch : Channel) (x : Beat W) (e : Endpoint W) (s : ℕ) → IsEndpointInvariant e →
        open_beat s (offered terms ch x e).after.past ≡ open_by s (offered terms ch x e).answer x e.past }
    ensures offered_release { (terms : EndConfig) (ch : Channel) (x : Beat W) (e : Endpoint W) (s : ℕ) →
        IsEndpointInvariant e →
        open_release s (offered terms ch x e).after.past ≡ release_by s (offered terms ch x e).answer x e.past }
{}

/// A client accounts for its pending keys. Each pending Acquire or Release of a block is one pending message, and there
/// are never both. Each Probe has been answered. Only the GrantAck of an unfinished Grant is pending.
pub fn keeps_account<const W: usize>()
    requires { IsWidth W }
    ensures fresh { IsAccounted {w = W} [] }
    ensures asked { (terms : EndConfig) (op : Op W) (e : Endpoint W) → IsEndpointInvariant e → IsAccounted e.past →
        IsAccounted (asked terms op e).after.past }
    ensures offered { (terms : EndConfig) (ch : Channel) (x : Beat W) (e : Endpoint W) → IsEndpointInvariant e →
        IsAccounted e.past → IsAccounted (offered terms ch x e).after.past }
{}

/// A client asks for and holds only blocks of the map, and none at TL-UL and TL-UH. It uses only its own sources.
pub fn keeps_inside<const W: usize>()
    requires { IsWidth W }
    ensures fresh { (terms : EndConfig) → IsInside {w = W} terms [] }
    ensures asked { (terms : EndConfig) (op : Op W) (e : Endpoint W) → IsEndpointInvariant e → IsInside terms e.past →
        IsInside terms (asked terms op e).after.past }
    ensures offered { (terms : EndConfig) (ch : Channel) (x : Beat W) (e : Endpoint W) → IsEndpointInvariant e →
        IsInside terms e.past → IsInside terms (offered terms ch x e).after.past }
{}

/// An operation hands out a message exactly if it starts. The message has the source that the reply names, which was
/// free.
pub fn starts_with_a_message<const W: usize>()
    ensures { (terms : EndConfig) (op : Op W) (e : Endpoint W) →
        IsStarted (asked terms op e).reply (asked terms op e).message e.past }
{}

/// A `Busy`, a miss, a Load and a stall change nothing. A refusal closes the link and changes nothing else.
pub fn changes_nothing<const W: usize>()
    ensures busy { (terms : EndConfig) (op : Op W) (e : Endpoint W) (b : Busy) →
        (asked terms op e).reply ≡ reply.Busy b → (asked terms op e).after ≡ e }
    ensures miss { (terms : EndConfig) (op : Op W) (e : Endpoint W) → (asked terms op e).reply ≡ reply.Miss →
        (asked terms op e).after ≡ e }
    ensures load { (terms : EndConfig) (address size : ℕ) (e : Endpoint W) →
        (asked terms (Op.Load address size) e).after ≡ e }
    ensures stall { (terms : EndConfig) (ch : Channel) (x : Beat W) (e : Endpoint W) (m : Option (Message W)) →
        (offered terms ch x e).answer ≡ Ok (verdict.Stalled, m) → (offered terms ch x e).after ≡ e }
    ensures refusal { (terms : EndConfig) (ch : Channel) (x : Beat W) (e : Endpoint W) (rule : Rule) →
        (offered terms ch x e).answer ≡ Err rule → (offered terms ch x e).after ≡ shut e }
{}

/// A client takes a beat that breaks no rule and isn't stalled. It never stalls a beat of channel D.
pub fn takes_what_is_lawful<const W: usize>()
    ensures taken { (terms : EndConfig) (ch : Channel) (x : Beat W) (e : Endpoint W) →
        broken_before terms ch x e ≡ None → waits x e.past ≡ false → broken_later terms x e ≡ None →
        offered terms ch x e ≡ taken x e }
    ensures never_d { (terms : EndConfig) (ch : Channel) (x : BeatD W) (e : Endpoint W) →
        stalls terms ch (Beat.D x) e ≡ false }
{}

/// A client's copies, and the bytes that wait for its Grants, are 64 bytes each.
pub fn keeps_blocks<const W: usize>()
    requires { IsWidth W }
    ensures fresh { HasBytes (fresh {w = W}) }
    ensures asked { (terms : EndConfig) (op : Op W) (e : Endpoint W) → IsEndpointInvariant e → IsTypedOp op →
        HasBytes e → HasBytes (asked terms op e).after }
    ensures offered { (terms : EndConfig) (ch : Channel) (x : Beat W) (e : Endpoint W) → IsEndpointInvariant e →
        IsTyped x → HasBytes e → HasBytes (offered terms ch x e).after }
{}

/// A message that a client hands out has 64 bytes, is zero in the parts that no beat carries, and is inside the map.
pub fn hands_out_proper_messages<const W: usize>()
    requires { IsWidth W }
    ensures asked { (terms : EndConfig) (op : Op W) (e : Endpoint W) → IsTypedOp op → HasBytes e →
        IsProperIfAny terms.blocks (asked terms op e).message }
    ensures offered { (terms : EndConfig) (ch : Channel) (x : Beat W) (e : Endpoint W) → HasBytes e →
        IsProperAnswer terms.blocks (offered terms ch x e).answer }
{}

/// No beat of a message that a client hands out breaks a rule after the history of its end. The history has the beat
/// that the message answers, if it was taken.
pub fn breaks_no_rule<const W: usize>()
    requires { IsWidth W }
    ensures asked { (terms : EndConfig) (op : Op W) (e : Endpoint W) → IsEndpointInvariant e →
        IsLegalAfter terms.level terms.profile (asked terms op e).message e.past }
    ensures offered { (terms : EndConfig) (ch : Channel) (x : Beat W) (e : Endpoint W) → IsEndpointInvariant e →
        IsAccounted e.past →
        IsLegalAfter terms.level terms.profile (handed (offered terms ch x e).answer)
        (heard (offered terms ch x e).answer x e.past) }
{}

/// A Load reads the number in the copy, or misses if None is held. A Store is done if Trunk is held, and otherwise
/// misses.
pub fn reads_its_copy<const W: usize>()
    ensures load { (terms : EndConfig) (address size : ℕ) (e : Endpoint W) → busy terms (Op.Load address size) e
        ≡ None →
        (asked terms (Op.Load address size) e).reply
        ≡ (if holds (held (block_at address) e.past) then reply.Value
        (loaded address size (copy_at e (block_at address))) else reply.Miss) }
    ensures store { (terms : EndConfig) (address size value : ℕ) (e : Endpoint W) →
        busy terms (Op.Store address size value) e ≡ None →
        (asked terms (Op.Store address size value) e).reply
        ≡ (if same_perm perm.Trunk (held (block_at address) e.past) then reply.Stored else reply.Miss) }
{}

/// A Store writes the bytes of its value, the lowest first, and no other byte of the block.
pub fn stores_its_bytes()
    ensures long { (address size value : ℕ) (copy : List ℕ) → is_word address size ≡ true → length copy ≡ 64 →
        length (copy_stored address size value copy) ≡ 64 }
    ensures inside { (address size value j : ℕ) (copy : List ℕ) → is_word address size ≡ true → length copy ≡ 64 →
        j < 2 ^ size →
        slice_index_or (copy_stored address size value copy) (address % 64 + j) 0 ≡ byte_of value j }
    ensures below { (address size value i : ℕ) (copy : List ℕ) → is_word address size ≡ true → length copy ≡ 64 →
        i < address % 64 →
        slice_index_or (copy_stored address size value copy) i 0 ≡ slice_index_or copy i 0 }
    ensures above { (address size value i : ℕ) (copy : List ℕ) → is_word address size ≡ true → length copy ≡ 64 →
        address % 64 + 2 ^ size ≤ i →
        slice_index_or (copy_stored address size value copy) i 0 ≡ slice_index_or copy i 0 }
{}
