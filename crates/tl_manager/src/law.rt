//! Laws of the manager's answers.

ghost use Rattle.std.specs.Prelude.{◌≡◌, ◌<◌, ◌↔◌, ◌&&◌, ◌||◌, ℕ, Bool, List, []};
ghost use Rattle.std.specs.Prelude.{true, false, nat_lt, length, Some, if◌then◌else◌};
ghost use Rattle.tl_beat.specs.declared.beat.Beat.{Beat};
ghost use Rattle.tl_beat.specs.declared.beat.BeatC.{BeatC};
ghost use Rattle.tl_beat.specs.declared.beat.BeatE.{BeatE};
ghost use Rattle.tl_beat.specs.declared.beat.Link.{Link};
ghost use Rattle.tl_beat.specs.declared.channel.Channel.{Channel};
ghost use Rattle.tl_beat.specs.statement.Width.{IsWidth};
ghost use Rattle.tl_params.specs.declared.config.Config.{Config};
ghost use Rattle.tl_burst.specs.declared.message.Message.{Message};
ghost use Rattle.tl_burst.specs.declared.message.MessageA.{MessageA};
ghost use Rattle.tl_burst.specs.declared.message.MessageB.{MessageB};
ghost use Rattle.tl_burst.specs.declared.message.MessageC.{MessageC};
ghost use Rattle.tl_burst.specs.declared.message.MessageD.{MessageD};
ghost use Rattle.tl_burst.specs.statement.Burst.{IsBurst, beat_of};
ghost use Rattle.tl_burst.specs.statement.Messages.{History, unfinished};
ghost use Rattle.tl_params.specs.declared.key.Key.{Key};
ghost use Rattle.tl_params.specs.declared.key.Key.TheVariants.{RequestSource, AcquireOf, GrantSink, GrantAckOf};
ghost use Rattle.tl_params.specs.declared.perm.Perm.TheVariants as perm;
ghost use Rattle.tl_params.specs.declared.rule.Rule.{Rule};
ghost use Rattle.tl_rules.specs.statement.Admission.{payload_of, sent};
ghost use Rattle.tl_rules.specs.statement.Conformance.{Trace, on_link, comes_in_request};
ghost use Rattle.tl_rules.specs.statement.History.{block_at, pending, opens, closes, request_of};
ghost use Rattle.tl_rules.specs.statement.Legality.{is_one_of};
ghost use Rattle.tl_manager.specs.laws.After.{services_left, history_after, taken_after, is_of_clients, missing_after};
ghost use Rattle.tl_manager.specs.statement.Holders.{recorded, is_missing, clients_where, is_settled, is_unheld};
ghost use Rattle.tl_manager.specs.code.Kept.{IsTyped, IsKept, IsRising, IsAnswerLawful, is_stalled};
ghost use Rattle.tl_manager.specs.laws.Pending.{is_any, is_asking, is_acquiring, is_granted_to};
ghost use Rattle.tl_manager.specs.laws.Pending.{is_granted_with, is_awaited, IsNamed, IsProbed};
ghost use Rattle.tl_manager.specs.laws.Record.{recorded_after, is_of_block};
ghost use Rattle.tl_manager.specs.statement.Request.{request_carried};
ghost use Rattle.tl_manager.specs.statement.Service.{services, service_of_block};
ghost use Rattle.tl_manager.specs.statement.End.{End, fresh};
ghost use Rattle.tl_manager.specs.statement.Offer.{Refused, Stalled, refused, offered, stalls};

/// A manager's end keeps `IsKept` from the start. Each message that it hands out breaks no L rule at its link's level,
/// is neither corrupt nor denied, and has 64 bytes that are zero in the parts that no beat carries.
pub fn sends_lawfully<const W: usize>()
    requires { IsWidth W }
    ensures fresh { (config : Config) → IsKept {w = W} config fresh }
    ensures kept { (config : Config) (link : Link) (ch : Channel) (x : Beat W) (e : End W) →
        IsTyped x → IsKept config e → IsKept config (offered config link ch x e).1 }
    ensures lawful { (config : Config) (link : Link) (ch : Channel) (x : Beat W) (e : End W) →
        IsTyped x → IsKept config e → IsAnswerLawful config (offered config link ch x e).0 }
{}

/// `stalls` is true exactly if the answer to the beat is Stalled. Beats of channels C and E are never stalled.
pub fn stalls_requests<const W: usize>()
    ensures answered { (config : Config) (link : Link) (ch : Channel) (x : Beat W) (e : End W) →
        stalls config link ch x e ≡ is_stalled (offered config link ch x e).0 }
    ensures never_c { (config : Config) (link : Link) (ch : Channel) (x : BeatC W) (e : End W) →
        stalls config link ch (Beat.C x) e ≡ false }
    ensures never_e { (config : Config) (link : Link) (ch : Channel) (x : BeatE) (e : End W) →
        stalls {w = W} config link ch (Beat.E x) e ≡ false }
{}

/// The permission recorded after a beat: the one that the beat sets by completing a ProbeAck or Release, then the one
/// that a Grant gives which is handed out, otherwise the one before.
pub fn records_reports<const W: usize>()
    requires { IsWidth W }
    ensures { (config : Config) (link : Link) (ch : Channel) (x : Beat W) (e : End W) (client block : ℕ) →
        IsTyped x → IsKept config e →
        recorded client block (offered config link ch x e).1.trace
        ≡ recorded_after (offered config link ch x e).0 (link, x) e.trace client block }
{}

/// The requests in service after a beat. A request that the beat completes is added. A GrantAck ends its service, and
/// the answer to an access ends that of the access.
pub fn serves_requests<const W: usize>()
    requires { IsWidth W }
    ensures { (config : Config) (link : Link) (ch : Channel) (x : Beat W) (e : End W) →
        IsTyped x → IsKept config e →
        services (offered config link ch x e).1.trace
        ≡ services_left (offered config link ch x e).0 (link, x) e.trace }
{}

/// The history of each link after a beat has the beat if it was taken, and then the messages that are handed out, none
/// of which is unfinished. A ProbeAck is missing from its Probe until its last beat is taken.
pub fn extends_histories<const W: usize>()
    requires { IsWidth W }
    ensures history { (config : Config) (link : Link) (ch : Channel) (x : Beat W) (e : End W) (client : ℕ) →
        on_link client (offered config link ch x e).1.trace
        ≡ history_after (offered config link ch x e).0 (link, x) client (on_link client e.trace) }
    ensures unfinished { (config : Config) (link : Link) (ch : Channel) (x : Beat W) (e : End W) (client : ℕ)
        (other : Channel) →
        IsTyped x → IsKept config e → is_of_clients other ≡ true →
        unfinished other (on_link client (offered config link ch x e).1.trace)
        ≡ unfinished other (taken_after (offered config link ch x e).0 (link, x) client (on_link client e.trace)) }
    ensures missing { (config : Config) (link : Link) (ch : Channel) (x : Beat W) (e : End W) (client block : ℕ) →
        IsTyped x → IsKept config e →
        is_missing client block (offered config link ch x e).1.trace
        ≡ missing_after (offered config link ch x e).0 (link, x) e.trace client block }
{}

/// The pending keys of each link follow from the requests in service:
/// - a source from an unanswered request with it, or an unfinished one;
/// - an Acquire and a GrantAck of a block from its service, and a sink from the tracker of a granted one;
/// - a Probe from an unanswered request for its block.
///
/// The last request with a service's source and the sink of its Grant are the service's. A service that isn't granted
/// waits for a ProbeAck.
pub fn accounts_for_pending<const W: usize>()
    ensures source { (config : Config) (e : End W) (client source : ℕ) → IsKept config e →
        pending (RequestSource source) (on_link client e.trace)
        ≡ (comes_in_request source (unfinished Channel.A (on_link client e.trace))
        || is_any (is_asking client source e.trace) (services e.trace)) }
    ensures acquire { (config : Config) (e : End W) (client block : ℕ) → IsKept config e →
        pending (AcquireOf block) (on_link client e.trace)
        ≡ is_acquiring client e.trace (service_of_block block (services e.trace)) }
    ensures grant { (config : Config) (e : End W) (client block : ℕ) → IsKept config e →
        pending (GrantAckOf block) (on_link client e.trace)
        ≡ is_granted_to client e.trace (service_of_block block (services e.trace)) }
    ensures sink { (config : Config) (e : End W) (client sink : ℕ) → IsKept config e →
        pending (GrantSink sink) (on_link client e.trace)
        ≡ is_any (is_granted_with client sink e.trace) (services e.trace) }
    ensures named { (config : Config) (e : End W) (block : ℕ) → IsKept config e →
        IsNamed block e.trace (service_of_block block (services e.trace)) }
    ensures probe { (config : Config) (e : End W) (client block : ℕ) → IsKept config e →
        is_missing client block e.trace ≡ true → IsProbed client block e.trace }
    ensures awaited { (config : Config) (e : End W) (block : ℕ) → IsKept config e →
        is_awaited config block e.trace (service_of_block block (services e.trace)) ≡ true }
{}

/// `clients_where` finds each client for which the test is true, once and in rising order. A block is settled exactly
/// if no client's ProbeAck is missing, and unheld exactly if no client is recorded with a copy.
pub fn finds_clients<const W: usize>()
    ensures found { (config : Config) (test : ℕ → Bool) (client : ℕ) →
        is_one_of client (clients_where config test) ≡ (nat_lt client (length config.clients.items) && test client) }
    ensures rising { (config : Config) (test : ℕ → Bool) → IsRising (clients_where config test) }
    ensures settled { (config : Config) (block : ℕ) (t : Trace W) →
        (is_settled config block t ≡ true) ↔ ((client : ℕ) → client < length config.clients.items →
        is_missing client block t ≡ false) }
    ensures unheld { (config : Config) (block : ℕ) (t : Trace W) →
        (is_unheld config block t ≡ true) ↔ ((client : ℕ) → client < length config.clients.items →
        recorded client block t ≡ perm.None) }
{}

/// The request made from the beats of a message is that message. The data of a message of channel C are its payload.
/// Payloads have 64 bytes.
pub fn assembles_messages<const W: usize>()
    requires { IsWidth W }
    ensures request { (m : MessageA W) (beats : List (Beat W)) → length m.payload ≡ 64 →
        IsBurst (Message.A m) beats → request_carried beats ≡ Some m }
    ensures data { (m : MessageC W) (beats : List (Beat W)) → length m.payload ≡ 64 →
        IsBurst (Message.C m) beats → payload_of beats ≡ m.payload }
{}

/// A beat changes memory only in its own block. A refusal closes the link and changes nothing else. A stall changes
/// nothing.
pub fn keeps_the_rest<const W: usize>()
    requires { IsWidth W }
    ensures memory { (config : Config) (link : Link) (ch : Channel) (x : Beat W) (e : End W) (address : ℕ) →
        IsTyped x → IsKept config e → is_of_block (block_at address) x ≡ false →
        (offered config link ch x e).1.memory address ≡ e.memory address }
    ensures refusal { (config : Config) (link : Link) (ch : Channel) (x : Beat W) (e : End W) (rule : Rule) →
        (offered config link ch x e).0 ≡ Refused rule → (offered config link ch x e).1 ≡ refused link e }
    ensures stall { (config : Config) (link : Link) (ch : Channel) (x : Beat W) (e : End W) →
        (offered config link ch x e).0 ≡ Stalled → (offered config link ch x e).1 ≡ e }
{}

/// A link's history after a Probe, an answer or a Grant was handed out, if none was unfinished. The keys that the
/// message opens are pending, and those that it closes aren't. An answer leaves the last requests as they were.
pub fn hands_out_whole<const W: usize>()
    requires { IsWidth W }
    ensures probe { (m : MessageB W) (key : Key) (t : History W) → unfinished Channel.B t ≡ [] →
        pending key (sent (Message.B m) t)
        ≡ (if opens key (beat_of (Message.B m) 0) t then true else pending key t) }
    ensures answer { (m : MessageD W) (key : Key) (t : History W) → unfinished Channel.D t ≡ [] →
        pending key (sent (Message.D m) t)
        ≡ (if opens key (beat_of (Message.D m) 0) t then true
        else if closes key (beat_of (Message.D m) 0) t then false else pending key t) }
    ensures requests { (m : MessageD W) (source : ℕ) (t : History W) →
        request_of source (sent (Message.D m) t) ≡ request_of source t }
{}
