//! Laws of a partner.

ghost use Rattle.std.specs.Prelude.{ℕ, ◌≡◌, List, ◌∷◌, [], ◌==◌, ◌&&◌, if◌then◌else◌, true, false};
ghost use Rattle.tl_beat.specs.declared.beat.Beat.{Beat};
ghost use Rattle.tl_beat.specs.declared.beat.Link.{Link};
ghost use Rattle.tl_beat.specs.declared.channel.Channel.{Channel};
ghost use Rattle.tl_beat.specs.statement.Width.{IsWidth};
ghost use Rattle.tl_params.specs.declared.config.Config.{Config};
ghost use Rattle.tl_params.specs.declared.perm.Perm.TheVariants as perm;
ghost use Rattle.tl_rules.specs.statement.Conformance.{Trace, on_link};
ghost use Rattle.tl_rules.specs.statement.Liberties.{held_under};
ghost use Rattle.tl_manager.specs.code.Kept.{IsKept, IsTyped};
ghost use Rattle.tl_manager.specs.statement.End.{End};
ghost use Rattle.tl_manager.specs.statement.Handing.{release_ack};
ghost use Rattle.tl_manager.specs.statement.Holders.{recorded};
ghost use Rattle.tl_manager.specs.statement.Offer.{Passes, Sent, judged, offered, open_level, stalls};
ghost use Rattle.tl_manager.specs.statement.Service.{services};
ghost use Rattle.tl_partner.specs.declared.terms.Terms.{Terms};
ghost use Rattle.tl_partner.specs.laws.Carried.{IsCarried, carried_after};
ghost use Rattle.tl_partner.specs.laws.Judged.{NamesRule, early_rule, first_rule};
ghost use Rattle.tl_partner.specs.laws.Offers.{AreTyped, Offer, after_offers};
ghost use Rattle.tl_partner.specs.laws.Without.{GrantsNone};
ghost use Rattle.tl_partner.specs.statement.Granting.{granted};
ghost use Rattle.tl_partner.specs.statement.Cleaning.{PartnerEnd, cleaning_on, fresh_partner};
ghost use Rattle.tl_partner.specs.statement.Partner.{beside, offered_under, stalls_under};
ghost use Rattle.tl_partner.specs.statement.Dropping.{after_drop, block_of, is_drop, is_reporting, release_beat};

/// Without liberties a partner's answer is the manager's, if no cleaning is unfinished on the link.
pub fn is_the_manager<const W: usize>()
    ensures offered { (terms : Terms) (config : Config) (link : Link) (ch : Channel) (x : Beat W) (e : PartnerEnd W) →
        GrantsNone terms → cleaning_on link e ≡ [] →
        offered_under terms config link ch x e ≡ beside (offered config link ch x e.manager) e }
    ensures stalls { (terms : Terms) (config : Config) (link : Link) (ch : Channel) (x : Beat W) (e : PartnerEnd W) →
        GrantsNone terms → cleaning_on link e ≡ [] →
        stalls_under terms config link ch x e ≡ stalls config link ch x e.manager }
{}

/// The permission recorded of a client and a block is the one that the beats carried on the link leave under the terms'
/// liberties, after any beats that were offered. This is true whenever the carried trace fits the manager's end, as it
/// does at the start and after any beat.
pub fn records_what_links_carried<const W: usize>()
    requires { IsWidth W }
    ensures fresh { (terms : Terms) (config : Config) → IsCarried {w = W} terms config [] (fresh_partner config) }
    ensures step { (terms : Terms) (config : Config) (link : Link) (ch : Channel) (x : Beat W) (t : Trace W)
        (e : PartnerEnd W) →
        IsTyped x → IsKept config e.manager → IsCarried terms config t e →
        IsCarried terms config (carried_after link x (offered_under terms config link ch x e).0 t)
        (offered_under terms config link ch x e).1 }
    ensures kept { (terms : Terms) (config : Config) (link : Link) (ch : Channel) (x : Beat W) (e : PartnerEnd W) →
        IsTyped x → IsKept config e.manager → IsKept config (offered_under terms config link ch x e).1.manager }
    ensures held { (terms : Terms) (config : Config) (t : Trace W) (e : PartnerEnd W) (client block : ℕ) →
        IsCarried terms config t e →
        held_under (granted terms) block (on_link client t) ≡ recorded client block e.manager.trace }
    ensures history { (terms : Terms) (config : Config) (offers : List (Offer W)) (client block : ℕ) →
        AreTyped offers →
        held_under (granted terms) block (on_link client (after_offers terms config offers).0)
        ≡ recorded client block (after_offers terms config offers).1.manager.trace }
{}

/// A refusal names the first rule that the beat breaks after the beats that its link carried, under the terms'
/// liberties. A beat that is taken breaks none. A beat that is stalled breaks none of the rules before a stall.
pub fn names_the_first_rule<const W: usize>()
    requires { IsWidth W }
    ensures step { (terms : Terms) (config : Config) (link : Link) (ch : Channel) (x : Beat W) (t : Trace W)
        (e : PartnerEnd W) →
        IsTyped x → IsKept config e.manager → IsCarried terms config t e →
        NamesRule (offered_under terms config link ch x e).0
        (first_rule (granted terms) config (open_level config link e.manager) link ch x t)
        (early_rule (granted terms) (open_level config link e.manager) link ch x t) }
    ensures history { (terms : Terms) (config : Config) (offers : List (Offer W)) (x : Offer W) →
        AreTyped offers → IsTyped x.beat →
        NamesRule (offered_under terms config x.link x.channel x.beat (after_offers terms config offers).1).0
        (first_rule (granted terms) config (open_level config x.link (after_offers terms config offers).1.manager)
        x.link x.channel x.beat (after_offers terms config offers).0)
        (early_rule (granted terms) (open_level config x.link (after_offers terms config offers).1.manager)
        x.link x.channel x.beat (after_offers terms config offers).0) }
{}

/// If a beat shows that its client dropped a copy, and no message of channel C is unfinished on the link, the manager
/// takes the Release that the client didn't send, and hands out only its answer. It then records None for the block.
/// The other permissions, the memory, the closed links and the requests in service stay. The beat then breaks no rule
/// and isn't stalled.
pub fn says_what_was_dropped<const W: usize>()
    requires { IsWidth W }
    ensures answered { (terms : Terms) (config : Config) (link : Link) (ch : Channel) (x : Beat W) (e : End W) →
        IsKept config e → is_drop terms config link ch x e ≡ true → is_reporting link e.trace ≡ false →
        (offered config link Channel.C (release_beat (block_of x) (recorded link.0 (block_of x) e.trace)) e).0
        ≡ Sent ((link, release_ack 0) ∷ []) }
    ensures recorded { (terms : Terms) (config : Config) (link : Link) (ch : Channel) (x : Beat W) (e : End W)
        (client block : ℕ) →
        IsKept config e → is_drop terms config link ch x e ≡ true → is_reporting link e.trace ≡ false →
        recorded client block (after_drop config link (block_of x) e).trace
        ≡ (if (link.0 == client) && (block_of x == block) then perm.None else recorded client block e.trace) }
    ensures memory { (terms : Terms) (config : Config) (link : Link) (ch : Channel) (x : Beat W) (e : End W) →
        IsKept config e → is_drop terms config link ch x e ≡ true → is_reporting link e.trace ≡ false →
        (after_drop config link (block_of x) e).memory ≡ e.memory }
    ensures closed { (terms : Terms) (config : Config) (link : Link) (ch : Channel) (x : Beat W) (e : End W) →
        IsKept config e → is_drop terms config link ch x e ≡ true → is_reporting link e.trace ≡ false →
        (after_drop config link (block_of x) e).closed ≡ e.closed }
    ensures services { (terms : Terms) (config : Config) (link : Link) (ch : Channel) (x : Beat W) (e : End W) →
        IsKept config e → is_drop terms config link ch x e ≡ true → is_reporting link e.trace ≡ false →
        services (after_drop config link (block_of x) e).trace ≡ services e.trace }
    ensures passes { (terms : Terms) (config : Config) (link : Link) (ch : Channel) (x : Beat W) (e : End W) →
        IsKept config e → is_drop terms config link ch x e ≡ true → is_reporting link e.trace ≡ false →
        judged config link ch x (after_drop config link (block_of x) e) ≡ Passes }
{}
