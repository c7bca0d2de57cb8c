//! Laws: a commit names its block alone, and the beats of a wide trace without commits have the names that `tl_wide` gives them.

ghost use Rattle.std.specs.Prelude.{◌≡◌, ◌∷◌, ℕ, List, Some, map};
ghost use Rattle.tl_beat.specs.declared.beat.Link.{Link};
ghost use Rattle.tl_rules.specs.statement.History.{block_at};
ghost use Rattle.tl_wide.specs.statement.Naming.{WideTrace, blocks, sinks, sources, with_number};
ghost use Rattle.tl_wide.specs.statement.Narrowed.{asked_address};
ghost use Rattle.tl_wide_events.specs.declared.commit.WideCommit.{WideCommit};
ghost use Rattle.tl_wide_events.specs.declared.commit.WideEvent.TheVariants as wide;
ghost use Rattle.tl_wide_events.specs.statement.Narrowed.{WideEvents, address_of, names_of};

/// After a commit the blocks of a trace are those before it and that of the commit. Sources, sinks and the addresses of
/// requests are as before.
pub fn commit_names_its_block()
    ensures blocks { (w : ℕ) (link : Link) (x : WideCommit) (t : WideEvents w) →
        blocks (names_of ((link, wide.Commit x) ∷ t)) ≡ with_number (Some (block_at (address_of x))) (blocks (names_of t)) }
    ensures sources { (w from : ℕ) (link : Link) (x : WideCommit) (t : WideEvents w) →
        sources from (names_of ((link, wide.Commit x) ∷ t)) ≡ sources from (names_of t) }
    ensures sinks { (w : ℕ) (link : Link) (x : WideCommit) (t : WideEvents w) →
        sinks (names_of ((link, wide.Commit x) ∷ t)) ≡ sinks (names_of t) }
    ensures asked { (w source : ℕ) (link on : Link) (x : WideCommit) (t : WideEvents w) →
        asked_address on source (names_of ((link, wide.Commit x) ∷ t)) ≡ asked_address on source (names_of t) }
{}

/// The names of a trace without commits are those of its beats.
pub fn beats_name_as_before()
    ensures { (w : ℕ) (t : WideTrace w) → names_of (map (λ x. (x.0, wide.Beat x.1)) t) ≡ t }
{}
