//! The messages that open and close a key.

ghost use Rattle.std.specs.Prelude.{ℕ, ◌≡◌};
ghost use Rattle.tl_burst.specs.statement.Messages.{History};
ghost use Rattle.tl_explain.specs.code.Recorded.{block_of, comes_by};
ghost use Rattle.tl_params.specs.declared.key.Key.TheVariants.{GrantAckOf};
ghost use Rattle.tl_rules.specs.statement.History as history;

use tl_beat::beat::Beat;
use tl_beat::control::Control;
use tl_params::key::Key;
use tl_rules::kind::{is_acquire, is_grant, is_probe, is_probe_ack, is_release, is_release_ack};

/// Whether a message that begins with this beat, and is of this block, opens the key.
#[inline(always)]
pub fn opens<const W: usize>(key: Key, beat: &Beat<W>, block: Option<u32>) -> bool
    ensures { (t : History W) → block ≡ block_of beat.now t → result ≡ history.opens key beat.now t }
{
    match (key, beat) {
        (Key::RequestSource(source), Beat::A(x)) => x.source == source,
        (Key::ReleaseSource(source), Beat::C(x)) => is_release(x.opcode) && x.source == source,
        (Key::AcquireOf(of), Beat::A(x)) => is_acquire(x.opcode) && block == Some(of),
        (Key::ReleaseOf(of), Beat::C(x)) => is_release(x.opcode) && block == Some(of),
        (Key::GrantSink(sink), Beat::D(x)) => is_grant(x.opcode) && x.sink == sink,
        (Key::GrantAckOf(of), Beat::D(x)) => is_grant(x.opcode) && block == Some(of),
        (Key::ProbeOf(of), Beat::B(x)) => is_probe(x.opcode) && block == Some(of),
        _ => false,
    }
}

/// Whether a message that this beat completes, and that is of this block, closes the key. `granted` is the sink of the
/// last Grant that opened the key.
#[inline(always)]
pub fn closes<const W: usize>(
    key: Key,
    beat: &Beat<W>,
    block: Option<u32>,
    granted: Option<u8>,
) -> bool
    ensures { (t : History W) → block ≡ block_of beat.now t →
        ((b : ℕ) → key ≡ GrantAckOf b → granted ≡ history.grant_sink b t) →
        result ≡ history.closes key beat.now t }
{
    match (key, beat) {
        (Key::RequestSource(source), Beat::D(x)) => {
            !is_release_ack(x.opcode) && x.source == source
        }
        (Key::ReleaseSource(source), Beat::D(x)) => is_release_ack(x.opcode) && x.source == source,
        (Key::AcquireOf(of), Beat::D(x)) => is_grant(x.opcode) && block == Some(of),
        (Key::ReleaseOf(of), Beat::D(x)) => is_release_ack(x.opcode) && block == Some(of),
        (Key::GrantSink(sink), Beat::E(x)) => x.sink == sink,
        (Key::GrantAckOf(_), Beat::E(x)) => granted == Some(x.sink),
        (Key::ProbeOf(of), Beat::C(x)) => is_probe_ack(x.opcode) && block == Some(of),
        _ => false,
    }
}

/// Whether the burst with this newest beat is of a message that opens the key, by its source or sink.
pub fn comes(key: Key, newest: &Control) -> bool
    ensures { result ≡ comes_by key newest.now }
{
    match (key, newest) {
        (Key::RequestSource(source), Control::A(x)) => x.source == source,
        (Key::ReleaseSource(source), Control::C(x)) => is_release(x.opcode) && x.source == source,
        (Key::GrantSink(sink), Control::D(x)) => is_grant(x.opcode) && x.sink == sink,
        _ => false,
    }
}
