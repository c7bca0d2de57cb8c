//! The fields of a beat as the first profile would have them, if a liberty allows others.

ghost use Rattle.std.specs.Prelude.{◌≡◌};
ghost use Rattle.tl_rules.specs.code.Excused.{excused_denied, excused_param, excused_sink, excused_source, excused_probe_source};

use tl_beat::opcode::{OpC, OpD};
use tl_params::liberties::Liberties;
use tl_params::param::{Prune, Report};

/// The source of a Probe; under `ids` 0, the source that the first profile wants.
pub fn excused_probe_source(liberties: Liberties, source: u8) -> u8
    ensures { result ≡ excused_probe_source liberties source }
{
    if liberties.ids { 0 } else { source }
}

/// The source of a message of channel C; under `ids` 0 for a ProbeAck, as the first profile wants.
pub fn excused_source(liberties: Liberties, opcode: OpC, source: u8) -> u8
    ensures { result ≡ excused_source liberties opcode source }
{
    match opcode {
        OpC::ProbeAck | OpC::ProbeAckData if liberties.ids => 0,
        _ => source,
    }
}

/// The param of a message of channel C, or one of the first profile if `reports` allows this one.
pub fn excused_param(liberties: Liberties, opcode: OpC, param: u8) -> u8
    ensures { result ≡ excused_param liberties opcode param }
{
    match opcode {
        OpC::Release if liberties.reports && Report::from_param(param).is_some() => {
            Prune::BtoN.param()
        }
        OpC::ReleaseData if liberties.reports && param == Report::TtoT.param() => {
            Prune::TtoN.param()
        }
        _ => param,
    }
}

/// The sink of a response; under `sinks` 0, the sink that the first profile wants.
pub fn excused_sink(liberties: Liberties, sink: u8) -> u8
    ensures { result ≡ excused_sink liberties sink }
{
    if liberties.sinks { 0 } else { sink }
}

/// Whether a response is denied and no liberty allows that.
pub fn excused_denied(liberties: Liberties, opcode: OpD, denied: bool, corrupt: bool) -> bool
    ensures { result ≡ excused_denied liberties opcode denied corrupt }
{
    let allowed = match opcode {
        OpD::AccessAckData => liberties.uncorrupt,
        OpD::Grant => liberties.denied,
        OpD::GrantData => liberties.denied && corrupt,
        OpD::AccessAck | OpD::HintAck | OpD::ReleaseAck => false,
    };
    denied && !allowed
}
