//! The permission that an unfinished Grant gives of a block.

ghost use Rattle.std.specs.Prelude.{◌≡◌, ◌&&◌, not, if◌then◌else◌, None, Some};
ghost use Rattle.tl_monitor.specs.code.Coming.{coming_in, given_by_control, is_for};
ghost use Rattle.tl_rules.specs.statement.History.{is_grant};
ghost use Rattle.tl_beat.specs.declared.control.Control.TheVariants as control;

use crate::bursts::Unfinished;
use crate::link_state::LinkState;
use tl_beat::control::{Control, ControlD};
use tl_rules::kind::{capped, is_grant};
use tl_rules::past::Request;
use tl_rules::perm::Perm;

/// Whether a request is for a block.
fn is_for(block: u32, asked: Option<Request>) -> bool
    ensures { result ≡ is_for block asked }
{
    match asked {
        None => false,
        Some(asked) => asked.block == block,
    }
}

/// The permission that a response gives of a block, if it is a Grant of the block that isn't denied, and its GrantAck is
/// pending.
fn given_by(state: &LinkState, block: u32, x: &ControlD) -> Option<Perm>
    ensures { result ≡ given_by_control block state.now (control.D x.now) }
{
    let of_block = is_for(block, state.requests.get(x.source));
    if is_grant(x.opcode) && of_block && !x.denied && state.blocks.get(block).grant.is_some() {
        Some(capped(x.param))
    } else {
        None
    }
}

impl LinkState {
    /// The permission that the unfinished Grant of a block gives, if one has begun that isn't denied and its GrantAck is
    /// pending.
    pub fn coming(&self, block: u32) -> Option<Perm>
        ensures { result ≡ coming_in block self.now }
    {
        match &self.bursts.d {
            Some(
                Unfinished {
                    control: Control::D(x),
                    ..
                },
            ) => given_by(self, block, x),
            _ => None,
        }
    }
}
