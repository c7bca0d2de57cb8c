//! The permission held of a block, and the message that left it.

ghost use Rattle.std.specs.Prelude.{ℕ, ◌≡◌, ◌&&◌, [], if◌then◌else◌, is_some, unwrap_or, Some};
ghost use Rattle.tl_explain.specs.code.Recorded.{IsHeld};
ghost use Rattle.tl_params.specs.declared.liberties.Liberties.{Liberties};

use crate::told::Told;
use tl_params::perm::Perm;

/// The permission held of a block, and the message that left it, if there was one.
#[derive(Clone, Copy)]
pub struct Held {
    pub perm: Perm,
    pub since: Option<Told>,
}

impl Held {
    /// None is held before a message sets a permission.
    pub fn new() -> Self
        ensures { (w n k : ℕ) (l : Liberties) → IsHeld {w = w} result l n k [] }
    {
        Held {
            perm: Perm::None,
            since: None,
        }
    }

    /// Takes the permission that a message sets, if this beat completes the message.
    pub fn take(&mut self, last: bool, said: Option<Perm>, told: &Told)
        ensures perm { self.new.perm ≡ (if last then unwrap_or said self.old.perm else self.old.perm) }
        ensures since { self.new.since ≡ (if last && is_some said then Some told.now else self.old.since) }
    {
        let Some(perm) = said else {
            return;
        };
        if last {
            *self = Held {
                perm,
                since: Some(*told),
            };
        }
    }
}
