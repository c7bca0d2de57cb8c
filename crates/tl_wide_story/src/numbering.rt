//! The lines of a wide trace, by the beats that its wide beats become.

ghost use Rattle.std.specs.Prelude.{◌≡◌, ◌++◌, [], ◌∷◌, count_by, nat_le, OnOk};
ghost use Rattle.tl_wide_story.specs.statement.WideNaming.{line_of};

use std::alloc::{AllocError, Global};

/// The numbers with which the later parts of wide beats were recorded.
#[derive(Drop)]
pub struct Numbering {
    pub later: Vec<u64>,
}

impl Numbering {
    /// No beat was recorded.
    pub fn new(alloc: Global) -> Self
        ensures { result.later.items ≡ [] }
    {
        Numbering {
            later: Vec::new(alloc),
        }
    }

    /// Notes that a beat which isn't the first part of its wide beat is recorded with this number.
    pub fn note_later(&mut self, number: u64) -> Result<(), AllocError>
        ensures { OnOk result (self.new.later.items ≡ self.old.later.items ++ number ∷ []) }
    {
        self.later.push(number)?;
        Ok(())
    }

    /// The number of later parts that were recorded up to a number.
    fn later_up_to(&self, recorded: u128) -> usize
        ensures { result ≡ count_by (λ m. nat_le m recorded) self.now.later.items }
    {
        self.later
            .iter()
            .filter(|number| u128::from(**number) <= recorded)
            .count()
    }

    /// The number of the line of the wide beat whose part was recorded with this number.
    pub fn line_of(&self, recorded: u128) -> u128
        ensures { result ≡ line_of self.now.later.items recorded }
    {
        recorded.saturating_sub(self.later_up_to(recorded) as u128)
    }
}
