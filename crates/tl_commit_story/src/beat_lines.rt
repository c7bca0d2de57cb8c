//! The lines of the beats of a trace with commits.

ghost use Rattle.std.specs.Prelude.{◌++◌, [], ◌∷◌, ◌≡◌, count_by, nat_lt, OnOk};
ghost use Rattle.tl_commit_story.specs.code.Placing.{line_by};

use std::alloc::{AllocError, Global};
use tl_witness::places::Places;

/// The events of beats, which are numbered as in a trace without commits.
#[derive(Drop)]
pub struct BeatLines {
    /// The number of the last beat; 1, that of the header, before the first.
    pub last: u64,
    /// For each commit the number of the last beat before it.
    pub commits: Vec<u64>,
}

impl BeatLines {
    /// No event has come.
    pub fn new(alloc: Global) -> Self
        ensures last { result.last ≡ 1 }
        ensures commits { result.commits.items ≡ [] }
    {
        BeatLines {
            last: 1,
            commits: Vec::new(alloc),
        }
    }

    /// Notes a commit.
    pub fn note_commit(&mut self) -> Result<(), AllocError>
        ensures last { self.new.last ≡ self.old.last }
        ensures commits { OnOk result (self.new.commits.items ≡ self.old.commits.items ++ self.old.last ∷ []) }
    {
        self.commits.push(self.last)?;
        Ok(())
    }

    /// The number of commits that come before the beat with a number.
    fn before(&self, number: u128) -> usize
        ensures { result ≡ count_by (λ m. nat_lt m number) self.now.commits.items }
    {
        self.commits
            .iter()
            .filter(|last| u128::from(**last) < number)
            .count()
    }

    /// The line of the beat with a number, if each event is a line. A number that no beat has stays.
    fn event_line(&self, number: u128) -> u128
        ensures { result ≡ line_by self.now.last self.now.commits.items number }
    {
        if number > u128::from(self.last) {
            return number;
        }
        number + self.before(number) as u128
    }
}

/// Names beats, which are numbered as in a trace without commits, by the lines of their events.
#[derive(Drop)]
pub struct BeatPlaces<'a, X> {
    pub lines: &'a BeatLines,
    /// Names the lines of events, and addresses.
    pub places: &'a X,
}

impl<'a, X: Places> Places for BeatPlaces<'a, X> {
    ghost use Rattle.tl_commit_story.specs.code.Placing.{names_by};

    ghost names = { λ b. names_by b.lines.now.last b.lines.now.commits.items (X.names b.places.now) };

    fn line_at(&self, recorded: u128) -> u128 {
        self.places.line_at(self.lines.event_line(recorded))
    }

    fn append_place(&self, address: u32, out: &mut Vec<u8>) -> Result<(), AllocError> {
        self.places.append_place(address, out)
    }
}
