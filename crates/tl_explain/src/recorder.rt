//! Records, from the beats before a beat, the evidence for a verdict on it.

ghost use Rattle.std.specs.Prelude.{ℕ, ◌≡◌, ◌∷◌, [], OnErr, OnOk};
ghost use Rattle.tl_params.specs.declared.liberties.Liberties.{Liberties};
ghost use Rattle.std.specs.Result.{is_err};
ghost use Rattle.tl_beat.specs.statement.Width.{IsWidth};
ghost use Rattle.tl_explain.specs.code.Recorded.{IsRecordUnder, is_stray};
ghost use Rattle.tl_explain.specs.statement.Evidence.{next_line};
ghost use Rattle.tl_rules.specs.statement.Conformance.{Trace};

use crate::blocks::Blocks;
use crate::bursts::is_small;
use crate::held::Held;
use crate::saying::said_by;
use crate::told::{Mention, Spelling, Told};
use crate::turns::{Moment, Subject, Turns};
use tl_beat::beat::{Beat, Link};
use tl_burst::burst::burst_length;
use tl_monitor::bursts::Bursts;
use tl_params::liberties::Liberties;

/// The recorder can't take the beat. A monitor would have refused it.
#[derive(Clone, Copy, Debug, PartialEq, Eq)]
pub struct Unrecorded;

/// Follows the keys of a subject, and the permission held of its block, through the beats of its link.
#[derive(Drop)]
pub struct Recorder {
    pub subject: Subject,
    /// The liberties of the link.
    pub liberties: Liberties,
    pub bursts: Bursts<Moment>,
    blocks: Blocks,
    pub turns: Turns,
    /// The permission held of the subject's block.
    pub held: Held,
}

impl Recorder {
    /// A recorder before any beat, for a link with these liberties.
    pub fn with_liberties(liberties: Liberties, subject: Subject) -> Self
        ensures record { (w : ℕ) → IsRecordUnder {w = w} liberties result [] }
        ensures subject { result.subject ≡ subject }
    {
        Recorder {
            subject,
            liberties,
            bursts: Bursts::new(),
            blocks: Blocks::new(),
            turns: Turns::new(),
            held: Held::new(),
        }
    }

    /// Takes the next beat of a trace, from the line with this number. Subject and liberties stay. The error is exactly
    /// for a beat of the subject's link whose size is above 6, or which doesn't continue the unfinished burst on its
    /// channel. Then nothing changes.
    pub fn take<const W: usize>(
        &mut self,
        number: u64,
        line: &[u8],
        link: Link,
        beat: &Beat<W>,
    ) -> Result<(), Unrecorded>
        requires { IsWidth W }
        ensures record { OnOk result ((l : Liberties) (t : Trace W) → number ≡ next_line t →
            IsRecordUnder l self.old t → IsRecordUnder l self.new ((link, beat.now) ∷ t)) }
        ensures subject { self.new.subject ≡ self.old.subject }
        ensures liberties { self.new.liberties ≡ self.old.liberties }
        ensures unrecorded { is_err result ≡ is_stray self.old link beat.now }
        ensures left { OnErr result (self.new ≡ self.old) }
    {
        if link != self.subject.link {
            return Ok(());
        }
        if !is_small(beat) || !self.bursts.continues(beat) {
            return Err(Unrecorded);
        }
        let moment = Moment {
            told: Told {
                mention: Mention {
                    line: number,
                    control: beat.control(),
                },
                spelling: Spelling::of(line),
            },
            length: burst_length(beat),
            first: self.bursts.begins(beat),
            last: self.bursts.completes(beat),
            block: self.blocks.of(beat),
        };
        let said = said_by(self, &moment, beat);
        self.held.take(moment.last, said, &moment.told);
        self.turns.take(self.subject, beat, &moment);
        self.blocks.take(beat, moment.first);
        self.bursts.take(moment.last, beat, &moment);
        Ok(())
    }
}
