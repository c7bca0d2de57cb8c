//! Finds the part of a wide beat that breaks a rule, and appends the grounds.

ghost use Rattle.std.specs.Prelude.{◌≡◌, IfOk, true};
ghost use Rattle.tl_beat.specs.statement.Width.{IsWidth};
ghost use Rattle.tl_wide_story.specs.code.WideReplaying.{IsGuilty};

use crate::replay::WideReplay;
use std::alloc::AllocError;
use tl_beat::beat::{Beat, Link};
use tl_evidence::conviction::tell_conviction;
use tl_lines::fault::Fault;
use tl_rules::rule::Rule;

/// Forgets the words of a rule after the first `before` bytes, if they show a mask that is in no line: that of a part of more
/// than one.
pub fn forget_mask<const W: usize>(rule: Rule, before: usize, grounds: &mut Vec<u8>) {
    if rule == Rule::L5 && W > 16 {
        grounds.truncate(before);
    }
}

impl<const W: usize> WideReplay<W> {
    /// Appends the grounds if a part is at fault. Returns true if it is.
    pub fn tell_part<const P: usize>(
        &self,
        link: Link,
        part: &Beat<P>,
        grounds: &mut Vec<u8>,
    ) -> Result<bool, AllocError>
        requires { IsWidth P }
        ensures { IfOk result (λ told. told ≡ true → IsGuilty self.now link part.now) }
    {
        let Fault::Rule(rule) = self.fault else {
            return Ok(true);
        };
        let before = grounds.len();
        let told = tell_conviction(
            &self.wording,
            self.may,
            self.level,
            &self.recorder,
            rule,
            link,
            part,
            grounds,
        )?;
        forget_mask::<W>(rule, before, grounds);
        Ok(told)
    }
}
