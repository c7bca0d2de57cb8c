//! The messages that are pending at the end of a wide trace.

ghost use Rattle.tl_beat.specs.statement.Width.{IsWidth};

use std::alloc::{AllocError, Global};
use tl_beat::beat::{Beat, Link};
use tl_explain::ledger::Ledger;
use tl_explain::wording::Wording;
use tl_lines::follow::Follow;
use tl_lines::links_header::LinksHeader;
use tl_lines::trace_judge::TraceJudge;

/// Lists the messages that are pending after the beats of a trace.
#[derive(Drop)]
pub struct PendingBeats<const P: usize> {
    judge: TraceJudge<P>,
    ledger: Ledger,
}

impl<const P: usize> PendingBeats<P> {
    /// No beat of the links that a header names has come.
    pub fn new(alloc: Global, links: &LinksHeader) -> Result<Self, AllocError>
        requires { IsWidth P }
    {
        let mut ledger = Ledger::new(alloc);
        ledger.begin(links.levels.len())?;
        Ok(PendingBeats {
            judge: TraceJudge::new(alloc, false, links)?,
            ledger,
        })
    }

    /// Takes a beat, whose line is cited so. Returns true if it breaks no rule.
    pub fn take(&mut self, cited: &[u8], link: Link, part: &Beat<P>) -> Result<bool, AllocError>
        requires { IsWidth P }
    {
        let fault = self.ledger.push(&mut self.judge, cited, link, part)?;
        Ok(fault.is_none())
    }

    /// Appends the pending messages in this wording.
    pub fn tell<X: Wording<P>>(&mut self, wording: &X, out: &mut Vec<u8>) -> Result<(), AllocError>
        requires { IsWidth P }
    {
        self.ledger.tell(wording, out)
    }
}
