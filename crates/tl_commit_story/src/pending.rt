//! The messages that are pending at the end of a trace with commits.

ghost use Rattle.std.specs.Prelude.{◌≡◌, [], OnOk, ⊤};
ghost use Rattle.tl_beat.specs.statement.Width.{IsWidth, IsWidth-prop};
ghost use Rattle.tl_commit_story.specs.statement.Explained.{IsPending};

use crate::grounds::push;
use crate::numbered::{no_beat, no_link};
use std::alloc::{AllocError, Global};
use tl_beat::beat::{Beat, Link};
use tl_commit_lines::header::read_marked_for;
use tl_commit_lines::judge::levels_of;
use tl_events::commit::Event;
use tl_events::event::read_event;
use tl_explain::ledger::Ledger;
use tl_explain::wording::AsRecorded;
use tl_lines::fault::Fault;
use tl_lines::line_handler::LineHandler;
use tl_monitor::monitor::Monitor;
use tl_params::liberties::Liberties;

/// Lists the messages that are pending after the events of a trace.
#[derive(Drop)]
pub struct PendingEvents<const W: usize> {
    alloc: Global,
    /// The liberties of the links beyond those that the header names.
    allow: Liberties,
    /// None before the header.
    monitor: Option<Monitor<W>>,
    ledger: Ledger,
    /// The number of lines that have been read.
    count: u64,
    /// Each line was as it has to be.
    is_sound: bool,
    ghost width: { IsWidth W } by { IsWidth-prop W },
}

impl<const W: usize> PendingEvents<W> {
    /// No line has been read.
    pub fn new(alloc: Global, allow: Liberties) -> Self
        requires { IsWidth W }
    {
        PendingEvents {
            alloc,
            allow,
            monitor: None,
            ledger: Ledger::new(alloc),
            count: 0,
            is_sound: true,
        }
    }

    /// Takes the header. Returns true if it is one of a trace with commits.
    fn take_header(&mut self, line: &[u8]) -> Result<bool, AllocError> {
        let Some(header) = read_marked_for(self.allow, line) else {
            return Ok(false);
        };
        let levels = levels_of(self.alloc, header.links.as_slice())?;
        let Ok(monitor) = Monitor::with_liberties(self.alloc, levels.as_slice(), header.may) else {
            return Err(AllocError);
        };
        self.monitor = Some(monitor);
        self.ledger.begin(levels.len())?;
        Ok(true)
    }

    /// Takes the beat of a line. Returns true if a monitor takes it.
    fn take_beat(&mut self, line: &[u8], link: Link, beat: &Beat<W>) -> Result<bool, AllocError> {
        let Some(monitor) = &mut self.monitor else {
            return Ok(false);
        };
        let first = monitor.begins(link, beat);
        if !push(monitor, link, beat)? {
            return Ok(false);
        }
        let last = monitor.begins(link, beat);
        self.ledger.take(line, link, beat, first, last)?;
        Ok(true)
    }

    /// Takes the line of an event. Returns true if it is as it has to be.
    fn take_event(&mut self, line: &[u8]) -> Result<bool, AllocError> {
        match read_event::<W>(line) {
            Err(_) => Ok(false),
            Ok((link, Event::Beat(beat))) => self.take_beat(line, link, &beat),
            Ok((_, Event::Commit(_))) => {
                self.ledger
                    .take(line, no_link(), &no_beat::<W>(), false, false)?;
                Ok(true)
            }
        }
    }

    /// Takes the next line.
    fn take_line(&mut self, line: &[u8]) -> Result<(), AllocError> {
        if !self.is_sound {
            return Ok(());
        }
        self.is_sound = if self.count == 0 {
            self.take_header(line)?
        } else {
            self.take_event(line)?
        };
        self.count = self.count.saturating_add(1);
        Ok(())
    }

    /// Whether so many lines were read, each as it has to be.
    pub fn has_read(&self, count: u64) -> bool {
        self.is_sound && self.count == count
    }

    /// Appends the pending messages.
    pub fn tell(&mut self, out: &mut Vec<u8>) -> Result<(), AllocError>
        requires { out.old.items ≡ [] }
        ensures { OnOk result (IsPending out.new.items) }
    {
        self.ledger.tell::<W, AsRecorded>(&AsRecorded, out)
    }
}

impl<const W: usize> LineHandler for PendingEvents<W> {
    ghost knows = { λ _ _ _. ⊤ };

    ghost purpose = { λ _. tt };

    ghost tells = { λ _ _ _ _. ⊤ };

    ghost ends = { λ _ _. ⊤ };

    fn handle_line(
        &mut self,
        line: &[u8],
        _out: &mut Vec<u8>,
    ) -> Result<Option<Fault>, AllocError> {
        self.take_line(line)?;
        Ok(None)
    }

    fn open_fault(&self) -> Fault {
        Fault::Header
    }

    fn finish(&self, _count: u64, _out: &mut Vec<u8>) -> Result<Option<Fault>, AllocError> {
        Ok(None)
    }
}
