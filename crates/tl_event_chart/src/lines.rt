//! Judges the lines of a trace, and draws them.

ghost use Rattle.std.specs.Prelude.{◌≡◌, [], false, IfOk, OnOk};
ghost use Rattle.tl_event_chart.specs.code.Drawing.{DrawsLine, KnowsNotes, Narrows};
ghost use Rattle.tl_wide_event_lines.specs.code.EventWatching.{KnowsAnyLines, any_judged_for};

use crate::canvas::Canvas;
use crate::following::{Following, begin};
use std::alloc::{AllocError, Global};
use tl_chart::window::Window;
use tl_lines::fault::Fault;
use tl_lines::line_handler::LineHandler;
use tl_params::liberties::Liberties;
use tl_wide_event_lines::lines::WideEventLines;

/// Judges the lines of a trace, each link by itself, and draws them.
#[derive(Drop)]
pub struct ChartedLines {
    lines: WideEventLines,
    alloc: Global,
    /// The liberties of the links beyond those that the header names.
    allow: Liberties,
    window: Window,
    /// The number of lines that have been drawn.
    count: u64,
    following: Following,
    pub canvas: Canvas,
}

impl ChartedLines {
    /// No line has been read. `allow` is added to the liberties that the header names.
    pub fn new(alloc: Global, allow: Liberties, window: Window) -> Result<Self, AllocError>
        ensures knows { IfOk result (λ h. KnowsAnyLines h.lines [] []) }
        ensures notes { IfOk result (λ h. KnowsNotes h []) }
        ensures purpose { IfOk result (λ h. any_judged_for h.lines ≡ (false, allow)) }
        ensures asked { IfOk result (λ h. h.window ≡ window) }
    {
        let canvas = Canvas::new(alloc, 0, window)?;
        Ok(ChartedLines {
            lines: WideEventLines::new(alloc, false, allow),
            alloc,
            allow,
            window,
            count: 0,
            following: Following::Nothing,
            canvas,
        })
    }

    /// Begins to draw after the first line.
    #[cold]
    #[inline(never)]
    fn start(&mut self, line: &[u8]) -> Result<(), AllocError>
        ensures lines { self.new.lines ≡ self.old.lines }
        ensures count { self.new.count ≡ self.old.count }
        ensures asked { self.new.window ≡ self.old.window }
        ensures notes { OnOk result (self.new.canvas.notes.items ≡ []) }
        ensures window { OnOk result (Narrows self.old.window self.new.canvas.gatherer.window) }
    {
        let (following, canvas) = begin(self.alloc, self.allow, self.window, line)?;
        self.following = following;
        self.canvas = canvas;
        Ok(())
    }

    /// Draws the next line.
    fn draw_line(&mut self, line: &[u8]) -> Result<(), AllocError>
        ensures lines { self.new.lines ≡ self.old.lines }
        ensures asked { self.new.window ≡ self.old.window }
        ensures draws { OnOk result (DrawsLine self.old self.new line.now) }
    {
        self.count = self.count.checked_add(1).ok_or(AllocError)?;
        if self.count == 1 {
            return self.start(line);
        }
        self.following.take_line(&mut self.canvas, self.count, line)
    }
}

impl LineHandler for ChartedLines {
    ghost use Rattle.std.specs.Prelude.{Bool};
    ghost use Rattle.tl_chart.specs.declared.window.Window.{Window};
    ghost use Rattle.tl_event_chart.specs.code.Drawing.{EndsCharted, KnowsCharted};
    ghost use Rattle.tl_params.specs.declared.liberties.Liberties.{Liberties};
    ghost use Rattle.tl_wide_event_lines.specs.statement.JudgedWideEvents.{JudgedAny};

    ghost knows = { KnowsCharted };

    ghost Purpose = { (Bool × Liberties) × Window };

    ghost purpose = { λ h. (any_judged_for h.lines, h.window) };

    ghost tells = { λ p. JudgedAny p.0.0 p.0.1 };

    ghost ends = { EndsCharted };

    fn handle_line(&mut self, line: &[u8], out: &mut Vec<u8>) -> Result<Option<Fault>, AllocError> {
        let fault = self.lines.handle_line(line, out)?;
        self.draw_line(line)?;
        Ok(fault)
    }

    fn open_fault(&self) -> Fault {
        self.lines.open_fault()
    }

    fn finish(&self, count: u64, out: &mut Vec<u8>) -> Result<Option<Fault>, AllocError> {
        self.lines.finish(count, out)
    }
}
