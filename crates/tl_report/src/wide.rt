//! Judges wide beats.

ghost use Rattle.std.specs.Prelude.{◌≡◌, IfOk};
ghost use Rattle.tl_report.specs.code.WideWidth.{IsWideWidth-prop};
ghost use Rattle.tl_wide.specs.statement.Width.{IsWideWidth, part_width};

use crate::kept::KeptLineJudge;
use crate::taken::wide_cell_of;
use crate::taker::Taker;
use std::alloc::{AllocError, Global};
use tl_beat::beat::Link;
use tl_beat::fault::LineFault;
use tl_lines::fault::Fault;
use tl_lines::links_header::LinksHeader;
use tl_wide::beat::{WideBeat, WideBeatE};
use tl_wide::read::read_wide_into;
use tl_wide_lines::judge::WideJudge;

/// A judge of wide beats of `W` bytes: 4, 8, 16, 32 or 64. `P` is the smaller of 16 and `W`.
#[derive(Drop)]
pub struct WideTaker<const W: usize, const P: usize> {
    judge: WideJudge<P>,
    ghost width: { IsWideWidth W } by { IsWideWidth-prop W },
    ghost part: { P ≡ part_width W },
}

/// A judge of lines of wide beats.
pub type WideLineJudge<const W: usize, const P: usize> = KeptLineJudge<
    WideTaker<W, P>,
    LinksHeader,
    (Link, WideBeat<W>),
>;

impl<const W: usize, const P: usize> WideTaker<W, P> {
    ghost use Rattle.tl_report.specs.code.Taking.{StartsTaking};
    ghost use Rattle.tl_report.specs.code.WideJudging.{wide_takings};

    /// A judge of the links that a header names, which has taken no beat.
    pub fn new(alloc: Global, together: bool, links: &LinksHeader) -> Result<Self, AllocError>
        requires width { IsWideWidth W }
        requires part { P ≡ part_width W }
        ensures { IfOk result (StartsTaking (wide_takings W P) together links.now) }
    {
        let judge = WideJudge::new(alloc, together, links)?;
        Ok(WideTaker { judge })
    }
}

impl<const W: usize, const P: usize> Taker<LinksHeader, (Link, WideBeat<W>)> for WideTaker<W, P> {
    ghost use Rattle.tl_beat.specs.declared.beat.Link.{Link};
    ghost use Rattle.tl_report.specs.code.WideJudging.{wide_takings};
    ghost use Rattle.tl_report.specs.statement.Form.{Terms};
    ghost use Rattle.tl_wide.specs.declared.beat.WideBeat.{WideBeat};

    ghost Kind = { Link × WideBeat W };

    ghost Given = { Terms };

    ghost takings = { wide_takings W P };

    fn anew(&self, alloc: Global, together: bool, links: &LinksHeader) -> Result<Self, AllocError> {
        WideTaker::new(alloc, together, links)
    }

    fn read(&self, line: &[u8]) -> Result<(Link, WideBeat<W>), LineFault> {
        let mut beat = WideBeat::E(WideBeatE { sink: 0 });
        let link = read_wide_into(line, &mut beat)?;
        Ok((link, beat))
    }

    fn take(&mut self, item: (Link, WideBeat<W>)) -> Result<Option<Fault>, AllocError> {
        self.judge.push(item.0, &item.1)
    }

    fn cell(&self, item: (Link, WideBeat<W>)) -> usize {
        wide_cell_of(item.0, &item.1)
    }
}
