//! The single liberties that would allow a beat.

ghost use Rattle.std.specs.Prelude.{◌≡◌, ◌∷◌, List, None, IfErr, IfOk, OnOk, reverse};
ghost use Rattle.tl_beat.specs.statement.Width.{IsWidth};
ghost use Rattle.tl_params.specs.declared.level.Level.{Level};
ghost use Rattle.tl_params.specs.declared.liberties.Liberties.{Liberties};
ghost use Rattle.tl_rules.specs.statement.Conformance.{Trace};
ghost use Rattle.tl_rules.specs.statement.Liberties.{first_fault_under};

use std::alloc::{AllocError, Global};
use tl_beat::beat::{Beat, Link};
use tl_monitor::fault::MonitorFault;
use tl_monitor::monitor::Monitor;
use tl_params::level::Level;
use tl_params::liberties::{Liberties, Liberty};

/// A monitor of links that have this liberty and those of a trace.
#[derive(Drop)]
pub struct Wider<const W: usize> {
    liberty: Liberty,
    monitor: Monitor<W>,
}

/// Monitors of the links of a trace, each with one more liberty, in the order in which a header names them.
#[derive(Drop)]
pub struct Allowances<const W: usize> {
    liberties: Liberties,
    wider: Vec<Wider<W>>,
}

impl<const W: usize> Wider<W> {
    ghost use Rattle.tl_allowed.specs.code.Known.{KnowsOne};
    ghost use Rattle.tl_allowed.specs.statement.Allowed.{would_allow};

    /// Whether the liberty isn't one of these, and would allow a beat.
    fn would_allow(&self, liberties: Liberties, link: Link, beat: &Beat<W>) -> bool
        requires { IsWidth W }
        ensures { (levels : List Level) (t : Trace W) → KnowsOne self.now levels liberties t →
            result ≡ would_allow liberties levels (link, beat.now) t self.now.liberty }
    {
        !liberties.allows(self.liberty) && self.monitor.broken_under(link, beat).is_none()
    }
}

impl<const W: usize> Allowances<W> {
    ghost use Rattle.tl_allowed.specs.code.Known.{IsNewAllowances, Knows};
    ghost use Rattle.tl_allowed.specs.statement.Allowed.{allowed_under};

    /// For links of these levels and liberties, before any beat. There must be 1 to 16 levels. The error is that of a
    /// monitor.
    pub fn new(alloc: Global, levels: &[Level], liberties: Liberties) -> Result<Self, MonitorFault>
        requires { IsWidth W }
        ensures { IsNewAllowances levels.now liberties result }
    {
        let mut wider = Vec::new(alloc);
        for liberty in Liberty::ALL {
            let monitor = Monitor::with_liberties(alloc, levels, liberties.with(liberty))?;
            let Ok(()) = wider.push(Wider { liberty, monitor }) else {
                return Err(MonitorFault::Memory);
            };
        }
        Ok(Allowances { liberties, wider })
    }

    /// Takes the next beat of a trace. If the trace with the beat has no fault, the only error is `Memory`. After an
    /// error some of the monitors may have taken the beat.
    pub fn take(&mut self, link: Link, beat: &Beat<W>) -> Result<(), MonitorFault>
        requires { IsWidth W }
        ensures taken { OnOk result ((levels : List Level) (l : Liberties) (t : Trace W) →
            Knows self.old levels l t → Knows self.new levels l ((link, beat.now) ∷ t)) }
        ensures refused { IfErr result (λ fault. (levels : List Level) (l : Liberties) (t : Trace W) →
            Knows self.old levels l t → first_fault_under l levels (reverse ((link, beat.now) ∷ t)) ≡ None →
            fault ≡ MonitorFault.Memory) }
    {
        for n in 0..self.wider.len() {
            let wider = &mut self.wider[n];
            wider.monitor.try_push(link, beat)?;
        }
        Ok(())
    }

    /// The liberties of which each alone would allow a beat, in the order in which a header names them. The error means
    /// that there is no memory left.
    pub fn allowing(
        &self,
        alloc: Global,
        link: Link,
        beat: &Beat<W>,
    ) -> Result<Vec<Liberty>, AllocError>
        requires { IsWidth W }
        ensures { IfOk result (λ allowing. (levels : List Level) (l : Liberties) (t : Trace W) →
            Knows self.now levels l t → allowing.items ≡ allowed_under l levels (link, beat.now) t) }
    {
        let mut allowing = Vec::new(alloc);
        for wider in &self.wider {
            if wider.would_allow(self.liberties, link, beat) {
                allowing.push(wider.liberty)?;
            }
        }
        Ok(allowing)
    }
}
