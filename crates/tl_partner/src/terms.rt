//! The liberties that a manager grants its clients.

ghost use Rattle.std.specs.Prelude.{◌≡◌, OnOk};
ghost use Rattle.tl_beat.specs.statement.Width.{IsWidth};
ghost use Rattle.tl_burst.specs.statement.Part.{IsTakeable};
ghost use Rattle.tl_params.specs.statement.Refusal.{ok_unless};
ghost use Rattle.tl_rules.specs.statement.Liberties.{illegal_under};
ghost use Rattle.tl_partner.specs.statement.Granting.{granted, no_terms, terms_of};
ghost use Rattle.tl_partner.specs.statement.Naming.{probe_source};

use tl_beat::beat::{Beat, Link};
use tl_beat::channel::Channel;
use tl_rules::legality::beat::check_beat_under;
use tl_rules::level::Level;
use tl_rules::liberties::Liberties;
use tl_rules::rule::Rule;

/// The liberties that a manager grants its clients, and the source of its Probes on each link, used under `ids`.
#[derive(Clone, Copy)]
pub struct Terms {
    /// A Probe has the source of its link, and its ProbeAck has the same.
    pub ids: bool,
    /// A client may give up a block without a message.
    pub drops: bool,
    /// A Release may have any of the six reports.
    pub reports: bool,
    pub sources: [u8; 16],
}

impl Terms {
    /// No liberties, as for the manager alone.
    pub fn none() -> Self
        ensures { result ≡ no_terms }
    {
        Terms {
            ids: false,
            drops: false,
            reports: false,
            sources: [0; 16],
        }
    }

    /// The terms for clients with these liberties, or `None` if a manager can't grant one of them. `writer` is the
    /// profile of the manager's configuration; the terms ignore it.
    pub fn of(liberties: Liberties, sources: [u8; 16]) -> Option<Self>
        ensures { result ≡ terms_of liberties sources }
    {
        if liberties.sinks || liberties.early || liberties.denied || liberties.uncorrupt {
            return None;
        }
        Some(Terms {
            ids: liberties.ids,
            drops: liberties.drops,
            reports: liberties.reports,
            sources,
        })
    }

    /// The liberties that are granted.
    pub fn granted(&self) -> Liberties
        ensures { result ≡ granted self.now }
    {
        Liberties {
            ids: self.ids,
            drops: self.drops,
            reports: self.reports,
            ..Liberties::none()
        }
    }

    /// Checks a beat on a link of this level, with the liberties of these terms. The error is the first L rule that it
    /// breaks.
    pub fn check<const W: usize>(
        &self,
        level: Level,
        channel: Channel,
        beat: &Beat<W>,
    ) -> Result<(), Rule>
        requires { IsWidth W }
        ensures value { result ≡ ok_unless (illegal_under (granted self.now) level channel beat.now) }
        ensures takeable { OnOk result (IsTakeable beat.now) }
    {
        check_beat_under(self.granted(), level, channel, beat)
    }

    /// The source of the Probes of a link.
    pub fn probe_source(&self, link: Link) -> u8
        ensures { result ≡ probe_source self.now link.0 }
    {
        match self.sources.get(usize::from(link.0)) {
            None => 0,
            Some(source) => *source,
        }
    }
}
