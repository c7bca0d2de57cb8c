//! Liberties, which allow a link more than the first profile does.

ghost use Rattle.std.specs.Prelude.{true, false, ◌≡◌};
ghost use Rattle.tl_params.specs.statement.Liberties.{allows, liberties_of, no_liberties, standard_liberties};
ghost use Rattle.tl_params.specs.statement.Liberties.{liberty_name, united, with_liberty};

use crate::profile::Profile;

/// One thing that a link may do and the first profile forbids.
#[derive(Clone, Copy, Debug, PartialEq, Eq)]
pub enum Liberty {
    /// Any source on channel B, and a ProbeAck has the source of its Probe.
    Ids,
    /// Any sink on D messages that are no Grant.
    Sinks,
    /// An AcquireBlock NtoB may be granted toT.
    Writer,
    /// A response may begin after the first beat of its request, and a GrantAck after the first beat of its Grant.
    Early,
    /// A client may give up a block without a message.
    Drops,
    /// A Release may have any of the six reports, a ReleaseData those from Trunk.
    Reports,
    /// A Grant may be denied, and is corrupt then if it carries data.
    Denied,
    /// A denied AccessAckData needn't be corrupt.
    Uncorrupt,
}

/// The liberties of a link: those that are set.
#[derive(Clone, Copy, Debug, PartialEq, Eq)]
pub struct Liberties {
    pub ids: bool,
    pub sinks: bool,
    pub writer: bool,
    pub early: bool,
    pub drops: bool,
    pub reports: bool,
    pub denied: bool,
    pub uncorrupt: bool,
}

impl Liberty {
    const NAMES: [&'static str; 8] = [
        "ids",
        "sinks",
        "writer",
        "early",
        "drops",
        "reports",
        "denied",
        "uncorrupt",
    ];

    /// All liberties, in the order in which a header names them.
    pub const ALL: [Liberty; 8] = [
        Liberty::Ids,
        Liberty::Sinks,
        Liberty::Writer,
        Liberty::Early,
        Liberty::Drops,
        Liberty::Reports,
        Liberty::Denied,
        Liberty::Uncorrupt,
    ];

    /// The liberty's name in a header and on the command line.
    pub fn name(self) -> &'static str
        ensures { result.now ≡ liberty_name self }
    {
        Self::NAMES[self as usize]
    }
}

impl Liberties {
    /// No liberty: the first profile.
    pub fn none() -> Self
        ensures { result ≡ no_liberties }
    {
        Liberties {
            ids: false,
            sinks: false,
            writer: false,
            early: false,
            drops: false,
            reports: false,
            denied: false,
            uncorrupt: false,
        }
    }

    /// The liberties that the specification allows: all but `Uncorrupt`.
    pub fn standard() -> Self
        ensures { result ≡ standard_liberties }
    {
        Liberties {
            ids: true,
            sinks: true,
            writer: true,
            early: true,
            drops: true,
            reports: true,
            denied: true,
            uncorrupt: false,
        }
    }

    /// The liberties of a profile: none of the first, `writer` of the second.
    pub fn of(profile: Profile) -> Self
        ensures { result ≡ liberties_of profile }
    {
        Liberties {
            writer: profile == Profile::Two,
            ..Self::none()
        }
    }

    /// Whether this liberty is set.
    pub fn allows(self, liberty: Liberty) -> bool
        ensures { result ≡ allows self liberty }
    {
        match liberty {
            Liberty::Ids => self.ids,
            Liberty::Sinks => self.sinks,
            Liberty::Writer => self.writer,
            Liberty::Early => self.early,
            Liberty::Drops => self.drops,
            Liberty::Reports => self.reports,
            Liberty::Denied => self.denied,
            Liberty::Uncorrupt => self.uncorrupt,
        }
    }

    /// These and one more.
    pub fn with(self, liberty: Liberty) -> Self
        ensures { result ≡ with_liberty liberty self }
    {
        match liberty {
            Liberty::Ids => Liberties { ids: true, ..self },
            Liberty::Sinks => Liberties {
                sinks: true,
                ..self
            },
            Liberty::Writer => Liberties {
                writer: true,
                ..self
            },
            Liberty::Early => Liberties {
                early: true,
                ..self
            },
            Liberty::Drops => Liberties {
                drops: true,
                ..self
            },
            Liberty::Reports => Liberties {
                reports: true,
                ..self
            },
            Liberty::Denied => Liberties {
                denied: true,
                ..self
            },
            Liberty::Uncorrupt => Liberties {
                uncorrupt: true,
                ..self
            },
        }
    }

    /// The liberties that are in one of two sets, or in both.
    pub fn union(self, other: Self) -> Self
        ensures { result ≡ united self other }
    {
        Liberties {
            ids: self.ids || other.ids,
            sinks: self.sinks || other.sinks,
            writer: self.writer || other.writer,
            early: self.early || other.early,
            drops: self.drops || other.drops,
            reports: self.reports || other.reports,
            denied: self.denied || other.denied,
            uncorrupt: self.uncorrupt || other.uncorrupt,
        }
    }
}
