//! Beats that are offered, and refusals.

ghost use Rattle.tl_beat.specs.statement.Width.{IsWidth};

use crate::line::{append_text, channel_named};
use std::alloc::AllocError;
use tl_beat::beat::{Beat, Link};
use tl_beat::channel::Channel;
use tl_beat::read::read_line;
use tl_rules::rule::Rule;

/// A beat that is offered on a channel of a link.
#[derive(Clone, Copy)]
pub struct Offered<const W: usize> {
    pub link: Link,
    pub channel: Channel,
    pub beat: Beat<W>,
}

/// The beat of a beat line, on its own channel, or on the channel that comes first, as in `on E 00 ..`.
pub fn offered_by<const W: usize>(line: &str) -> Option<Offered<W>>
    requires { IsWidth W }
{
    match line.strip_prefix("on ") {
        None => {
            let (link, beat) = read_line(line.as_bytes()).ok()?;
            let channel = beat.channel();
            Some(Offered {
                link,
                channel,
                beat,
            })
        }
        Some(rest) => {
            let (letter, rest) = rest.split_once(' ')?;
            let channel = channel_named(letter)?;
            let (link, beat) = read_line(rest.as_bytes()).ok()?;
            Some(Offered {
                link,
                channel,
                beat,
            })
        }
    }
}

/// Appends `refused` and the rule, as a line.
pub fn append_refused(rule: Rule, out: &mut Vec<u8>) -> Result<(), AllocError> {
    append_text("refused ", out)?;
    append_text(rule.name(), out)?;
    append_text("\n", out)
}
