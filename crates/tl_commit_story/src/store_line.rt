//! A store with the number of its line.

ghost use Rattle.std.specs.Prelude.{◌≤◌};

use tl_beat::beat::Link;
use tl_events::commit::Piece;

/// A store of the core of a link, with the number of its line.
#[derive(Clone, Copy)]
pub struct StoreLine {
    pub number: u64,
    pub link: Link,
    pub piece: Piece,
    pub value: u64,
    pub ghost small: { piece.size ≤ 3 },
}
