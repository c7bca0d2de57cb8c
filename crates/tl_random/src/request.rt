//! The requests to a client in the lines of a random schedule.

use tl_params::param::{Arithmetic, Grow, Intent, Logical, Prune};

/// The kind of an access, with its data.
#[derive(Clone, Copy)]
pub(crate) enum Asked {
    Get,
    Put {
        bytes: [u8; 64],
    },
    Part {
        mask: u64,
        bytes: [u8; 64],
    },
    Arith {
        operation: Arithmetic,
        bytes: [u8; 64],
    },
    Logic {
        operation: Logical,
        bytes: [u8; 64],
    },
    Hint {
        intent: Intent,
    },
}

/// A request to a client. Of the bytes of an access the first `2^size` count.
#[derive(Clone, Copy)]
pub(crate) enum Request {
    Load {
        size: u8,
        address: u32,
    },
    Store {
        size: u8,
        address: u32,
        value: u64,
    },
    Acquire {
        block: u16,
        grow: Grow,
    },
    Whole {
        block: u16,
        bytes: [u8; 64],
    },
    Release {
        block: u16,
        prune: Prune,
    },
    Access {
        size: u8,
        address: u32,
        asked: Asked,
    },
}
