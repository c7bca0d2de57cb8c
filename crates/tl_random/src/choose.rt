//! Chooses the operation of a client, by the permission that it holds.

ghost use Rattle.std.specs.Prelude.{◌≡◌, ◌≤◌, ◌<◌};
ghost use Rattle.tl_beat.specs.statement.Width.{IsWidth};
ghost use Rattle.tl_random.specs.statement.Choose.{access, access_size, address_in, arithmetic, atomic, atomic_size};
ghost use Rattle.tl_random.specs.statement.Choose.{channel_of, grow_from, hint, intent, load, logical, mask_of};
ghost use Rattle.tl_random.specs.statement.Choose.{of_copies, plain_access, prune_from, request, store, value_of};
ghost use Rattle.tl_random.specs.statement.Choose.{word_size};
ghost use Rattle.tl_random.specs.statement.Draw.{Draws};
ghost use Rattle.tl_random.specs.statement.Said.{HasSize};

use crate::draw::{below, block_of_bytes, is_one_in};
use crate::request::{Asked, Request};
use rand_core::Rng;
use rand_xoshiro::Xoshiro256PlusPlus;
use tl_beat::channel::Channel;
use tl_params::level::Level;
use tl_params::param::{Arithmetic, Grow, Intent, Logical, Prune};
use tl_params::perm::Perm;
use tl_schedule::access::{beats, lanes};

/// An address in a block, a multiple of `2^size`.
#[tactic(auto, unfolding(crate::specs::statement::Choose::address_in))]
fn address(rng: &mut Xoshiro256PlusPlus, block: u16, size: u8) -> u32
    requires { size ≤ 6 }
    ensures { Draws (address_in block size) rng.old rng.new result }
{
    let unit = 1u64 << size;
    let offset = below(rng, 64) / unit * unit;
    64 * u32::from(block) + offset as u32
}

/// A size of 1 to 8 bytes.
#[tactic(auto, unfolding(crate::specs::statement::Choose::word_size))]
fn word_size(rng: &mut Xoshiro256PlusPlus) -> u8
    ensures within { result ≤ 3 }
    ensures drawn { Draws word_size rng.old rng.new result }
{
    below(rng, 4) as u8
}

/// The size of an atomic: 4 or 8 bytes.
#[tactic(auto, unfolding(crate::specs::statement::Choose::atomic_size))]
fn atomic_size(rng: &mut Xoshiro256PlusPlus) -> u8
    ensures within { result ≤ 3 }
    ensures drawn { Draws atomic_size rng.old rng.new result }
{
    if is_one_in(rng, 2) { 2 } else { 3 }
}

/// The size of an access at a level: at most a beat at TL-UL, at most a block above it.
#[tactic(auto, unfolding(crate::specs::statement::Choose::access_size))]
fn access_size<const W: usize>(rng: &mut Xoshiro256PlusPlus, level: Level) -> u8
    requires { IsWidth W }
    ensures within { result ≤ 6 }
    ensures drawn { Draws (access_size W level) rng.old rng.new result }
{
    let sizes = match level {
        Level::UL if W == 4 => 3,
        Level::UL if W == 8 => 4,
        Level::UL => 5,
        Level::UH | Level::C => 7,
    };
    below(rng, sizes) as u8
}

/// A number of `2^size` bytes, at most 8.
#[tactic(auto, unfolding(crate::specs::statement::Choose::value_of))]
fn value(rng: &mut Xoshiro256PlusPlus, size: u8) -> u64
    requires { size ≤ 3 }
    ensures { Draws (value_of size) rng.old rng.new result }
{
    let bits = 8u32 << size;
    rng.next_u64() >> (64 - bits)
}

#[tactic(auto, unfolding(crate::specs::statement::Choose::arithmetic, crate::specs::statement::Draw::by_chance))]
fn arithmetic(rng: &mut Xoshiro256PlusPlus) -> Arithmetic
    ensures { Draws arithmetic rng.old rng.new result }
{
    match below(rng, 5) {
        0 => Arithmetic::Min,
        1 => Arithmetic::Max,
        2 => Arithmetic::MinU,
        3 => Arithmetic::MaxU,
        _ => Arithmetic::Add,
    }
}

#[tactic(auto, unfolding(crate::specs::statement::Choose::logical, crate::specs::statement::Draw::by_chance))]
fn logical(rng: &mut Xoshiro256PlusPlus) -> Logical
    ensures { Draws logical rng.old rng.new result }
{
    match below(rng, 4) {
        0 => Logical::Xor,
        1 => Logical::Or,
        2 => Logical::And,
        _ => Logical::Swap,
    }
}

#[tactic(auto, unfolding(crate::specs::statement::Choose::intent))]
fn intent(rng: &mut Xoshiro256PlusPlus) -> Intent
    ensures { Draws intent rng.old rng.new result }
{
    if is_one_in(rng, 2) {
        Intent::PrefetchRead
    } else {
        Intent::PrefetchWrite
    }
}

/// Any of the lanes of an access.
#[tactic(auto, unfolding(crate::specs::statement::Choose::mask_of))]
fn mask<const W: usize>(rng: &mut Xoshiro256PlusPlus, size: u8, address: u32) -> u64
    requires width { IsWidth W }
    requires small { size ≤ 6 }
    ensures { Draws (mask_of W size address) rng.old rng.new result }
{
    rng.next_u64() & lanes::<W>(size, address, beats::<W>(size))
}

/// A Get, PutFullData or PutPartialData.
#[tactic(auto, unfolding(crate::specs::statement::Choose::plain_access, crate::specs::statement::Draw::by_chance))]
fn plain_access<const W: usize>(rng: &mut Xoshiro256PlusPlus, level: Level, block: u16) -> Request
    requires { IsWidth W }
    ensures drawn { Draws (plain_access W level block) rng.old rng.new result }
    ensures sized { HasSize result }
{
    let size = access_size::<W>(rng, level);
    let address = address(rng, block, size);
    let asked = match below(rng, 3) {
        0 => Asked::Get,
        1 => Asked::Put {
            bytes: block_of_bytes(rng),
        },
        _ => Asked::Part {
            mask: mask::<W>(rng, size, address),
            bytes: block_of_bytes(rng),
        },
    };
    Request::Access {
        size,
        address,
        asked,
    }
}

/// An ArithmeticData or LogicalData.
#[tactic(auto, unfolding(crate::specs::statement::Choose::atomic))]
fn atomic(rng: &mut Xoshiro256PlusPlus, block: u16) -> Request
    ensures drawn { Draws (atomic block) rng.old rng.new result }
    ensures sized { HasSize result }
{
    let size = atomic_size(rng);
    let address = address(rng, block, size);
    let asked = if is_one_in(rng, 2) {
        Asked::Arith {
            operation: arithmetic(rng),
            bytes: block_of_bytes(rng),
        }
    } else {
        Asked::Logic {
            operation: logical(rng),
            bytes: block_of_bytes(rng),
        }
    };
    Request::Access {
        size,
        address,
        asked,
    }
}

/// An Intent.
#[tactic(auto, unfolding(crate::specs::statement::Choose::hint))]
fn hint<const W: usize>(rng: &mut Xoshiro256PlusPlus, level: Level, block: u16) -> Request
    requires { IsWidth W }
    ensures drawn { Draws (hint W level block) rng.old rng.new result }
    ensures sized { HasSize result }
{
    let size = access_size::<W>(rng, level);
    Request::Access {
        size,
        address: address(rng, block, size),
        asked: Asked::Hint {
            intent: intent(rng),
        },
    }
}

/// An access that the level has.
#[tactic(auto, unfolding(crate::specs::statement::Choose::access, crate::specs::statement::Draw::by_chance))]
fn access<const W: usize>(rng: &mut Xoshiro256PlusPlus, level: Level, block: u16) -> Request
    requires { IsWidth W }
    ensures drawn { Draws (access W level block) rng.old rng.new result }
    ensures sized { HasSize result }
{
    if level == Level::UL {
        return plain_access::<W>(rng, level, block);
    }
    match below(rng, 6) {
        0..=2 => plain_access::<W>(rng, level, block),
        3 | 4 => atomic(rng, block),
        _ => hint::<W>(rng, level, block),
    }
}

/// BtoT from Branch, otherwise NtoB or NtoT, which don't fit Trunk.
#[tactic(auto, unfolding(crate::specs::statement::Choose::grow_from))]
fn grow(rng: &mut Xoshiro256PlusPlus, held: Perm) -> Grow
    ensures { Draws (grow_from held) rng.old rng.new result }
{
    match held {
        Perm::Branch => Grow::BtoT,
        Perm::None | Perm::Trunk => {
            if is_one_in(rng, 2) {
                Grow::NtoB
            } else {
                Grow::NtoT
            }
        }
    }
}

/// TtoB or TtoN from Trunk, otherwise BtoN, which doesn't fit None.
#[tactic(auto, unfolding(crate::specs::statement::Choose::prune_from))]
fn prune(rng: &mut Xoshiro256PlusPlus, held: Perm) -> Prune
    ensures { Draws (prune_from held) rng.old rng.new result }
{
    match held {
        Perm::Trunk => {
            if is_one_in(rng, 2) {
                Prune::TtoB
            } else {
                Prune::TtoN
            }
        }
        Perm::None | Perm::Branch => Prune::BtoN,
    }
}

#[tactic(auto, unfolding(crate::specs::statement::Choose::load))]
fn load(rng: &mut Xoshiro256PlusPlus, block: u16) -> Request
    ensures drawn { Draws (load block) rng.old rng.new result }
    ensures sized { HasSize result }
{
    let size = word_size(rng);
    Request::Load {
        size,
        address: address(rng, block, size),
    }
}

#[tactic(auto, unfolding(crate::specs::statement::Choose::store))]
fn store(rng: &mut Xoshiro256PlusPlus, block: u16) -> Request
    ensures drawn { Draws (store block) rng.old rng.new result }
    ensures sized { HasSize result }
{
    let size = word_size(rng);
    Request::Store {
        size,
        address: address(rng, block, size),
        value: value(rng, size),
    }
}

/// An operation of a client of TL-C that holds this permission of the block.
#[tactic(auto, unfolding(crate::specs::statement::Choose::of_copies, crate::specs::statement::Draw::by_chance))]
fn of_copies<const W: usize>(rng: &mut Xoshiro256PlusPlus, block: u16, held: Perm) -> Request
    requires { IsWidth W }
    ensures drawn { Draws (of_copies W block held) rng.old rng.new result }
    ensures sized { HasSize result }
{
    match below(rng, 12) {
        0 | 1 => load(rng, block),
        2..=4 => store(rng, block),
        5 | 6 => Request::Acquire {
            block,
            grow: grow(rng, held),
        },
        7 => Request::Whole {
            block,
            bytes: block_of_bytes(rng),
        },
        8 | 9 => Request::Release {
            block,
            prune: prune(rng, held),
        },
        _ => access::<W>(rng, Level::C, block),
    }
}

/// An operation of a client of this level that holds this permission of the block.
#[tactic(auto, unfolding(crate::specs::statement::Choose::request))]
pub(crate) fn request<const W: usize>(
    rng: &mut Xoshiro256PlusPlus,
    level: Level,
    block: u16,
    held: Perm,
) -> Request
    requires { IsWidth W }
    ensures drawn { Draws (request W level block held) rng.old rng.new result }
    ensures sized { HasSize result }
{
    match level {
        Level::C => of_copies::<W>(rng, block, held),
        Level::UL | Level::UH => access::<W>(rng, level, block),
    }
}

/// A channel of the level.
#[tactic(auto, unfolding(crate::specs::statement::Choose::channel_of, crate::specs::statement::Draw::by_chance))]
pub(crate) fn channel(rng: &mut Xoshiro256PlusPlus, level: Level) -> Channel
    ensures { Draws (channel_of level) rng.old rng.new result }
{
    if level != Level::C {
        return if is_one_in(rng, 2) {
            Channel::A
        } else {
            Channel::D
        };
    }
    match below(rng, 5) {
        0 => Channel::A,
        1 => Channel::B,
        2 => Channel::C,
        3 => Channel::D,
        _ => Channel::E,
    }
}
