//! Draws the lines of a schedule, each by the outcomes of those before it.

ghost use Rattle.std.specs.Prelude.{◌≡◌, ◌<◌, ◌++◌, IfOk, OnOk, length};
ghost use Rattle.tl_beat.specs.statement.Width.{IsWidth};
ghost use Rattle.tl_schedule.specs.statement.EventLine.{drain_line};
ghost use Rattle.tl_coherence.specs.statement.Log.{Log};
ghost use Rattle.tl_engine.specs.statement.PlayableWorld.{HasHappened};
ghost use Rattle.tl_params.specs.declared.config.Config.{Config};
ghost use Rattle.tl_random.specs.statement.Draw.{Draws, below, words_from, words_of};
ghost use Rattle.tl_random.specs.statement.Drawn.{GrowsByPlay, IsDrainedOf, IsFreshOf, asking_line, block_below, block_of};
ghost use Rattle.tl_random.specs.statement.Drawn.{delivery_line, is_idle, line_drawn, takes};
ghost use Rattle.tl_random.specs.statement.Random.{GrowsByLine};

use crate::choose::{channel, request};
use crate::draw::{below, is_one_in};
use crate::event::event_in;
use crate::text::{append_delivery, append_request};
use rand_core::SeedableRng;
use rand_xoshiro::Xoshiro256PlusPlus;
use std::alloc::{AllocError, Global};
use tl_client::any::AnyClient;
use tl_client::reply::Reply;
use tl_coherence::event::Outcome;
use tl_command::random::Options;
use tl_engine::trace_header::world_of;
use tl_manager::bits::BitDirectory;
use tl_params::config::Config;
use tl_params::level::Level;
use tl_params::perm::Perm;
use tl_world::world::World;

/// A line drains the world with a chance of one in this many, and after too many tries.
const DRAIN: u64 = 64;
/// An event without effect is kept with a chance of one in this many.
const IDLE: u64 = 72;
/// The number of events that are tried for a line before the world is drained.
const TRIES: u8 = 64;

/// Whether an event had no effect: busy, miss, stalled, empty, or no such client.
fn is_idle<const W: usize>(outcome: &Outcome<W>) -> bool
    ensures { result ≡ is_idle outcome.now }
{
    match outcome {
        Outcome::Replied { reply } => matches!(reply, Reply::Busy(_) | Reply::Miss),
        Outcome::Empty | Outcome::Stalled | Outcome::NoSuchClient => true,
        Outcome::Moved { .. } | Outcome::Done { .. } => false,
    }
}

/// Whether an event is kept: always if it had an effect, otherwise now and then.
#[tactic(auto, unfolding(crate::specs::statement::Drawn::takes))]
fn takes<const W: usize>(rng: &mut Xoshiro256PlusPlus, outcome: &Outcome<W>) -> bool
    ensures { Draws (takes outcome.now) rng.old rng.new result }
{
    !is_idle(outcome) || is_one_in(rng, IDLE)
}

/// A generator, and the world in which its lines are played.
#[derive(Drop)]
pub(crate) struct Generator<const W: usize> {
    rng: Xoshiro256PlusPlus,
    world: World<W, AnyClient<W>, BitDirectory>,
    line: Vec<u8>,
}

/// One of the first `count` blocks; 0 if `count` is 0.
#[tactic(auto, unfolding(crate::specs::statement::Drawn::block_below))]
fn block_below(rng: &mut Xoshiro256PlusPlus, count: u16) -> u16
    ensures { Draws (block_below count) rng.old rng.new result }
{
    if count == 0 {
        return 0;
    }
    below(rng, u64::from(count)) as u16
}

/// A block: seven times in eight one of the contended blocks, otherwise any.
#[tactic(auto, unfolding(crate::specs::statement::Drawn::block_of))]
fn block(rng: &mut Xoshiro256PlusPlus, options: &Options) -> u16
    ensures { Draws (block_of options.now) rng.old rng.new result }
{
    if is_one_in(rng, 8) {
        block_below(rng, options.config.blocks)
    } else {
        block_below(rng, options.contend)
    }
}

/// One of the clients.
#[tactic(auto, using(crate::proofs::Schedules::some_clients, crate::proofs::Schedules::few_clients))]
fn client(rng: &mut Xoshiro256PlusPlus, options: &Options) -> u8
    ensures drawn { Draws (below (length options.now.config.clients.items)) rng.old rng.new result }
    ensures within { result < length options.now.config.clients.items }
{
    below(rng, options.config.clients.len() as u64) as u8
}

/// Appends the line by which a client, which holds this permission of the block, is asked for an operation.
#[tactic(auto, unfolding(crate::specs::statement::Drawn::asking_line))]
fn append_asking<const W: usize>(
    rng: &mut Xoshiro256PlusPlus,
    line: &mut Vec<u8>,
    client: u8,
    level: Level,
    block: u16,
    held: Perm,
) -> Result<(), AllocError>
    requires { IsWidth W }
    ensures line { OnOk result (line.new.items ≡ line.old.items
        ++ (asking_line W level client block held (words_from rng.old)).0) }
    ensures rest { words_from rng.new ≡ (asking_line W level client block held (words_from rng.old)).1 }
{
    let request = request::<W>(rng, level, block, held);
    append_request::<W>(line, client, &request)
}

/// Appends the line of a delivery on a client's link.
#[tactic(auto, unfolding(crate::specs::statement::Drawn::delivery_line))]
fn append_delivering<const W: usize>(
    rng: &mut Xoshiro256PlusPlus,
    line: &mut Vec<u8>,
    client: u8,
    level: Level,
) -> Result<(), AllocError>
    ensures line { OnOk result (line.new.items ≡ line.old.items
        ++ (delivery_line W level client (words_from rng.old)).0) }
    ensures rest { words_from rng.new ≡ (delivery_line W level client (words_from rng.old)).1 }
{
    let channel = channel(rng, level);
    append_delivery::<W>(line, client, channel)
}

/// A new world with the options' configuration.
fn fresh_world<const W: usize>(
    alloc: Global,
    options: &Options,
) -> Result<World<W, AnyClient<W>, BitDirectory>, AllocError>
    requires { IsWidth W }
    ensures { IfOk result (λ world. IsFreshOf options.now.config world) }
{
    let config = Config {
        blocks: options.config.blocks,
        trackers: options.config.trackers,
        clients: options.config.clients.clone()?,
        profile: options.config.profile,
    };
    world_of(alloc, config)
}

impl<const W: usize> Generator<W> {
    /// A generator of the options' seed, and a new world with their configuration.
    pub(crate) fn new(alloc: Global, options: &Options) -> Result<Self, AllocError>
        requires { IsWidth W }
        ensures words { IfOk result (λ generator. words_from generator.rng ≡ words_of options.now.seed) }
        ensures world { IfOk result (λ generator. IsFreshOf options.now.config generator.world) }
    {
        Ok(Generator {
            rng: Xoshiro256PlusPlus::seed_from_u64(options.seed),
            world: fresh_world(alloc, options)?,
            line: Vec::new(alloc),
        })
    }

    /// Draws a line into `line`: two times in five an operation of a client, otherwise a delivery.
    #[tactic(auto, unfolding(crate::specs::statement::Drawn::line_drawn))]
    fn draw_line(&mut self, options: &Options) -> Result<(), AllocError>
        requires { IsWidth W }
        ensures world { self.new.world ≡ self.old.world }
        ensures drawn { OnOk result ((log : Log W) → HasHappened options.now.config self.old.world log →
            Draws (line_drawn options.now log) self.old.rng self.new.rng self.new.line.items) }
    {
        self.line.clear();
        let client = client(&mut self.rng, options);
        let level = options.config.clients.as_slice()[usize::from(client)].level;
        if below(&mut self.rng, 5) < 2 {
            let block = block(&mut self.rng, options);
            let held = self.world.held(client, block);
            append_asking::<W>(&mut self.rng, &mut self.line, client, level, block, held)
        } else {
            append_delivering::<W>(&mut self.rng, &mut self.line, client, level)
        }
    }

    /// Appends a line that drains the world, and drains it.
    fn append_drain(&mut self, out: &mut Vec<u8>) -> Result<(), AllocError>
        requires { IsWidth W }
        ensures line { OnOk result (out.new.items ≡ out.old.items ++ drain_line) }
        ensures drained { (config : Config) (log : Log W) → HasHappened config self.old.world log →
            IsDrainedOf config log self.new.world }
    {
        self.world.drain();
        out.extend_from_slice(b"drain\n")
    }

    /// Appends the next line: an event of the world, or `drain`. The world then has the events that were tried without
    /// effect, and that line.
    pub(crate) fn append_line(
        &mut self,
        options: &Options,
        out: &mut Vec<u8>,
    ) -> Result<(), AllocError>
        requires { IsWidth W }
        ensures line { OnOk result (GrowsByLine W options.now.config out.old.items out.new.items) }
        ensures played { OnOk result ((config : Config) →
            GrowsByPlay config self.old.world self.new.world out.old.items out.new.items) }
    {
        if is_one_in(&mut self.rng, DRAIN) {
            return self.append_drain(out);
        }
        for _ in 0..TRIES {
            self.draw_line(options)?;
            if let Some(event) = event_in(&options.config, self.line.as_slice()) {
                let outcome = self.world.step(event);
                if takes(&mut self.rng, &outcome) {
                    return out.extend_from_slice(self.line.as_slice());
                }
            }
        }
        self.append_drain(out)
    }
}
