//! The unfinished bursts of a link.

ghost use Rattle.std.specs.Prelude.{IsTrue, None, is_none, ◌≡◌};
ghost use Rattle.tl_beat.specs.statement.Width.{IsWidth};
ghost use Rattle.tl_beat.specs.declared.channel.Channel.TheVariants as channel;
ghost use Rattle.tl_burst.specs.statement.Messages;
ghost use Rattle.tl_burst.specs.statement.Part.{is_small};
ghost use Rattle.tl_monitor.specs.code.Bursts.{burst_on, continues_burst, is_last, burst_next, burst_with, IsMiddle};

use tl_beat::beat::Beat;
use tl_beat::control::Control;
use tl_burst::burst::burst_length;

/// An unfinished burst: the control fields of its beats, the number of beats to come, and a value that was given with
/// the first beat.
#[derive(Clone, Copy)]
pub struct Unfinished<P> {
    pub control: Control,
    pub left: u8,
    pub beside: P,
}

/// The unfinished burst of each channel.
#[derive(Clone, Copy)]
pub struct Bursts<P> {
    pub a: Option<Unfinished<P>>,
    pub b: Option<Unfinished<P>>,
    pub c: Option<Unfinished<P>>,
    pub d: Option<Unfinished<P>>,
    pub e: Option<Unfinished<P>>,
}

/// Takes the next beat of a burst, which completes the message or doesn't. `beside` is kept if the beat is the first.
#[inline(always)]
fn advance<const W: usize, P: Copy>(
    last: bool,
    beat: &Beat<W>,
    beside: &P,
    burst: &mut Option<Unfinished<P>>,
)
    requires width { IsWidth W }
    requires small { IsTrue (is_small beat.now) }
    requires last { last ≡ is_last beat.now burst.old }
    ensures { burst.new ≡ burst_next beat.now beside.now burst.old }
{
    if last {
        *burst = None;
        return;
    }
    let (left, beside) = match burst {
        None => (burst_length(beat).saturating_sub(1), *beside),
        Some(burst) => (burst.left.saturating_sub(1), burst.beside),
    };
    *burst = Some(Unfinished {
        control: beat.control(),
        left,
        beside,
    });
}

/// Counts a beat in the middle of a burst, which has the control fields of the earlier ones.
#[inline(always)]
fn count_in<const W: usize, P: Copy>(beat: &Beat<W>, burst: &mut Option<Unfinished<P>>)
    requires { IsMiddle beat.now burst.old }
    ensures { (beside : P) → burst.new ≡ burst_next beat.now beside burst.old }
{
    if let Some(burst) = burst {
        burst.left -= 1;
    }
}

impl<P: Copy> Bursts<P> {
    /// No burst on any channel.
    pub fn new() -> Self
        ensures a { result.a ≡ None }
        ensures b { result.b ≡ None }
        ensures c { result.c ≡ None }
        ensures d { result.d ≡ None }
        ensures e { result.e ≡ None }
    {
        Bursts {
            a: None,
            b: None,
            c: None,
            d: None,
            e: None,
        }
    }

    /// The unfinished burst on the channel of a beat.
    #[inline(always)]
    pub fn of<const W: usize>(&self, beat: &Beat<W>) -> &Option<Unfinished<P>>
        ensures { result.now ≡ burst_on self.now (Messages.channel_of beat.now) }
    {
        match beat {
            Beat::A(_) => &self.a,
            Beat::B(_) => &self.b,
            Beat::C(_) => &self.c,
            Beat::D(_) => &self.d,
            Beat::E(_) => &self.e,
        }
    }

    /// Whether a beat begins a message.
    #[inline(always)]
    pub fn begins<const W: usize>(&self, beat: &Beat<W>) -> bool
        ensures { result ≡ is_none (burst_on self.now (Messages.channel_of beat.now)) }
    {
        self.of(beat).is_none()
    }

    /// Whether a beat has the control fields of the unfinished burst on its channel, if there is one.
    pub fn continues<const W: usize>(&self, beat: &Beat<W>) -> bool
        ensures { result ≡ continues_burst beat.now (burst_on self.now (Messages.channel_of beat.now)) }
    {
        match self.of(beat) {
            None => true,
            Some(burst) => beat.has_control(&burst.control),
        }
    }

    /// Whether a beat completes its message, if it continues the burst on its channel.
    pub fn completes<const W: usize>(&self, beat: &Beat<W>) -> bool
        requires width { IsWidth W }
        requires small { IsTrue (is_small beat.now) }
        ensures { result ≡ is_last beat.now (burst_on self.now (Messages.channel_of beat.now)) }
    {
        match self.of(beat) {
            None => burst_length(beat) <= 1,
            Some(burst) => burst.left <= 1,
        }
    }

    /// Takes a beat, which completes its message or doesn't. `beside` is kept if the beat is the first.
    #[inline(always)]
    pub fn take<const W: usize>(&mut self, last: bool, beat: &Beat<W>, beside: &P)
        requires width { IsWidth W }
        requires small { IsTrue (is_small beat.now) }
        requires last { last ≡ is_last beat.now (burst_on self.old (Messages.channel_of beat.now)) }
        ensures a { self.new.a ≡ burst_with channel.A beat.now beside.now self.old.a }
        ensures b { self.new.b ≡ burst_with channel.B beat.now beside.now self.old.b }
        ensures c { self.new.c ≡ burst_with channel.C beat.now beside.now self.old.c }
        ensures d { self.new.d ≡ burst_with channel.D beat.now beside.now self.old.d }
        ensures e { self.new.e ≡ burst_with channel.E beat.now beside.now self.old.e }
    {
        match beat {
            Beat::A(_) => advance(last, beat, beside, &mut self.a),
            Beat::B(_) => advance(last, beat, beside, &mut self.b),
            Beat::C(_) => advance(last, beat, beside, &mut self.c),
            Beat::D(_) => advance(last, beat, beside, &mut self.d),
            Beat::E(_) => advance(last, beat, beside, &mut self.e),
        }
    }

    /// Counts a beat in the middle of its burst.
    #[inline(always)]
    pub fn count<const W: usize>(&mut self, beat: &Beat<W>)
        requires { IsMiddle beat.now (burst_on self.old (Messages.channel_of beat.now)) }
        ensures a { (beside : P) → self.new.a ≡ burst_with channel.A beat.now beside self.old.a }
        ensures b { (beside : P) → self.new.b ≡ burst_with channel.B beat.now beside self.old.b }
        ensures c { (beside : P) → self.new.c ≡ burst_with channel.C beat.now beside self.old.c }
        ensures d { (beside : P) → self.new.d ≡ burst_with channel.D beat.now beside self.old.d }
        ensures e { (beside : P) → self.new.e ≡ burst_with channel.E beat.now beside self.old.e }
    {
        match beat {
            Beat::A(_) => count_in(beat, &mut self.a),
            Beat::B(_) => count_in(beat, &mut self.b),
            Beat::C(_) => count_in(beat, &mut self.c),
            Beat::D(_) => count_in(beat, &mut self.d),
            Beat::E(_) => count_in(beat, &mut self.e),
        }
    }
}
