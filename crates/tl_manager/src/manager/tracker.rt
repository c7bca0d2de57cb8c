//! The trackers of the requests in service.

ghost use Rattle.std.specs.Prelude.{ℕ, ◌≡◌, ◌<◌, ◌≤◌, ◌==◌, ◌&&◌, if◌then◌else◌, true, false, IfSome};
ghost use Rattle.std.specs.Prelude.{◌≢◌, slice_index_or};
ghost use Rattle.tl_manager.specs.declared.manager.tracker.Tracker.{Tracker};

use tl_beat::beat::Link;
use tl_burst::message::MessageA;
use tl_rules::key::block_at;
use tl_rules::kind::is_acquire;

/// The state of a tracker.
#[derive(Clone, Copy)]
pub enum Tracker<const W: usize> {
    /// It has no request.
    Free,
    /// Its request waits for the ProbeAcks of the clients whose bit is set.
    Probing {
        link: Link,
        request: MessageA<W>,
        missing: u16,
    },
    /// Its Grant was handed out, and the GrantAck is missing.
    Granted {
        link: Link,
        block: u32,
    },
}

impl<const W: usize> Tracker<W> {
    ghost use Rattle.tl_manager.specs.code.Tracking;

    /// Whether it has no request.
    pub fn is_free(&self) -> bool
        ensures { result ≡ Tracking.is_free self.now }
    {
        matches!(self, Tracker::Free)
    }

    /// Whether its request is for the block.
    pub fn is_of(&self, block: u32) -> bool
        ensures { result ≡ Tracking.is_of block self.now }
    {
        match self {
            Tracker::Free => false,
            Tracker::Probing { request, .. } => block_at(request.address) == block,
            Tracker::Granted { block: granted, .. } => *granted == block,
        }
    }

    /// Whether its request came on the link with this source and isn't answered.
    pub fn serves_source(&self, link: Link, source: u8) -> bool
        ensures { result ≡ Tracking.serves_source link.0 source self.now }
    {
        match self {
            Tracker::Probing {
                link: asking,
                request,
                ..
            } => asking.0 == link.0 && request.source == source,
            _ => false,
        }
    }
}

impl<const W: usize> Tracker<W> {
    ghost use Rattle.tl_manager.specs.code.Tracking;

    /// Its request, if that isn't answered.
    pub fn request(&self) -> Option<MessageA<W>>
        ensures { result ≡ Tracking.request_in self.now }
    {
        match self {
            Tracker::Probing { request, .. } => Some(*request),
            _ => None,
        }
    }

    /// Whether its request is an Acquire of this client and isn't granted.
    pub fn awaits_grant(&self, client: Link) -> bool
        ensures { result ≡ Tracking.awaits_grant client.0 self.now }
    {
        match self {
            Tracker::Probing { link, request, .. } => {
                is_acquire(request.opcode) && link.0 == client.0
            }
            _ => false,
        }
    }

    /// Whether it waits for the GrantAck of this client.
    pub fn awaits_grant_ack(&self, client: Link) -> bool
        ensures { result ≡ Tracking.awaits_grant_ack client.0 self.now }
    {
        match self {
            Tracker::Granted { link, .. } => link.0 == client.0,
            _ => false,
        }
    }

    /// Whether it waits for the ProbeAck of this client.
    pub fn awaits_probe_ack(&self, client: Link) -> bool
        requires { client.0 < 16 }
        ensures { result ≡ Tracking.awaits_probe_ack client.0 self.now }
    {
        match self {
            Tracker::Probing { missing, .. } => (*missing >> client.0) % 2 == 1,
            _ => false,
        }
    }
}

/// The trackers: eight, of which `count` may be used. From the number `used` on all are free.
#[derive(Clone, Copy)]
pub struct Trackers<const W: usize> {
    pub all: [Tracker<W>; 8],
    pub count: u8,
    used: u8,
    ghost few: { used ≤ 8 },
    ghost unused: { (n : ℕ) → used ≤ n → slice_index_or all n Tracker.Free ≡ Tracker.Free },
}

impl<const W: usize> Trackers<W> {
    ghost use Rattle.tl_manager.specs.code.Tracking;
    ghost use Rattle.tl_manager.specs.code.Trackers.{tracker_at, IsAsked, IsOfBlock};

    /// Trackers of which this many may be used, all free.
    pub fn new(count: u8) -> Self
        ensures free { (n : ℕ) → tracker_at result n ≡ Tracker.Free }
        ensures count { result.count ≡ count }
    {
        Trackers {
            all: [Tracker::Free; 8],
            count,
            used: 0,
        }
    }

    /// The tracker with this number.
    pub fn at(&self, number: u8) -> Tracker<W>
        ensures { result ≡ tracker_at self.now number }
    {
        match self.all.get(usize::from(number)) {
            Some(tracker) => *tracker,
            None => Tracker::Free,
        }
    }

    /// The tracker with this number, by reference.
    fn look(&self, number: u8) -> &Tracker<W>
        requires { number < 8 }
        ensures { result.now ≡ tracker_at self.now number }
    {
        &self.all[usize::from(number)]
    }

    /// The least number of a free tracker; 8 if none is free.
    fn least_unused(&self) -> u8
        ensures free { Tracking.is_free (tracker_at self.now result) ≡ true }
        ensures least { (i : ℕ) → i < result → Tracking.is_free (tracker_at self.now i) ≡ false }
    {
        for number in 0..self.used {
            if self.look(number).is_free() {
                return number;
            }
        }
        self.used
    }

    /// The least number of a free tracker that may be used, if there is one.
    pub fn least_free(&self) -> Option<u8>
        ensures free { IfSome result (λ n. (n < self.now.count) × (Tracking.is_free (tracker_at self.now n) ≡ true)
            × ((i : ℕ) → i < n → Tracking.is_free (tracker_at self.now i) ≡ false)) }
        ensures none { result ≡ None → (i : ℕ) → i < self.now.count → Tracking.is_free (tracker_at self.now i) ≡ false }
    {
        let number = self.least_unused();
        if number < self.count {
            Some(number)
        } else {
            None
        }
    }

    /// The number of the tracker whose request is for the block, if there is one.
    pub fn serving(&self, block: u32) -> Option<u8>
        ensures found { IfSome result (λ n. (n < 8) × (Tracking.is_of block (tracker_at self.now n) ≡ true)) }
        ensures none { result ≡ None → (i : ℕ) → Tracking.is_of block (tracker_at self.now i) ≡ false }
    {
        for number in 0..self.used {
            if self.look(number).is_of(block) {
                return Some(number);
            }
        }
        None
    }

    /// The request that came on the link with this source and isn't answered, if there is one.
    pub fn asked(&self, link: Link, source: u8) -> Option<MessageA<W>>
        ensures { IsAsked self.now link.0 source result }
    {
        for number in 0..self.used {
            let tracker = self.look(number);
            if tracker.serves_source(link, source) {
                return tracker.request();
            }
        }
        None
    }

    /// The tracker whose request is for the block; a free one if there is none.
    pub fn of_block(&self, block: u32) -> Tracker<W>
        ensures { IsOfBlock self.now block result }
    {
        match self.serving(block) {
            None => Tracker::Free,
            Some(number) => self.at(number),
        }
    }

    /// The number from which on all trackers are free, after the one with this number becomes free or used.
    fn used_with(&self, number: u8, free: bool) -> u8
        requires { number < 8 }
        ensures few { result ≤ 8 }
        ensures unused { (n : ℕ) → result ≤ n → n ≢ number → tracker_at self.now n ≡ Tracker.Free }
        ensures here { result ≤ number → free ≡ true }
    {
        if free && number + 1 == self.used {
            number
        } else if free || number < self.used {
            self.used
        } else {
            number + 1
        }
    }

    /// Sets the state of one tracker.
    pub fn set(&mut self, number: u8, tracker: Tracker<W>)
        requires { number < 8 }
        ensures trackers { (n : ℕ) →
            tracker_at self.new n ≡ (if number == n then tracker.entry else tracker_at self.old n) }
        ensures count { self.new.count ≡ self.old.count }
    {
        let free = tracker.is_free();
        if free && number >= self.used {
            return;
        }
        self.used = self.used_with(number, free);
        self.all[usize::from(number)] = tracker;
    }
}
