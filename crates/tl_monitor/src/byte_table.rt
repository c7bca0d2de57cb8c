//! A table whose keys are bytes.

ghost use Rattle.std.specs.Prelude.{ℕ, List, Option, None, is_some, if◌then◌else◌, ◌==◌, ◌≡◌, ◌≤◌};
ghost use Rattle.tl_monitor.specs.statement.Count.{at, count_below};

use std::marker::Model;

/// Values for some of the 256 bytes. A contract sees the list of the 256.
#[derive(Drop)]
pub struct ByteTable<T> {
    values: [Option<T>; 256],
    len: usize,
}

impl<T> Model for ByteTable<T> {
    ghost Value = { List (Option T) };

    ghost view = { λ s. s.values };

    ghost invariant = { λ s. s.len ≡ count_below 256 (λ i. is_some (at s.values i)) };
}

impl<T: Copy> ByteTable<T> {
    /// A table without values.
    pub fn new() -> Self
        ensures { (i : ℕ) → at result i ≡ None }
    {
        ByteTable {
            values: [None; 256],
            len: 0,
        }
    }

    /// The value of a byte, if it has one.
    pub fn get(&self, key: u8) -> Option<T>
        ensures { result ≡ at self.now key }
    {
        self.values[usize::from(key)]
    }

    /// Gives a byte a value, or removes its value.
    pub fn set(&mut self, key: u8, value: Option<T>)
        ensures { (i : ℕ) → at self.new i ≡ (if i == key then value else at self.old i) }
    {
        let slot = usize::from(key);
        let before = usize::from(self.values[slot].is_some());
        let after = usize::from(value.is_some());
        self.len = self.len - before + after;
        self.values[slot] = value;
    }

    /// The number of bytes with a value.
    pub fn len(&self) -> usize
        ensures counted { result ≡ count_below 256 (λ i. is_some (at self.now i)) }
        ensures few { result ≤ 256 }
    {
        self.len
    }
}
