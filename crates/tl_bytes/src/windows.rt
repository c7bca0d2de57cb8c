//! The windows for writing that an access has.

ghost use Rattle.std.specs.Prelude.{ℕ, suc, false, None, [], ◌∷◌, ◌≡◌, ◌≤◌, length};
ghost use Rattle.tl_beat.specs.declared.beat.Beat.{Beat};
ghost use Rattle.tl_beat.specs.declared.beat.Link.{Link};
ghost use Rattle.tl_params.specs.declared.perm.Perm.TheVariants as perm;
ghost use Rattle.tl_rules.specs.statement.Conformance.{Trace};
ghost use Rattle.tl_bytes.specs.statement.Free.{is_free};
ghost use Rattle.tl_bytes.specs.statement.Bytes.{last_window};
ghost use Rattle.tl_bytes.specs.statement.Known.{count_of};

/// The number of windows.
#[derive(Clone, Copy, Debug, PartialEq, Eq)]
pub enum WindowCount {
    Zero,
    One,
    More,
}

/// The windows in which an access that writes may have been performed.
#[derive(Clone, Copy, Debug, PartialEq, Eq)]
pub struct WritingWindows {
    /// Whether a window is open now.
    pub is_open: bool,
    pub count: WindowCount,
    /// The moment at which the open window began.
    pub began: u64,
    /// The last moment at which the block was free, if it isn't free now.
    pub last: u64,
}

/// The number with one window more.
fn one_more(count: WindowCount) -> WindowCount
    ensures { (n : ℕ) → count ≡ count_of n → result ≡ count_of (suc n) }
{
    match count {
        WindowCount::Zero => WindowCount::One,
        _ => WindowCount::More,
    }
}

impl WritingWindows {
    ghost use Rattle.tl_bytes.specs.statement.Known.{KnowsWindows};

    /// The windows of an access that may be performed from the moment `asked` on. `free` says whether its block is free
    /// then; if it isn't, `last` is the moment at which it last was.
    pub fn new(free: bool, asked: u64, last: u64) -> Self
        ensures { (w n block : ℕ) (x : Link × Beat w) (t : Trace w) →
            free ≡ is_free n perm.Trunk block (x ∷ t) → asked ≡ suc (length t) →
            (free ≡ false → last ≡ last_window n block (x ∷ t)) →
            KnowsWindows result n block asked (x ∷ t) }
    {
        WritingWindows {
            is_open: free,
            count: if free {
                WindowCount::One
            } else {
                WindowCount::Zero
            },
            began: asked,
            last,
        }
    }

    /// The windows after one more beat, at this moment. `free` says whether the block is free then.
    pub fn after(self, free: bool, moment: u64) -> Self
        ensures { (w n block asked : ℕ) (x : Link × Beat w) (t : Trace w) →
            KnowsWindows self n block asked t → asked ≤ length t →
            free ≡ is_free n perm.Trunk block (x ∷ t) → moment ≡ suc (length t) →
            KnowsWindows result n block asked (x ∷ t) }
    {
        if free == self.is_open {
            return self;
        }
        if free {
            WritingWindows {
                is_open: true,
                count: one_more(self.count),
                began: moment,
                ..self
            }
        } else {
            WritingWindows {
                is_open: false,
                last: moment.saturating_sub(1),
                ..self
            }
        }
    }
}
