//! That the bytes of one memory are true, as laws.

ghost use Rattle.tl_one_memory.specs.statement.OpenWindows.{AnswersInWindows};
ghost use Rattle.tl_one_memory.specs.statement.TrueBytes.{TrueBytes};
ghost use Rattle.tl_one_memory.specs.statement.Windowed.{AnswersAfterWindows};

/// If the beats of all links come of one memory, which may serve each byte of a Get or a Put by itself, each beat of a
/// GrantData has bytes that may be granted, and each beat of an AccessAckData bytes that its request may bring.
pub fn brings_true_bytes<const W: usize>()
    ensures { TrueBytes W }
{}

/// If the beats of all links come of one memory, each beat that answers an access comes after a window of each byte
/// that it has written or brought by then, since its request asked for the byte.
pub fn answers_after_windows<const W: usize>()
    ensures { AnswersAfterWindows W }
{}

/// If the beats of all links come of one memory, and no beat breaks a rule of its link, no answer breaks M4 to an
/// access that reads, or writes a byte of its block with its last beat.
pub fn answers_in_windows<const W: usize>()
    ensures { AnswersInWindows W }
{}
