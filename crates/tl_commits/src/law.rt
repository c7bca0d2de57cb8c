//! Laws: commits add to the rules of beats and change none.

ghost use Rattle.tl_commits.specs.statement.Alone.{JudgesAlone, JudgesBeats};

/// A trace without commits is judged as by the rules of beats, unless a link says that all its stores are in the trace.
/// If one does, a beat breaks the same rule of beats as before, or M7, or both.
pub fn judges_beats_alone<const W: usize>()
    ensures alone { JudgesAlone W }
    ensures beats { JudgesBeats W }
{}
