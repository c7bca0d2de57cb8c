//! The commands of the program.

pub use tl_params::width::Width;

/// The form of the output of `run`.
#[derive(Clone, Copy, Debug, PartialEq, Eq)]
pub enum RunForm {
    /// The outcome of each event.
    Outcomes,
    /// The trace: its header, and the beats that move.
    Trace,
    /// The trace with the stores and loads of the clients in their copies.
    TraceWithCommits,
}

/// A command of the program over its input.
#[derive(Clone, Copy, Debug, PartialEq, Eq)]
pub enum Command {
    /// Writes a readable line for each beat line of this width.
    Decode { width: Width },
    /// Judges a recorded trace, each link by itself.
    Monitor,
    /// Judges a recorded trace of all links of a manager together.
    Coherent,
    /// Judges a recorded trace, each link by itself or all together, and explains its first line at fault.
    Explain { coherent: bool },
    /// Plays a schedule, and writes its outcomes or its trace.
    Run { form: RunForm },
}
