//! The forms of a report on the situations of traces.

/// The form of a report on the situations of traces.
#[derive(Clone, Copy, Debug, PartialEq, Eq)]
pub enum CoverForm {
    /// The verdicts and the situations, as text.
    Text,
    /// The same, and then the tables of the links, as text.
    Tables,
    /// The verdicts, the situations and the tables of the links as one JSON object.
    Json,
}
