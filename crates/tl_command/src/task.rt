//! The tasks of the program.

use crate::chart::Range;
use crate::command::Command;
use crate::cover::CoverForm;
use crate::random::Options;
use crate::search::{Aim, Inquiry};
use tl_params::liberties::Liberties;
use tl_wide::width::WideWidth;

/// A task of the program.
#[derive(Drop)]
pub enum Task {
    /// A command over the file of this name, or over standard input. `allow` has the liberties of the links beyond
    /// those that the header names, for `monitor`, `coherent` and `explain`. The file of the name `times` has the times
    /// of the trace's lines, for `explain`.
    Read {
        command: Command,
        allow: Liberties,
        file: Option<String>,
        times: Option<String>,
    },
    /// A readable line for each line of a wide beat of this width in the file of this name, or on standard input.
    DecodeWide {
        width: WideWidth,
        file: Option<String>,
    },
    /// The lines at fault of the trace in the file of this name, or on standard input.
    Search {
        aim: Aim,
        file: Option<String>,
    },
    /// The judgement of the trace in the file of this name, or on standard input, and its report in files of these
    /// names, as JSON and as JUnit.
    Report {
        inquiry: Inquiry,
        file: Option<String>,
        report: Option<String>,
        junit: Option<String>,
    },
    /// A chart of the trace in the file of this name, or on standard input. `allow` has the liberties of the links
    /// beyond those that the header names.
    Chart {
        range: Range,
        allow: Liberties,
        file: Option<String>,
    },
    /// The situations in the traces of the files of these names, or without a name in the trace on standard input, in
    /// this form.
    Cover {
        form: CoverForm,
        files: Vec<String>,
    },
    /// A random schedule.
    Draw {
        options: Options,
    },
}
