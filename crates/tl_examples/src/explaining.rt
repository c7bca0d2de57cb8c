//! Explains verdicts, and the rules and faults by their names.

use std::alloc::Global;
use std::io::{Read, Write};
use std::{fs, io};
use tl_lines::output::write_all;
use tl_lines::status::Status;
use tl_params::liberties::Liberties;
use tl_reasons::explain::explain_input;
use tl_reasons::explain_fault::ExplainFault;
use tl_reasons::named::tell_named;

/// The names of the rules and faults that are explained.
pub const NAMES: [&str; 37] = [
    "L1", "L2", "L3", "L4", "L5", "L6", "L7", "S1", "H1", "H2", "H3", "H4", "H5", "H6", "H7", "H8",
    "H9", "H10", "H11", "H12", "H13", "M1", "M2", "M3", "M4", "M5", "M6", "M7", "F1", "F2", "F3",
    "F4", "F5", "F6", "F7", "F8", "F9",
];

/// Writes the name of a trace, a separator, and the explanation of its verdict.
fn explain<R: Read, S: Read, W: Write>(
    alloc: Global,
    coherent: bool,
    name: &str,
    first: &mut R,
    second: &mut S,
    output: &mut W,
) -> Result<Status, ExplainFault> {
    write_all(output, name.as_bytes())?;
    let separator: &[u8] = if coherent { b" coherent: " } else { b": " };
    write_all(output, separator)?;
    explain_input(alloc, coherent, Liberties::none(), first, second, output)
}

/// Explains each of the traces with these names. Returns whether all could be read and explained.
pub fn explain_all(rt: &HostRuntime, coherent: bool, names: &[&str]) -> bool {
    for name in names {
        let Ok(mut first) = fs::open(rt, *name) else {
            return false;
        };
        let Ok(mut second) = fs::open(rt, *name) else {
            return false;
        };
        if explain(
            rt.alloc(),
            coherent,
            name,
            &mut first,
            &mut second,
            &mut io::writer(rt),
        )
        .is_err()
        {
            return false;
        }
    }
    true
}

/// Writes the explanation of each of these rules and faults. Returns whether it could.
pub fn tell_names(rt: &HostRuntime, names: &[&str]) -> bool {
    for name in names {
        let mut text = Vec::new(rt.alloc());
        if !matches!(tell_named(name, &mut text), Ok(true)) {
            return false;
        }
        if write_all(&mut io::writer(rt), &text).is_err() {
            return false;
        }
    }
    true
}
