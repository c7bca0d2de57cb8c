//! Explains a rule or a fault by its name.

use crate::commit_rules::{append_commit_sentence, grounds, rule_named};
use std::io;
use tl_explain::named;

/// Appends the explanation of the rule or fault with this name, and returns whether there is one.
pub fn tell_named(name: &str, out: &mut Vec<u8>) -> io::Result<bool> {
    match rule_named(name) {
        Some(rule) => {
            append_commit_sentence(rule, out)?;
            out.extend_from_slice(grounds(rule).as_bytes())?;
            Ok(true)
        }
        None => named::tell_named(name, out),
    }
}
