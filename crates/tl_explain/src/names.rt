//! Lists of names.

use std::io;
use std::io::Write;

/// Appends names with a comma between each two; whether one has been appended.
#[derive(Drop)]
pub struct Names {
    pub any: bool,
}

impl Names {
    /// Appends one more name.
    pub fn append(&mut self, name: &str, out: &mut Vec<u8>) -> io::Result<()> {
        if self.any {
            out.write_all(b", ")?;
        }
        self.any = true;
        out.write_all(name.as_bytes())
    }
}
