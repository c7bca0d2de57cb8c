//! A directory of one entry for each block and client.

ghost use Rattle.std.specs.Prelude.{◌≡◌, ◌≤◌, ◌<◌, ◌≢◌, ℕ, IfOk, length};
ghost use Rattle.tl_manager.specs.code.Table.{entry};
ghost use Rattle.tl_manager.specs.code.Bits.{perm_in};

use crate::bits::Words;
use crate::directory::Directory;
use std::alloc::{AllocError, Global};
use tl_rules::config::MOST_CLIENTS;
use tl_rules::perm::Perm;

/// A directory of one entry for each block and client.
#[derive(Drop)]
pub struct TableDirectory {
    rows: Vec<[Perm; MOST_CLIENTS]>,
    clients: u8,
    ghost few: { clients ≤ 16 },
}

impl TableDirectory {
    ghost use Rattle.tl_manager.specs.code.Directories.{perm_of_table, blocks_of_table, clients_of_table};

    /// A directory of this many blocks and clients, at most 16, with no permission recorded. The error means that there
    /// is no memory left.
    pub fn new(alloc: Global, blocks: u16, clients: u8) -> Result<TableDirectory, AllocError>
        requires { clients ≤ 16 }
        ensures none { IfOk result (λ d. (b c : ℕ) → perm_of_table d b c ≡ Perm.None) }
        ensures covers { IfOk result (λ d. (blocks_of_table d ≡ blocks) × (clients_of_table d ≡ clients)) }
    {
        let mut rows = Vec::new(alloc);
        rows.resize(usize::from(blocks), [Perm::None; MOST_CLIENTS])?;
        Ok(TableDirectory { rows, clients })
    }
}

/// The entries of a block after one of them is recorded.
fn with_entry(mut row: [Perm; MOST_CLIENTS], client: u8, perm: Perm) -> [Perm; MOST_CLIENTS]
    requires { client < 16 }
    ensures here { entry result client ≡ perm }
    ensures others { (c : ℕ) → c ≢ client → entry result c ≡ entry row c }
{
    row[usize::from(client)] = perm;
    row
}

/// The words of a block's entries.
fn words_in(row: &[Perm; MOST_CLIENTS]) -> Words
    ensures { (c : ℕ) → perm_in result.owners result.sharers c ≡ entry row.now c }
{
    let mut words = Words::NONE;
    for (client, perm) in row.iter().enumerate() {
        words = words.with(client as u8, *perm);
    }
    words
}

impl Directory for TableDirectory {
    ghost use Rattle.tl_manager.specs.code.Directories.{perm_of_table, blocks_of_table, clients_of_table};

    ghost perm_of = { perm_of_table };

    ghost blocks = { blocks_of_table };

    ghost clients = { clients_of_table };

    fn get(&self, block: u16, client: u8) -> Perm {
        self.rows[usize::from(block)][usize::from(client)]
    }

    fn set(&mut self, block: u16, client: u8, perm: Perm) {
        let block = usize::from(block);
        self.rows[block] = with_entry(self.rows[block], client, perm);
    }

    fn owners(&self, block: u16) -> u16 {
        words_in(&self.rows[usize::from(block)]).owners
    }

    fn holders(&self, block: u16) -> u16 {
        words_in(&self.rows[usize::from(block)]).holders()
    }
}
