//! Both directories, through the calls that a manager makes.

ghost use Rattle.std.specs.Prelude.{◌≡◌};

use crate::expect::same;
use std::process::Abort;
use std::test::Fail;
use tl_manager::bits::BitDirectory;
use tl_manager::directory::Directory;
use tl_manager::table::TableDirectory;
use tl_rules::perm::Perm;

/// The words of block 0, and those of block 1, which no call changes.
fn words_are<D: Directory>(rt: &impl Abort, directory: &D, holders: u16, owners: u16)
    requires { D.blocks directory.now ≡ 2 }
{
    same(rt, &directory.holders(0), &holders);
    same(rt, &directory.owners(0), &owners);
    same(rt, &directory.holders(1), &0);
    same(rt, &directory.owners(1), &0);
}

fn records<D: Directory>(rt: &impl Abort, mut directory: D)
    requires blocks { D.blocks directory ≡ 2 }
    requires clients { D.clients directory ≡ 16 }
{
    words_are(rt, &directory, 0, 0);
    directory.set(0, 15, Perm::Trunk);
    words_are(rt, &directory, 0x8000, 0x8000);
    directory.set(0, 3, Perm::Branch);
    words_are(rt, &directory, 0x8008, 0x8000);
    directory.set(0, 15, Perm::None);
    words_are(rt, &directory, 0x0008, 0);
    same(rt, &directory.get(0, 3), &Perm::Branch);
    same(rt, &directory.get(0, 15), &Perm::None);
    same(rt, &directory.get(1, 3), &Perm::None);
}

#[test]
fn a_directory_of_words_records(rt: HostRuntime) -> Result<(), Fail> {
    let directory = BitDirectory::new(rt.alloc(), 2, 16)?;
    records(&rt, directory);
    Ok(())
}

#[test]
fn a_directory_of_entries_records(rt: HostRuntime) -> Result<(), Fail> {
    let directory = TableDirectory::new(rt.alloc(), 2, 16)?;
    records(&rt, directory);
    Ok(())
}
