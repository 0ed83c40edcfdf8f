use crate::told::Told;
use std::io;
use store::{BLOCK_LEN, BlockStore};

const LENGTHS: [usize; 4] = [0, 127, 128, 129];

const VERSIONS: [u16; 4] = [1, 65535, 0, 258];

// A store, and what tells the cases that are tried at it.
#[derive(Drop)]
pub(crate) struct Cases<'a, P, S> {
    pub(crate) rt: &'a P,
    pub(crate) store: S,
}

impl<P: Print, S: BlockStore> Cases<'_, P, S> {
    // What a block is read as: its version, and the bytes at both ends of the buffer, which begin as 9.
    fn look(&self, index: usize) -> io::Result<()> {
        let mut buffer = [9; BLOCK_LEN];
        let told = Told(self.store.read(index, &mut buffer));
        let [first, .., last] = buffer;
        let version = self.store.version(index).unwrap_or(0);
        println!(self.rt; "  read {index}: {told}, version {version}, {first} to {last}")
    }

    fn lay(&mut self, index: usize, version: u16) -> io::Result<()> {
        let told = Told(self.store.write(index, version, &[7; BLOCK_LEN]));
        println!(self.rt; "  write {index} version {version}: {told}")?;
        self.look(index)
    }

    // Every version at one index.
    fn versions(&mut self, index: usize) -> io::Result<()> {
        for version in VERSIONS {
            self.lay(index, version)?;
        }
        Ok(())
    }

    // A buffer, and then a block, of some length: what is refused leaves them as they were.
    fn part(&mut self, index: usize, bytes: &mut [u8]) -> io::Result<()> {
        let length = bytes.len();
        let read = Told(self.store.read(index, bytes));
        let first = bytes.first().copied().unwrap_or(0);
        let write = Told(self.store.write(index, 3, bytes));
        println!(self.rt; "  {length} bytes at {index}: read {read}, buffer {first}, write {write}")
    }

    fn lengths(&mut self, index: usize) -> io::Result<()> {
        for length in LENGTHS {
            self.part(index, &mut [8; 129][..length])?;
        }
        self.look(index)
    }

    pub(crate) fn all(&mut self) -> io::Result<()> {
        let count = self.store.block_count();
        let last = count.saturating_sub(1);
        self.store.clear();
        self.look(last)?;
        self.versions(last)?;
        self.lay(count, 1)?;
        self.lay(65535, 1)?;
        self.lengths(last)?;
        self.lengths(count)?;
        self.store.clear();
        self.look(last)
    }
}
