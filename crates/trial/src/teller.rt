use crate::outcome::Outcome;
use refusal::Refusal;
use replicas::Replicas;
use std::io;
use store::BLOCK_LEN;

// A row of stores, and what tells each call on it and what came of the call.
#[derive(Drop)]
pub(crate) struct Teller<'a, P, R> {
    pub(crate) rt: &'a P,
    pub(crate) row: R,
}

impl<P: Print, R: Replicas> Teller<'_, P, R> {
    // Writes a block that repeats one byte.
    pub(crate) fn write_block(
        &mut self,
        site: usize,
        index: usize,
        version: u16,
        fill: u8,
    ) -> io::Result<()> {
        let outcome = Outcome(self.row.write(site, index, version, &[fill; BLOCK_LEN]));
        println!(self.rt;
            "write block {index} at site {site}, version {version}, 128 bytes of {fill}: {outcome}"
        )
    }

    // Writes every block of a site.
    pub(crate) fn write_all(&mut self, site: usize, blocks: usize) -> io::Result<()> {
        for index in 0..blocks {
            let fill = u8::try_from(index.saturating_add(20)).unwrap_or(u8::MAX);
            self.write_block(site, index, 1, fill)?;
        }
        Ok(())
    }

    // Reads a block into the buffer, and answers its version.
    fn fetch(&self, site: usize, index: usize, buffer: &mut [u8]) -> Result<u16, Refusal> {
        let version = self.row.version(site, index)?;
        self.row.read(site, index, buffer)?;
        Ok(version)
    }

    // Reads a block, and tells its version and its bytes at both ends.
    pub(crate) fn read_block(&self, site: usize, index: usize) -> io::Result<()> {
        print!(self.rt; "read block {index} at site {site}: ")?;
        let mut block = [99; BLOCK_LEN];
        let fetched = self.fetch(site, index, &mut block);
        let [first, .., last] = block;
        match fetched {
            Ok(version) => println!(self.rt; "version {version}, from byte {first} to byte {last}"),
            Err(refusal) => println!(self.rt; "refused, {refusal}"),
        }
    }

    // Reads a block into a buffer of any length.
    pub(crate) fn read_into(&self, site: usize, index: usize, buffer: &mut [u8]) -> io::Result<()> {
        let length = buffer.len();
        let outcome = Outcome(self.row.read(site, index, buffer));
        println!(self.rt; "read block {index} at site {site} into {length} bytes: {outcome}")
    }

    // Reads every block of a site.
    pub(crate) fn read_all(&self, site: usize, blocks: usize) -> io::Result<()> {
        for index in 0..blocks {
            self.read_block(site, index)?;
        }
        Ok(())
    }

    // Makes every block of a site blank.
    pub(crate) fn clear_site(&mut self, site: usize) -> io::Result<()> {
        let outcome = Outcome(self.row.clear(site));
        println!(self.rt; "clear site {site}: {outcome}")
    }
}
