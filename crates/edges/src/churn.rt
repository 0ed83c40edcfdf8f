// A log that is compacted many times, held against what was last written.
use log_store::LogStore;
use std::io;
use store::{BLOCK_LEN, Block, BlockStore};

const BLOCKS: usize = 3;

const RECORDS: usize = 7;

const MEMORY: usize = 2 * 132 * RECORDS;

// The block that is written with a version.
fn block(version: u16) -> Block {
    [(version % 251) as u8; BLOCK_LEN]
}

// Whether a block is read as something else than was last written to it.
fn is_amiss(log: &LogStore, index: usize, version: u16) -> bool {
    let mut buffer = [9; BLOCK_LEN];
    log.read(index, &mut buffer).is_err()
        || log.version(index) != Ok(version)
        || buffer != block(version)
}

// How many blocks are read as something else than was last written to them.
fn differences(log: &LogStore, versions: &[u16; BLOCKS]) -> usize {
    versions
        .iter()
        .enumerate()
        .filter(|&(index, &version)| is_amiss(log, index, version))
        .count()
}

// Writes each version to the block that it comes to by turns, and tells how often the halves changed and what was read amiss.
fn churn(rt: &impl Print, log: &mut LogStore, writes: u16) -> io::Result<()> {
    let mut versions = [0; BLOCKS];
    let mut compactions: u32 = 0;
    let mut amiss: usize = 0;
    for n in 0..writes {
        let before = log.half_in_use();
        let index = usize::from(n / 2) % BLOCKS;
        versions[index] = n;
        let _ = log.write(index, n, &block(n));
        if log.half_in_use() != before {
            compactions = compactions.saturating_add(1);
        }
        amiss = amiss.saturating_add(differences(log, &versions));
    }
    println!(rt; "{writes} writes to a log: {compactions} compactions, {amiss} blocks read amiss")
}

pub(crate) fn all(rt: &impl Print) -> io::Result<()> {
    let mut memory = [5; MEMORY];
    match LogStore::new(BLOCKS, RECORDS, &mut memory) {
        Ok(mut log) => churn(rt, &mut log, 2000),
        Err(_) => println!(rt; "refused"),
    }
}
