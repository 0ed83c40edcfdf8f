// What the stores leave in the memory that they were lent: the first five bytes of each slot and of each record.
use log_store::LogStore;
use slot_store::SlotStore;
use std::io;
use store::{BLOCK_LEN, BlockStore};

// Writes to both blocks of a store, to one of them again and again, and once with version 0.
fn fill<S: BlockStore + Drop, E: Drop>(made: Result<S, E>, again: u16) {
    if let Ok(mut store) = made {
        let _ = store.write(0, 258, &[7; BLOCK_LEN]);
        for version in 0..again {
            let _ = store.write(1, version, &[8; BLOCK_LEN]);
        }
    }
}

fn rows(rt: &impl Print, memory: &[u8], step: usize) -> io::Result<()> {
    let step = step.max(1);
    for (at, part) in (0..memory.len()).step_by(step).zip(memory.chunks(step)) {
        if let [a, b, c, d, e, ..] = part {
            println!(rt; "  byte {at}: {a} {b} {c} {d} {e}")?;
        }
    }
    Ok(())
}

fn slots(rt: &impl Print, again: u16) -> io::Result<()> {
    let mut memory = [9; 260];
    fill(SlotStore::new(2, &mut memory), again);
    println!(rt; "slots after {again} writes to block 1")?;
    rows(rt, &memory, 130)
}

fn log(rt: &impl Print, again: u16) -> io::Result<()> {
    let mut memory = [9; 792];
    fill(LogStore::new(2, 3, &mut memory), again);
    println!(rt; "log after {again} writes to block 1")?;
    rows(rt, &memory, 132)
}

pub(crate) fn all(rt: &impl Print) -> io::Result<()> {
    slots(rt, 0)?;
    slots(rt, 1)?;
    slots(rt, 2)?;
    log(rt, 0)?;
    log(rt, 2)?;
    log(rt, 3)?;
    log(rt, 5)
}
