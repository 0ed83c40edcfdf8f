use crate::told::Told;
use log_store::LogStore;
use slot_store::SlotStore;
use std::io;

// Blocks, and bytes.
const SLOTS: [(usize, usize); 9] = [
    (0, 0),
    (1, 129),
    (1, 130),
    (1, 131),
    (1, 0),
    (256, 33280),
    (256, 33279),
    (257, 33410),
    (65535, 130),
];

// Blocks, records in each half, and bytes.
const LOGS: [(usize, usize, usize); 14] = [
    (0, 1, 264),
    (1, 1, 264),
    (1, 2, 528),
    (1, 2, 527),
    (1, 2, 529),
    (1, 512, 135168),
    (1, 513, 135432),
    (4, 4, 1056),
    (4, 5, 1320),
    (256, 256, 67584),
    (256, 257, 67848),
    (256, 512, 135168),
    (257, 258, 68112),
    (65535, 65535, 0),
];

fn slots(rt: &impl Print) -> io::Result<()> {
    for (blocks, bytes) in SLOTS {
        let told = Told(SlotStore::check(blocks, bytes));
        println!(rt; "slots for {blocks} blocks in {bytes} bytes: {told}")?;
    }
    Ok(())
}

fn logs(rt: &impl Print) -> io::Result<()> {
    for (blocks, records, bytes) in LOGS {
        let told = Told(LogStore::check(blocks, records, bytes));
        println!(rt; "log for {blocks} blocks with {records} records in {bytes} bytes: {told}")?;
    }
    Ok(())
}

pub(crate) fn all(rt: &impl Print) -> io::Result<()> {
    slots(rt)?;
    logs(rt)
}
