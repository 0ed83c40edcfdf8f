// Tries the stores at the edges of what they take, and prints a line for each case: the number of the refusal, or 0, and its place.

#![tactic(auto)]

mod cases;
mod churn;
mod layout;
mod sizes;
mod told;

use cases::Cases;
use log_store::LogStore;
use slot_store::SlotStore;
use std::{fmt, io};
use store::BlockStore;

// Tries every case at a store that was made.
fn try_cases<S: BlockStore + Drop, E: Drop>(
    rt: &impl Print,
    made: Result<S, E>,
    title: impl fmt::Display + Drop,
) -> io::Result<()> {
    match made {
        Ok(store) => {
            println!(rt; "{title}")?;
            Cases { rt, store }.all()
        }
        Err(_) => println!(rt; "refused"),
    }
}

fn slots(rt: &impl Print, blocks: usize, memory: &mut [u8]) -> io::Result<()> {
    let title = format_args!("slots, {blocks} blocks");
    try_cases(rt, SlotStore::new(blocks, memory), title)
}

fn log(rt: &impl Print, blocks: usize, records: usize, memory: &mut [u8]) -> io::Result<()> {
    let title = format_args!("log, {blocks} blocks, {records} records in each half");
    try_cases(rt, LogStore::new(blocks, records, memory), title)
}

// Stores of the smallest and of the largest sizes, over memory that held something else.
fn stores(rt: &impl Print) -> io::Result<()> {
    slots(rt, 1, &mut [1; 130])?;
    slots(rt, 256, &mut [1; 33280])?;
    log(rt, 1, 2, &mut [1; 528])?;
    log(rt, 256, 257, &mut [1; 67848])?;
    log(rt, 256, 512, &mut [1; 135168])
}

fn main(rt: HostRuntime) -> io::Result<()> {
    sizes::all(&rt)?;
    stores(&rt)?;
    layout::all(&rt)?;
    churn::all(&rt)
}
