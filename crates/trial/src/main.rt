// Joins three block stores over lent memory in a row, and tells what it asks of them and what it sees. Then asks quorum rules which sets of sites
// they allow.

#![tactic(auto)]

mod outcome;
mod rules;
mod show;
mod teller;

use log_store::LogStore;
use outcome::Outcome;
use refusal::Refusal;
use replicas::{Joined, Replicas, Single};
use slot_store::SlotStore;
use std::io;
use store::COPY_LEN;
use teller::Teller;

// How many blocks each store has, and how many records each half of the log has room for.
const BLOCKS: usize = 4;

const RECORDS: usize = 6;

// The bytes that this takes: 130 for each slot, and 132 for each record of both halves.
const SLOTS_LEN: usize = COPY_LEN * BLOCKS;

const LOG_LEN: usize = 2 * 132 * RECORDS;

type Row<'a> = Joined<Single<SlotStore<'a>>, Joined<Single<LogStore<'a>>, Single<SlotStore<'a>>>>;

// A slot store, a log store and a slot store, one behind the other.
fn join<'a>(a: &'a mut [u8], b: &'a mut [u8], c: &'a mut [u8]) -> Result<Row<'a>, Refusal> {
    Ok(Joined {
        first: Single {
            store: SlotStore::new(BLOCKS, a)?,
        },
        second: Joined {
            first: Single {
                store: LogStore::new(BLOCKS, RECORDS, b)?,
            },
            second: Single {
                store: SlotStore::new(BLOCKS, c)?,
            },
        },
    })
}

fn tell_sizes(rt: &impl Print) -> io::Result<()> {
    let log = Outcome(LogStore::check(BLOCKS, BLOCKS, LOG_LEN));
    println!(rt; "a log of 4 blocks needs room for 5 records in each half; with 4: {log}")?;
    let slots = Outcome(SlotStore::check(BLOCKS, SLOTS_LEN - 1));
    println!(rt; "slots for 4 blocks take 520 bytes; in 519: {slots}")
}

impl<P: Print> Teller<'_, P, Row<'_>> {
    fn tell_log(&self) -> io::Result<()> {
        let log = &self.row.second.first.store;
        let half = log.half_in_use();
        let count = log.record_count();
        println!(self.rt; "  the log has its {half} half in use, with {count} records")
    }

    // Writes at the log until its half is full, and once more.
    fn tell_compaction(&mut self) -> io::Result<()> {
        self.tell_log()?;
        self.write_block(1, 2, 2, 32)?;
        self.write_block(1, 2, 3, 33)?;
        self.tell_log()?;
        self.write_block(1, 0, 2, 34)?;
        self.tell_log()?;
        self.read_all(1, BLOCKS)
    }

    // Writes at the first and the last site, which leaves the others as they are.
    fn tell_slots(&mut self) -> io::Result<()> {
        self.write_block(0, 0, 1, 10)?;
        self.write_block(2, 3, 65535, 12)?;
        self.read_block(0, 0)?;
        self.read_block(1, 0)?;
        self.read_block(2, 0)?;
        self.read_block(2, 3)
    }

    fn tell_refusals(&mut self) -> io::Result<()> {
        self.read_block(3, 0)?;
        self.read_block(2, BLOCKS)?;
        self.write_block(1, BLOCKS, 9, 99)?;
        self.read_into(0, 0, &mut [99; 127])?;
        self.clear_site(7)
    }

    fn tell(&mut self) -> io::Result<()> {
        let sites = self.row.site_count();
        println!(self.rt;
            "{sites} sites with {BLOCKS} blocks each: slots, a log of {RECORDS} records in each half, slots"
        )?;
        self.tell_slots()?;
        println!(self.rt; "a log that fills up is compacted into its other half:")?;
        self.write_all(1, BLOCKS)?;
        self.tell_compaction()?;
        println!(self.rt; "what is refused changes nothing:")?;
        self.tell_refusals()?;
        println!(self.rt; "version 0 is blank, written or cleared:")?;
        self.write_block(2, 3, 0, 77)?;
        self.read_block(2, 3)?;
        self.clear_site(1)?;
        self.tell_log()?;
        self.read_all(1, BLOCKS)
    }
}

fn main(rt: HostRuntime) -> io::Result<()> {
    tell_sizes(&rt)?;
    let mut a = [0; SLOTS_LEN];
    let mut b = [0; LOG_LEN];
    let mut c = [0; SLOTS_LEN];
    match join(&mut a, &mut b, &mut c) {
        Ok(row) => Teller { rt: &rt, row }.tell()?,
        Err(refusal) => println!(&rt; "refused, {refusal}")?,
    }
    rules::tell(&rt)
}
