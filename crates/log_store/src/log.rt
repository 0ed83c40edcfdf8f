ghost use Rattle.std.specs.Prelude.{◌≡◌, ◌+◌, ◌*◌, ◌<◌, ◌≤◌, length, slice_index_or, IfSome};
ghost use Rattle.store.specs.Copies.{as_copy};
ghost use Rattle.store.specs.Stores.{unwritten};
ghost use Rattle.log_store.specs.Logs.{log_of, first_in, room, block_count, record_count, log_copies, newest_in};

mod blocks;
mod change;
mod open;

use crate::half::Half;
use store::{BlockCopy, COPY_LEN, number_at};

// How many bytes a record has: an index and a copy of the block.
const RECORD_LEN: usize = 2 + COPY_LEN;

// The most records that a half has room for.
const MAX_RECORDS: usize = 512;

/// Blocks in a log of records over lent memory.
#[derive(Drop)]
pub struct LogStore<'a> {
    // The blocks that it was made for.
    blocks: usize,
    // The half in use, and its records.
    half: Half,
    used: usize,
    memory: &'a mut [u8],
}

impl<'a> LogStore<'a> {
    // How many records each half has room for.
    fn room(&self) -> usize
        ensures { result ≡ room (log_of self.now) }
    {
        (self.memory.len() / (2 * RECORD_LEN)).min(MAX_RECORDS)
    }

    // The number of a half's first record.
    fn first_in(&self, half: Half) -> usize
        ensures { result ≡ first_in (log_of self.now).memory half }
    {
        match half {
            Half::First => 0,
            Half::Second => self.room(),
        }
    }

    /// The half in use.
    pub fn half_in_use(&self) -> Half
        ensures { result ≡ (log_of self.now).half }
    {
        self.half
    }

    /// How many records the half in use has.
    pub fn record_count(&self) -> usize
        ensures { result ≡ record_count (log_of self.now) }
    {
        self.used.min(self.room())
    }

    // The newest record of a block. By a `for`, since the check does not follow `find` from the last number down.
    #[tactic(auto, using(crate::proofs::Remembering::logged, store::proofs::Writes::number_of_part))]
    fn newest(&self, index: usize) -> Option<usize>
        ensures found { result ≡ newest_in (log_of self.now).memory (log_of self.now).half (record_count (log_of self.now)) index }
        ensures within { IfSome result (λ at. at * 132 + 132 ≤ length (log_of self.now).memory) }
    {
        let first = self.first_in(self.half);
        for at in (0..self.record_count()).rev() {
            let record = first + at;
            let from = record * RECORD_LEN;
            if usize::from(number_at(&self.memory[from..from + 2], 0)) == index {
                return Some(record);
            }
        }
        None
    }

    // The copy of a block that is there: the one in its newest record, or an unwritten one where it has none.
    #[tactic(auto, using(crate::proofs::Remembering::logged, store::proofs::Writes::copy_of_part))]
    fn found(&self, index: usize) -> BlockCopy<'_>
        requires { index < block_count (log_of self.now) }
        ensures { as_copy result ≡ slice_index_or (log_copies (log_of self.now)) index unwritten }
    {
        match self.newest(index) {
            Some(at) => {
                let from = at * RECORD_LEN + 2;
                BlockCopy::from_bytes(&self.memory[from..from + COPY_LEN], 0).unwrap()
            }
            None => BlockCopy::unwritten(),
        }
    }
}
