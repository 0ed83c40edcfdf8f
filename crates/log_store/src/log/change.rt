ghost use Rattle.std.specs.Prelude.{◌≡◌, ◌<◌, ◌≤◌, slice_set};
ghost use Rattle.store.specs.Copies.{as_copy};
ghost use Rattle.log_store.specs.Logs.{log_of, room, block_count, record_count, log_copies, carrying, carry_block, compacted, roomy, appended};

use crate::log::{LogStore, RECORD_LEN};
use store::{BlockCopy, BlockStore, put_bytes};

impl<'a> LogStore<'a> {
    // Copies a block's newest record, if it has one, behind those that were carried into the other half so far, and answers how many they are now.
    #[tactic(auto, using(crate::proofs::Remembering::logged))]
    fn carry_block(&mut self, count: usize, index: usize) -> usize
        requires { count < room (log_of self.old) }
        ensures log { log_of self.new ≡ carrying (log_of self.old) (carry_block (log_of self.old) count index) }
        ensures count { result ≡ (carry_block (log_of self.old) count index).count }
        ensures lender { self.new.memory.ghost_name ≡ self.old.memory.ghost_name }
    {
        let to = self.first_in(self.half.other()) + count;
        match self.newest(index) {
            Some(record) => {
                let from = record * RECORD_LEN;
                self.memory
                    .copy_within(from..from + RECORD_LEN, to * RECORD_LEN);
                count + 1
            }
            None => count,
        }
    }

    // Copies the newest record of each block to the start of the other half, in rising index, and takes that half into use. By a
    // `for`, since each step changes the log.
    #[tactic(auto, using(crate::proofs::Remembering::logged))]
    fn compact(&mut self)
        requires { 1 < room (log_of self.old) }
        ensures log { log_of self.new ≡ compacted (log_of self.old) }
        ensures lender { self.new.memory.ghost_name ≡ self.old.memory.ghost_name }
    {
        let mut count = 0;
        for index in 0..self.block_count() {
            count = self.carry_block(count, index);
        }
        self.half = self.half.other();
        self.used = count;
    }

    // Makes room for one record more: a full half is compacted into the other first.
    fn make_room(&mut self)
        requires { 1 < room (log_of self.old) }
        ensures log { log_of self.new ≡ roomy (log_of self.old) }
        ensures lender { self.new.memory.ghost_name ≡ self.old.memory.ghost_name }
    {
        if self.record_count() >= self.room() {
            self.compact();
        }
    }

    // Adds a record behind the last.
    #[tactic(auto, using(crate::proofs::Remembering::logged, crate::proofs::Laid::put_record))]
    fn push(&mut self, index: usize, copy: BlockCopy)
        requires index { index < 256 }
        requires room { record_count (log_of self.old) < room (log_of self.old) }
        ensures log { log_of self.new ≡ appended (log_of self.old) index copy.entry.version copy.entry.bytes.now }
        ensures lender { self.new.memory.ghost_name ≡ self.old.memory.ghost_name }
    {
        let used = self.record_count();
        let at = (self.first_in(self.half) + used) * RECORD_LEN;
        let record = &mut self.memory[at..at + RECORD_LEN];
        put_bytes(record, 0, &(index as u16).to_be_bytes());
        copy.put(record, 2);
        self.used = used + 1;
    }

    // Adds a record, and room for it first.
    #[tactic(auto, using(crate::proofs::Remembering::logged))]
    pub(crate) fn append(&mut self, index: usize, copy: BlockCopy)
        requires { index < block_count (log_of self.old) }
        ensures log { log_of self.new ≡ appended (roomy (log_of self.old)) index copy.entry.version copy.entry.bytes.now }
        ensures copies { log_copies (log_of self.new) ≡ slice_set (log_copies (log_of self.old)) index (as_copy copy.entry) }
        ensures lender { self.new.memory.ghost_name ≡ self.old.memory.ghost_name }
    {
        self.make_room();
        self.push(index, copy);
    }
}
