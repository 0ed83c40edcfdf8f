ghost use Rattle.std.specs.Prelude.{◌≡◌, ◌<◌, length, slice_index_or, slice_set, IfOk, MatchResult};
ghost use Rattle.std.specs.Result.{result_err};
ghost use Rattle.refusal.specs.Refusals.{rejection};
ghost use Rattle.store.specs.Copies.{as_copy};
ghost use Rattle.store.specs.Stores.{unwritten, write_answer, written, cleared};
ghost use Rattle.slot_store.specs.Slots.{slot_refusal, slots_in, slot_copies, with_slot, slots_written, slots_cleared};
ghost use Rattle.slot_store.specs.Meaning.{store_of_slots};

use refusal::{Layer, Reason, Refusal, Rejected};
use store::{BlockCopy, BlockStore, COPY_LEN, MAX_BLOCKS, check_block, check_index, check_write};

/// Blocks in slots of lent memory.
#[derive(Drop)]
pub struct SlotStore<'a> {
    memory: &'a mut [u8],
}

impl<'a> SlotStore<'a> {
    /// Whether memory of so many bytes can be a store of `blocks` blocks.
    pub fn check(blocks: usize, bytes: usize) -> Result<(), Refusal>
        ensures { result_err result ≡ slot_refusal blocks bytes }
    {
        if !(1..=MAX_BLOCKS).contains(&blocks) {
            return Err(Refusal::new(Reason::BadSizes, Layer::Part, 0));
        }
        if bytes != blocks * COPY_LEN {
            return Err(Refusal::new(Reason::WrongLength, Layer::Part, bytes));
        }
        Ok(())
    }

    /// Takes memory for a store of `blocks` blocks, as it stands; where it is refused the memory comes back.
    #[tactic(auto, using(crate::proofs::Filled::filled))]
    pub fn new(blocks: usize, memory: &'a mut [u8]) -> Result<SlotStore<'a>, Rejected<&'a mut [u8]>>
        ensures answer { rejection result ≡ slot_refusal blocks (length memory.old) }
        ensures count { IfOk result (λ s. length (slot_copies s.memory.now) ≡ blocks) }
        ensures memory { MatchResult result (λ s. s.memory.now ≡ memory.old) (λ e. e.given.now ≡ memory.old) }
        ensures lender { MatchResult result (λ s. s.memory.ghost_name ≡ memory.entry.ghost_name) (λ e. e.given.ghost_name ≡ memory.entry.ghost_name) }
    {
        match SlotStore::check(blocks, memory.len()) {
            Ok(()) => Ok(SlotStore { memory }),
            Err(refusal) => Err(Rejected {
                refusal,
                given: memory,
            }),
        }
    }

    // The copy in a slot.
    #[tactic(auto, using(crate::proofs::Filled::filled, store::proofs::Writes::copy_of_part))]
    fn slot(&self, index: usize) -> BlockCopy<'_>
        requires { index < slots_in (length self.now.memory.now) }
        ensures { as_copy result ≡ slice_index_or (slot_copies self.now.memory.now) index unwritten }
    {
        let at = index * COPY_LEN;
        BlockCopy::from_bytes(&self.memory[at..at + COPY_LEN], 0).unwrap()
    }

    // Fills a slot.
    #[tactic(auto, using(crate::proofs::Filled::filled, crate::proofs::Filled::slots_after, store::proofs::Writes::put_copy))]
    fn fill(&mut self, index: usize, copy: BlockCopy)
        requires { index < slots_in (length self.old.memory.now) }
        ensures memory { self.new.memory.now ≡ with_slot self.old.memory.now index copy.entry.version copy.entry.bytes.now }
        ensures copies { slot_copies self.new.memory.now ≡ slice_set (slot_copies self.old.memory.now) index (as_copy copy.entry) }
        ensures lender { self.new.memory.ghost_name ≡ self.old.memory.ghost_name }
    {
        let at = index * COPY_LEN;
        copy.put(&mut self.memory[at..at + COPY_LEN], 0);
    }
}

impl<'a> BlockStore for SlotStore<'a> {
    ghost holds = { λ s. store_of_slots s.memory.now };

    #[tactic(auto, using(crate::proofs::Filled::filled))]
    fn block_count(&self) -> usize
        ensures copies { result ≡ length (slot_copies self.now.memory.now) }
        ensures slots { result ≡ slots_in (length self.now.memory.now) }
    {
        (self.memory.len() / COPY_LEN).min(MAX_BLOCKS)
    }

    fn version(&self, index: usize) -> Result<u16, Refusal> {
        check_index(self.block_count(), index)?;
        Ok(self.slot(index).version)
    }

    fn read(&self, index: usize, buffer: &mut [u8]) -> Result<(), Refusal> {
        check_block(self.block_count(), index, buffer.len())?;
        buffer.copy_from_slice(self.slot(index).bytes);
        Ok(())
    }

    fn write(&mut self, index: usize, version: u16, block: &[u8]) -> Result<(), Refusal>
        ensures answer { result ≡ write_answer (slot_copies self.old.memory.now) index (length block.now) }
        ensures after { slot_copies self.new.memory.now ≡ written (slot_copies self.old.memory.now) index version block.now }
        ensures memory { self.new.memory.now ≡ slots_written self.old.memory.now index version block.now }
        ensures lender { self.new.memory.ghost_name ≡ self.old.memory.ghost_name }
    {
        let copy = check_write(self.block_count(), index, version, block)?;
        self.fill(index, copy);
        Ok(())
    }

    #[tactic(auto, using(crate::proofs::Filled::filled))]
    fn clear(&mut self)
        ensures after { slot_copies self.new.memory.now ≡ cleared (slot_copies self.old.memory.now) }
        ensures memory { self.new.memory.now ≡ slots_cleared self.old.memory.now }
        ensures lender { self.new.memory.ghost_name ≡ self.old.memory.ghost_name }
    {
        // By their numbers: of chunks that are lent in turn a proof knows no byte.
        for index in 0..self.block_count() {
            self.fill(index, BlockCopy::unwritten());
        }
    }
}
