ghost use Rattle.std.specs.Prelude.{◌≡◌, length};
ghost use Rattle.store.specs.Stores.{write_answer, written, cleared};
ghost use Rattle.log_store.specs.Logs.{log_of, block_count, log_copies, log_written, log_cleared};
ghost use Rattle.log_store.specs.Meaning.{store_of_log};

use crate::half::Half;
use crate::log::LogStore;
use refusal::Refusal;
use store::{BlockStore, MAX_BLOCKS, check_block, check_index, check_write};

impl<'a> BlockStore for LogStore<'a> {
    ghost holds = { λ s. store_of_log (log_of s) };

    #[tactic(auto, using(crate::proofs::Remembering::logged))]
    fn block_count(&self) -> usize
        ensures copies { result ≡ length (log_copies (log_of self.now)) }
        ensures blocks { result ≡ block_count (log_of self.now) }
    {
        let most = self.room().saturating_sub(1).min(MAX_BLOCKS);
        self.blocks.min(most)
    }

    fn version(&self, index: usize) -> Result<u16, Refusal> {
        check_index(self.block_count(), index)?;
        Ok(self.found(index).version)
    }

    fn read(&self, index: usize, buffer: &mut [u8]) -> Result<(), Refusal> {
        check_block(self.block_count(), index, buffer.len())?;
        buffer.copy_from_slice(self.found(index).bytes);
        Ok(())
    }

    fn write(&mut self, index: usize, version: u16, block: &[u8]) -> Result<(), Refusal>
        ensures answer { result ≡ write_answer (log_copies (log_of self.old)) index (length block.now) }
        ensures after { log_copies (log_of self.new) ≡ written (log_copies (log_of self.old)) index version block.now }
        ensures log { log_of self.new ≡ log_written (log_of self.old) index version block.now }
        ensures lender { self.new.memory.ghost_name ≡ self.old.memory.ghost_name }
    {
        let copy = check_write(self.block_count(), index, version, block)?;
        self.append(index, copy);
        Ok(())
    }

    #[tactic(auto, using(crate::proofs::Remembering::logged))]
    fn clear(&mut self)
        ensures after { log_copies (log_of self.new) ≡ cleared (log_copies (log_of self.old)) }
        ensures log { log_of self.new ≡ log_cleared (log_of self.old) }
        ensures lender { self.new.memory.ghost_name ≡ self.old.memory.ghost_name }
    {
        self.half = Half::First;
        self.used = 0;
    }
}
