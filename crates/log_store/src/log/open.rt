ghost use Rattle.std.specs.Prelude.{◌≡◌, length, replicate, IfOk, MatchResult};
ghost use Rattle.std.specs.Result.{result_err};
ghost use Rattle.refusal.specs.Refusals.{rejection};
ghost use Rattle.store.specs.Stores.{unwritten};
ghost use Rattle.log_store.specs.Logs.{log_refusal, log_of, started, room, block_count, log_copies};

use crate::half::Half;
use crate::log::{LogStore, MAX_RECORDS, RECORD_LEN};
use refusal::{Layer, Reason, Refusal, Rejected};
use store::MAX_BLOCKS;

impl<'a> LogStore<'a> {
    /// Whether memory of so many bytes can be a log of `blocks` blocks with `records` records in each half.
    pub fn check(blocks: usize, records: usize, bytes: usize) -> Result<(), Refusal>
        ensures { result_err result ≡ log_refusal blocks records bytes }
    {
        if !(1..=MAX_BLOCKS).contains(&blocks) || records <= blocks || records > MAX_RECORDS {
            return Err(Refusal::new(Reason::BadSizes, Layer::Part, 0));
        }
        if bytes != 2 * records * RECORD_LEN {
            return Err(Refusal::new(Reason::WrongLength, Layer::Part, bytes));
        }
        Ok(())
    }

    /// Takes memory for a log of `blocks` blocks with `records` records in each half; where it is refused the memory comes back.
    #[tactic(auto, using(crate::proofs::Remembering::logged))]
    pub fn new(
        blocks: usize,
        records: usize,
        memory: &'a mut [u8],
    ) -> Result<LogStore<'a>, Rejected<&'a mut [u8]>>
        ensures answer { rejection result ≡ log_refusal blocks records (length memory.old) }
        ensures log { MatchResult result (λ s. log_of s ≡ started blocks memory.old) (λ e. e.given.now ≡ memory.old) }
        ensures sizes { IfOk result (λ s. (block_count (log_of s) ≡ blocks) × (room (log_of s) ≡ records)) }
        ensures copies { IfOk result (λ s. log_copies (log_of s) ≡ replicate blocks unwritten) }
        ensures lender { MatchResult result (λ s. s.memory.ghost_name ≡ memory.entry.ghost_name) (λ e. e.given.ghost_name ≡ memory.entry.ghost_name) }
    {
        match LogStore::check(blocks, records, memory.len()) {
            Ok(()) => Ok(LogStore {
                blocks,
                half: Half::First,
                used: 0,
                memory,
            }),
            Err(refusal) => Err(Rejected {
                refusal,
                given: memory,
            }),
        }
    }
}
