ghost use Rattle.std.specs.Prelude.{◌≡◌, length};
ghost use Rattle.store.specs.Stores.{blank};

use crate::block::{BLANK, BLOCK_LEN, kept_block};
use crate::bytes::{number_at, put_bytes};

/// How many bytes a copy takes: two for its version, and those of its block.
pub const COPY_LEN: usize = 2 + BLOCK_LEN;

/// A copy of a block as a store keeps it: blank where its version is 0.
#[derive(Clone, Copy, Debug, PartialEq, Eq)]
pub struct BlockCopy<'a> {
    pub version: u16,
    pub bytes: &'a [u8],
    pub ghost size: { length bytes.now ≡ 128 },
    pub ghost none: { version ≡ 0 → bytes.now ≡ blank },
}

impl<'a> BlockCopy<'a> {
    ghost use Rattle.std.specs.Prelude.{◌+◌, ◌<◌, ◌≤◌, MatchOption, ◌≢◌};
    ghost use Rattle.store.specs.Stores.{unwritten, kept};
    ghost use Rattle.store.specs.Copies.{as_copy, copy_from, with_copy};

    /// The copy of a block that was never written.
    #[tactic(auto, unfolding(crate::specs::Stores::blank))]
    pub fn unwritten() -> BlockCopy<'static>
        ensures { as_copy result ≡ unwritten }
    {
        BlockCopy {
            version: 0,
            bytes: &BLANK,
        }
    }

    /// What is kept of a block that is written with a version; nothing of bytes that are no block.
    pub fn kept(version: u16, block: &'a [u8]) -> Option<BlockCopy<'a>>
        ensures { MatchOption result (length block.now ≢ 128) (λ c. (length block.now ≡ 128) × (as_copy c ≡ kept version block.now)) }
    {
        if block.len() != BLOCK_LEN {
            return None;
        }
        Some(BlockCopy {
            version,
            bytes: kept_block(version, block),
        })
    }

    /// The copy that lies in bytes from a place on, if they reach so far.
    #[tactic(auto, using(crate::proofs::Writes::copy_part))]
    pub fn from_bytes(bytes: &'a [u8], at: usize) -> Option<BlockCopy<'a>>
        ensures { MatchOption result (length bytes.now < at + 130) (λ c. (at + 130 ≤ length bytes.now) × (as_copy c ≡ copy_from bytes.now at)) }
    {
        let copy = bytes.get(at..at.checked_add(COPY_LEN)?)?;
        BlockCopy::kept(number_at(copy, 0), &copy[2..])
    }

    /// Lays the copy over bytes from a place on. What would lie past the end is left out.
    #[tactic(auto, using(crate::proofs::Writes::sets_saturated))]
    pub fn put(self, memory: &mut [u8], at: usize)
        ensures { memory.new ≡ with_copy memory.old at (as_copy self.entry) }
    {
        put_bytes(memory, at, &self.version.to_be_bytes());
        put_bytes(memory, at.saturating_add(2), self.bytes);
    }
}
