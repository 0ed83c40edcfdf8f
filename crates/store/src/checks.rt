ghost use Rattle.std.specs.Prelude.{◌≡◌, length, Ok, Err, MatchResult};
ghost use Rattle.store.specs.Copies.{as_copy};
ghost use Rattle.store.specs.Stores.{indexed, fitting, kept};

use crate::block::BLOCK_LEN;
use crate::copy::BlockCopy;
use refusal::{Layer, Reason, Refusal};

/// Whether a store of `count` blocks has a block `index`.
pub fn check_index(count: usize, index: usize) -> Result<(), Refusal>
    ensures { result ≡ indexed count index tt }
{
    if index >= count {
        return Err(Refusal::new(Reason::NoSuchBlock, Layer::Part, index));
    }
    Ok(())
}

/// Whether a store of `count` blocks has a block `index`, and `length` bytes are a block.
pub fn check_block(count: usize, index: usize, length: usize) -> Result<(), Refusal>
    ensures { result ≡ fitting count index length tt }
{
    check_index(count, index)?;
    if length != BLOCK_LEN {
        return Err(Refusal::new(Reason::WrongLength, Layer::Part, length));
    }
    Ok(())
}

/// What a store of `count` blocks keeps of bytes that are written to block `index` with a version.
pub fn check_write(
    count: usize,
    index: usize,
    version: u16,
    block: &[u8],
) -> Result<BlockCopy<'_>, Refusal>
    ensures { MatchResult result (λ c. fitting count index (length block.now) (kept version block.now) ≡ Ok (as_copy c)) (λ e. fitting count index (length block.now) (kept version block.now) ≡ Err e) }
{
    check_block(count, index, block.len())?;
    Ok(BlockCopy::kept(version, block).unwrap())
}
