ghost use Rattle.std.specs.Prelude.{◌≡◌, length};
ghost use Rattle.store.specs.Stores.{kept};

/// How many bytes a block has.
pub const BLOCK_LEN: usize = 128;

/// The content of a block.
pub type Block = [u8; BLOCK_LEN];

/// The most blocks that a store has.
pub const MAX_BLOCKS: usize = 256;

/// The blank block.
pub const BLANK: Block = [0; BLOCK_LEN];

/// What is kept of bytes that are written with a version: the blank block for version 0.
#[tactic(auto, unfolding(crate::specs::Stores::blank))]
pub fn kept_block(version: u16, block: &[u8]) -> &[u8]
    ensures value { result.now ≡ (kept version block.now).bytes }
    ensures size { length block.now ≡ 128 → length result.now ≡ 128 }
    ensures none { version ≡ 0 → length result.now ≡ 128 }
{
    if version == 0 { &BLANK } else { block }
}
