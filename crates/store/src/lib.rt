// A block store: what it means, and what each call on it answers.

#![tactic(auto)]

mod block;
mod bytes;
mod checks;
mod copy;
mod history;
mod store;

pub use block::{BLANK, BLOCK_LEN, Block, MAX_BLOCKS, kept_block};
pub use bytes::{number_at, put_bytes};
pub use checks::{check_block, check_index, check_write};
pub use copy::{BlockCopy, COPY_LEN};
pub use history::last_write_is_read;
pub use store::BlockStore;
