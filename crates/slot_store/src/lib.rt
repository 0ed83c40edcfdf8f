// A block store over lent memory with a slot for each block.

#![tactic(auto)]

mod slots;

pub use slots::SlotStore;
