// A block store over lent memory that keeps its blocks in a log of records.

#![tactic(auto)]

mod half;
mod history;
mod log;

pub use half::Half;
pub use history::log_forgets_nothing;
pub use log::LogStore;
