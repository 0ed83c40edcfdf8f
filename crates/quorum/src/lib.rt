// Quorum rules: which sets of sites may read and which may write.

#![tactic(auto)]

mod grid;
mod laws;
mod rule;
mod votes;

pub use grid::GridQuorum;
pub use laws::{rule_examples_hold, rules_are_lawful};
pub use rule::QuorumRule;
pub use votes::{MAX_VOTES, WeightedVotes};
