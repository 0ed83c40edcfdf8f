// Why a call was refused.

#![tactic(auto)]

mod layer;
mod reason;
mod refusal;
mod rejected;

pub use layer::Layer;
pub use reason::{PlaceKind, Reason};
pub use refusal::Refusal;
pub use rejected::Rejected;
