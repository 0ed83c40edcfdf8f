// Sets of sites.

#![tactic(auto)]

mod laws;
mod site_set;

pub use laws::sets_are_told;
pub use site_set::{MAX_SITES, SiteBits, SiteSet};
