use sites::{MAX_SITES, SiteSet};
use std::fmt;

// The members of a set, in braces.
#[derive(Drop)]
pub(crate) struct Members(pub(crate) SiteSet);

impl fmt::Display for Members {
    fn fmt<W: fmt::Write>(&self, f: &mut fmt::Formatter<W>) -> fmt::Result {
        f.write_str("{")?;
        for site in (0..MAX_SITES).filter(|&site| self.0.contains(site)) {
            write!(f, " {site}")?;
        }
        f.write_str(" }")
    }
}

// How many votes each site has.
#[derive(Drop)]
pub(crate) struct Votes<'a>(pub(crate) &'a [u8]);

impl fmt::Display for Votes<'_> {
    fn fmt<W: fmt::Write>(&self, f: &mut fmt::Formatter<W>) -> fmt::Result {
        f.write_str("votes")?;
        for count in self.0 {
            write!(f, " {count}")?;
        }
        Ok(())
    }
}
