ghost use Rattle.std.specs.Prelude.{◌≡◌, None};
ghost use Rattle.std.specs.Result.{result_err};
ghost use Rattle.sites.specs.Sites.{members};
ghost use Rattle.quorum.specs.Rules.{Rule, Lawful, sized};

use refusal::{Layer, Reason, Refusal};
use sites::{MAX_SITES, SiteSet};

/// Which sets of sites may read and which may write. A rule never changes and refuses nothing.
pub trait QuorumRule {
    ghost meaning: { Self → Rule };

    /// For how many sites the rule is.
    fn site_count(&self) -> usize
        ensures { result ≡ (meaning self.now).sites };

    /// Whether a set of sites may read.
    fn may_read(&self, set: SiteSet) -> bool
        ensures { result ≡ (meaning self.now).reads (members set) };

    /// Whether a set of sites may write.
    fn may_write(&self, set: SiteSet) -> bool
        ensures { result ≡ (meaning self.now).writes (members set) };

    ghost lawful: { (x : Self) → Lawful (meaning x) };
}

// Whether a rule can be for so many sites.
pub(crate) fn check_sites(sites: usize) -> Result<(), Refusal>
    ensures { result_err result ≡ sized sites None }
{
    if !(1..=MAX_SITES).contains(&sites) {
        return Err(Refusal::new(Reason::BadSizes, Layer::Part, 0));
    }
    Ok(())
}
