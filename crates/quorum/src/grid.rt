ghost use Rattle.std.specs.Prelude.{◌≡◌, ◌<◌, IfOk};
ghost use Rattle.std.specs.Result.{result_err};
ghost use Rattle.sites.specs.Bounded.{any};
ghost use Rattle.sites.specs.Sites.{members};
ghost use Rattle.quorum.specs.Grids.{column_has, column_whole, grid_reads, grid_refusal, grid_rule, rule_of_grid};
ghost use Rattle.quorum.specs.Columns.{grid_lawful};

use crate::rule::{QuorumRule, check_sites};
use refusal::{Layer, Reason, Refusal};
use sites::SiteSet;

/// A rule by a grid of sites: a set may read if every column has a member, and write if besides some column is whole.
#[derive(Clone, Copy, PartialEq, Eq, Hash, Debug)]
pub struct GridQuorum {
    sites: usize,
    columns: usize,
}

impl GridQuorum {
    /// The rule of a grid of `sites` sites: site i stands in column i mod `columns`.
    pub fn new(sites: usize, rows: usize, columns: usize) -> Result<GridQuorum, Refusal>
        ensures answer { result_err result ≡ grid_refusal sites rows columns }
        ensures rule { IfOk result (λ g. rule_of_grid g ≡ grid_rule sites columns) }
    {
        check_sites(sites)?;
        if rows.checked_mul(columns) != Some(sites) {
            return Err(Refusal::new(Reason::BadGrid, Layer::Part, 0));
        }
        Ok(GridQuorum { sites, columns })
    }

    // Whether some site of a column is a member.
    #[tactic(auto, using(crate::proofs::Stepped::any_stepped))]
    fn column_has(&self, set: SiteSet, column: usize) -> bool
        requires { column < self.now.columns }
        ensures { result ≡ column_has self.now.sites self.now.columns (members set) column }
    {
        (column..self.sites)
            .step_by(self.columns)
            .any(|site| set.contains(site))
    }

    // Whether each site of a column is a member.
    #[tactic(auto, using(crate::proofs::Stepped::every_stepped))]
    fn column_whole(&self, set: SiteSet, column: usize) -> bool
        requires { column < self.now.columns }
        ensures { result ≡ column_whole self.now.sites self.now.columns (members set) column }
    {
        (column..self.sites)
            .step_by(self.columns)
            .all(|site| set.contains(site))
    }
}

#[tactic(auto, using(sites::proofs::Ranges::range_tests))]
impl QuorumRule for GridQuorum {
    ghost meaning = { rule_of_grid };

    // a grid is lawful for any numbers
    ghost lawful = { λ g. grid_lawful g.sites g.columns };

    fn site_count(&self) -> usize {
        self.sites
    }

    fn may_read(&self, set: SiteSet) -> bool {
        (0..self.columns).all(|column| self.column_has(set, column))
    }

    fn may_write(&self, set: SiteSet) -> bool {
        self.may_read(set) && (0..self.columns).any(|column| self.column_whole(set, column))
    }
}
