ghost use Rattle.std.specs.Prelude.{◌≡◌, ℕ, ◌*◌, ◌≤◌, length, take, cond, sum_by, IfOk};
ghost use Rattle.std.specs.List.{enumerate_from};
ghost use Rattle.std.specs.Result.{result_err};
ghost use Rattle.sites.specs.Sites.{max_sites, members};
ghost use Rattle.quorum.specs.Votes.{all_votes, small_votes, fair, votes_rule, votes_refusal, votes_in, rule_of_votes};
ghost use Rattle.quorum.specs.Tallies.{guarded_lawful};

use crate::rule::{QuorumRule, check_sites};
use refusal::{Layer, Reason, Refusal};
use sites::{MAX_SITES, SiteSet};

/// The most votes that a site has.
pub const MAX_VOTES: u8 = 15;

/// A rule by votes: a set may read if its votes exceed one threshold, and write if they exceed another.
#[derive(Clone, Copy, PartialEq, Eq, Hash, Debug)]
pub struct WeightedVotes {
    sites: usize,
    // Those from `sites` on do not count. An array, so that a rule is `Copy` and making one needs no memory.
    votes: [u8; MAX_SITES],
    read_above: usize,
    write_above: usize,
}

// The votes of all sites.
#[tactic(auto, using(crate::proofs::Listed::all_votes_bounded))]
fn all_votes(votes: &[u8]) -> usize
    requires { length votes.now ≤ max_sites }
    ensures value { result ≡ all_votes votes.now }
    ensures most { result ≤ 255 * max_sites }
{
    votes.iter().map(|&count| usize::from(count)).sum()
}

// Whether no site has too many votes.
#[tactic(auto, using(crate::proofs::Listed::small_tells))]
fn are_small(votes: &[u8]) -> bool
    ensures { result ≡ small_votes votes.now }
{
    votes.iter().all(|&count| count <= MAX_VOTES)
}

// Whether the thresholds can be exceeded, and sets that exceed them share a site.
fn is_fair(all: usize, read_above: usize, write_above: usize) -> bool
    requires { all ≤ 255 * max_sites }
    ensures { result ≡ fair all read_above write_above }
{
    read_above < all
        && write_above < all
        && all <= read_above + write_above + 1
        && all <= 2 * write_above + 1
}

// An array that begins with the votes.
fn padded(votes: &[u8]) -> [u8; MAX_SITES]
    requires { length votes.now ≤ max_sites }
    ensures { take (length votes.now) result ≡ votes.now }
{
    let mut all = [0; MAX_SITES];
    all[..votes.len()].copy_from_slice(votes);
    all
}

impl WeightedVotes {
    /// The rule by which a set may read if its votes exceed `read_above`, and write if they exceed `write_above`. Site i has `votes[i]`.
    #[tactic(auto, using(crate::proofs::Listed::guards_always_hold))]
    pub fn new(
        votes: &[u8],
        read_above: usize,
        write_above: usize,
    ) -> Result<WeightedVotes, Refusal>
        ensures answer { result_err result ≡ votes_refusal votes.now read_above write_above }
        ensures rule { IfOk result (λ w. rule_of_votes w ≡ votes_rule votes.now read_above write_above) }
    {
        check_sites(votes.len())?;
        if !are_small(votes) || !is_fair(all_votes(votes), read_above, write_above) {
            return Err(Refusal::new(Reason::BadVotes, Layer::Part, 0));
        }
        Ok(WeightedVotes {
            sites: votes.len(),
            votes: padded(votes),
            read_above,
            write_above,
        })
    }

    // The votes of the sites that there are.
    fn votes(&self) -> &[u8]
        ensures value { result.now ≡ votes_in self.now }
        ensures few { length result.now ≤ max_sites }
    {
        &self.votes[..self.sites.min(MAX_SITES)]
    }

    // The votes of a set.
    fn inside(&self, set: SiteSet) -> usize
        ensures { result ≡ sum_by (λ (p : ℕ × ℕ). cond (members set p.0) p.1 0) (enumerate_from 0 (votes_in self.now)) }
    {
        self.votes()
            .iter()
            .enumerate()
            .map(|(site, count)| {
                if set.contains(site) {
                    usize::from(*count)
                } else {
                    0
                }
            })
            .sum()
    }
}

#[tactic(auto, using(crate::proofs::Listed::tallies))]
impl QuorumRule for WeightedVotes {
    ghost meaning = { rule_of_votes };

    // guarded votes are lawful for any numbers
    ghost lawful = { λ w. guarded_lawful (votes_in w) w.read_above w.write_above };

    fn site_count(&self) -> usize {
        self.votes().len()
    }

    fn may_read(&self, set: SiteSet) -> bool {
        self.inside(set) > self.read_above
    }

    // What it asks of the votes outside holds whenever the thresholds are fair; it keeps the rule lawful for any numbers.
    fn may_write(&self, set: SiteSet) -> bool {
        let inside = self.inside(set);
        let outside = all_votes(self.votes()).saturating_sub(inside);
        inside > self.write_above && outside <= self.read_above && outside <= self.write_above
    }
}
