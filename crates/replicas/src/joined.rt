ghost use Rattle.std.specs.Prelude.{◌≡◌, length, nat_lt};
ghost use Rattle.replicas.specs.Meaning.{joined};
ghost use Rattle.replicas.specs.Places.{Lies};

use crate::row::{Replicas, no_site};
use refusal::Refusal;

/// Two rows, the second's sites behind the first's.
#[derive(Drop)]
pub struct Joined<P, Q> {
    pub first: P,
    pub second: Q,
}

// Where a site of two joined rows lies.
enum Place {
    First,
    Second(usize),
}

// Whether the row has the site; its count does not tell where it is the largest `usize`.
fn has_site<R: Replicas>(row: &R, site: usize) -> bool
    ensures { result ≡ nat_lt site (length (R.Replicas.row row.now).sites) }
{
    row.block_count(site).is_ok()
}

impl<P: Replicas, Q: Replicas> Joined<P, Q> {
    // Where a site lies; a site that neither row has is refused.
    #[tactic(auto, using(crate::proofs::Lists::joined_lists))]
    fn place(&self, site: usize) -> Result<Place, Refusal>
        ensures { Lies (P.Replicas.row self.now.first).sites (Q.Replicas.row self.now.second).sites site result }
    {
        if has_site(&self.first, site) {
            return Ok(Place::First);
        }
        let rest = site - self.first.site_count();
        if has_site(&self.second, rest) {
            return Ok(Place::Second(rest));
        }
        Err(no_site(site))
    }
}

impl<P: Replicas, Q: Replicas> Replicas for Joined<P, Q> {
    ghost row = { λ s. joined (P.Replicas.row s.first) (Q.Replicas.row s.second) };

    fn site_count(&self) -> usize {
        self.first
            .site_count()
            .saturating_add(self.second.site_count())
    }

    fn block_count(&self, site: usize) -> Result<usize, Refusal> {
        match self.place(site)? {
            Place::First => self.first.block_count(site),
            Place::Second(rest) => self.second.block_count(rest),
        }
    }

    fn version(&self, site: usize, index: usize) -> Result<u16, Refusal> {
        match self.place(site)? {
            Place::First => self.first.version(site, index),
            Place::Second(rest) => self.second.version(rest, index),
        }
    }

    fn read(&self, site: usize, index: usize, buffer: &mut [u8]) -> Result<(), Refusal> {
        match self.place(site)? {
            Place::First => self.first.read(site, index, buffer),
            Place::Second(rest) => self.second.read(rest, index, buffer),
        }
    }

    fn write(
        &mut self,
        site: usize,
        index: usize,
        version: u16,
        block: &[u8],
    ) -> Result<(), Refusal> {
        match self.place(site)? {
            Place::First => self.first.write(site, index, version, block),
            Place::Second(rest) => self.second.write(rest, index, version, block),
        }
    }

    fn clear(&mut self, site: usize) -> Result<(), Refusal> {
        match self.place(site)? {
            Place::First => self.first.clear(site),
            Place::Second(rest) => self.second.clear(rest),
        }
    }
}
