ghost use Rattle.std.specs.Prelude.{◌≡◌};
ghost use Rattle.replicas.specs.Meaning.{single};
ghost use Rattle.replicas.specs.Rows.{only_site};

use crate::row::{Replicas, no_site};
use refusal::Refusal;
use store::BlockStore;

/// One store is a row of one.
#[derive(Drop)]
pub struct Single<S> {
    pub store: S,
}

// Whether it is the only site.
fn check_only(site: usize) -> Result<(), Refusal>
    ensures { result ≡ only_site site }
{
    if site != 0 {
        return Err(no_site(site));
    }
    Ok(())
}

impl<S: BlockStore> Replicas for Single<S> {
    ghost row = { λ s. single (S.holds s.store) };

    fn site_count(&self) -> usize {
        1
    }

    fn block_count(&self, site: usize) -> Result<usize, Refusal> {
        check_only(site)?;
        Ok(self.store.block_count())
    }

    fn version(&self, site: usize, index: usize) -> Result<u16, Refusal> {
        check_only(site)?;
        self.store.version(index)
    }

    fn read(&self, site: usize, index: usize, buffer: &mut [u8]) -> Result<(), Refusal> {
        check_only(site)?;
        self.store.read(index, buffer)
    }

    fn write(
        &mut self,
        site: usize,
        index: usize,
        version: u16,
        block: &[u8],
    ) -> Result<(), Refusal> {
        check_only(site)?;
        self.store.write(index, version, block)
    }

    fn clear(&mut self, site: usize) -> Result<(), Refusal> {
        check_only(site)?;
        self.store.clear();
        Ok(())
    }
}
