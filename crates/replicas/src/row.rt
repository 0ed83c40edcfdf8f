ghost use Rattle.std.specs.Prelude.{◌≡◌, ◌-◌, ◌^◌, min, length};
ghost use Rattle.replicas.specs.Rows.{Row, count_answer, version_answer, read_answer, read_buffer, write_answer, written, clear_answer, cleared, no_site};

use refusal::{Layer, Reason, Refusal};

/// Block stores of any kinds in a row, one for each site, numbered from 0.
pub trait Replicas {
    ghost row: { Self → Row };

    /// How many sites there are, or the largest `usize` where there are more.
    fn site_count(&self) -> usize
        ensures { result ≡ min (length (row self.now).sites) (2 ^ 64 - 1) };

    /// How many blocks a site's store has.
    fn block_count(&self, site: usize) -> Result<usize, Refusal>
        ensures { result ≡ count_answer (row self.now).sites site };

    /// The version of a block at a site.
    fn version(&self, site: usize, index: usize) -> Result<u16, Refusal>
        ensures { result ≡ version_answer (row self.now).sites site index };

    /// Copies a site's block into the buffer.
    fn read(&self, site: usize, index: usize, buffer: &mut [u8]) -> Result<(), Refusal>
        ensures answer { result ≡ read_answer (row self.now).sites site index (length buffer.old) }
        ensures buffer { buffer.new ≡ read_buffer (row self.now).sites site index buffer.old };

    /// Lays a block with a version at a site.
    fn write(
        &mut self,
        site: usize,
        index: usize,
        version: u16,
        block: &[u8],
    ) -> Result<(), Refusal>
        ensures answer { result ≡ write_answer (row self.old).sites site index (length block.now) }
        ensures after { (row self.new).sites ≡ written (row self.old).sites site index version block.now };

    /// Makes every block of a site blank.
    fn clear(&mut self, site: usize) -> Result<(), Refusal>
        ensures answer { result ≡ clear_answer (row self.old).sites site }
        ensures after { (row self.new).sites ≡ cleared (row self.old).sites site };
}

// The refusal of a call at a site that the row has not.
pub(crate) fn no_site(site: usize) -> Refusal
    ensures { result ≡ no_site site }
{
    Refusal::new(Reason::NoSuchSite, Layer::Part, site)
}
