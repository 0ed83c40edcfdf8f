ghost use Rattle.std.specs.Prelude.{◌≡◌, length};
ghost use Rattle.store.specs.Stores.{Store, version_answer, read_answer, read_buffer, write_answer, written, cleared};

use refusal::Refusal;

/// Numbered blocks, each with a version. There is at least one: whoever makes a store ensures it, and every call leaves their number as it is.
pub trait BlockStore {
    ghost holds: { Self → Store };

    /// How many blocks there are.
    fn block_count(&self) -> usize
        ensures { result ≡ length (holds self.now).copies };

    /// The version of a block; 0 means that it is blank.
    fn version(&self, index: usize) -> Result<u16, Refusal>
        ensures { result ≡ version_answer (holds self.now).copies index };

    /// Copies a block into the buffer.
    fn read(&self, index: usize, buffer: &mut [u8]) -> Result<(), Refusal>
        ensures answer { result ≡ read_answer (holds self.now).copies index (length buffer.old) }
        ensures buffer { buffer.new ≡ read_buffer (holds self.now).copies index buffer.old };

    /// Lays a block with a version.
    fn write(&mut self, index: usize, version: u16, block: &[u8]) -> Result<(), Refusal>
        ensures answer { result ≡ write_answer (holds self.old).copies index (length block.now) }
        ensures after { (holds self.new).copies ≡ written (holds self.old).copies index version block.now };

    /// Makes every block blank.
    fn clear(&mut self)
        ensures { (holds self.new).copies ≡ cleared (holds self.old).copies };
}
