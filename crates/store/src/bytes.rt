ghost use Rattle.std.specs.Prelude.{◌≡◌};
ghost use Rattle.std.proofs.lemmas.List.Edits.{sets};
ghost use Rattle.store.specs.Bytes.{number_at};

/// The two-byte number at a place, high byte first. A byte past the end counts as 0.
pub fn number_at(bytes: &[u8], at: usize) -> u16
    ensures { result ≡ number_at bytes.now at }
{
    u16::from_be_bytes(match bytes.get(at..) {
        Some([high, low, ..]) => [*high, *low],
        Some([high]) => [*high, 0],
        _ => [0, 0],
    })
}

/// Lays bytes from a place on. Those that would lie past the end are left out.
#[tactic(auto, using(crate::proofs::Writes::put_fitting, crate::proofs::Writes::sets_past))]
pub fn put_bytes(memory: &mut [u8], at: usize, bytes: &[u8])
    ensures { memory.new ≡ sets memory.old at bytes.now }
{
    if at < memory.len() {
        let count = bytes.len().min(memory.len() - at);
        memory[at..at + count].copy_from_slice(&bytes[..count]);
    }
}
