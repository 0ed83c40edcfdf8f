ghost use Rattle.store.specs.Histories.{LastWriteIsRead};

/// After any writes and clearings, what is read of a block of a store is what was last written to it.
pub fn last_write_is_read()
    ensures { LastWriteIsRead }
{}
