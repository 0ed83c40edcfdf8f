ghost use Rattle.log_store.specs.Histories.{LogForgetsNothing};

/// After any writes, compactions and clearings of a log, what is read of a block is what was last written to it.
pub fn log_forgets_nothing()
    ensures { LogForgetsNothing }
{}
