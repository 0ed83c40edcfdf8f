// Tries sets of sites and quorum rules at the edges of what they take.

#![tactic(auto)]

mod rules;
mod sets;

use std::io;

fn main(rt: HostRuntime) -> io::Result<()> {
    sets::all(&rt)?;
    rules::all(&rt)
}
