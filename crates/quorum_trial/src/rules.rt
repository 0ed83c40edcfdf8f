// Quorum rules at the edges of what they take, asked for every set of sites.
use quorum::{GridQuorum, QuorumRule, WeightedVotes};
use refusal::Refusal;
use sites::{SiteBits, SiteSet};
use std::io;

// Votes, and the thresholds to read and to write.
const VOTES: [(&[u8], usize, usize); 24] = [
    (&[], 0, 0),
    (&[1], 0, 0),
    (&[0], 0, 0),
    (&[0, 0], 0, 0),
    (&[1], 1, 0),
    (&[1], 0, 1),
    (&[15], 14, 7),
    (&[15], 14, 6),
    (&[16], 15, 8),
    (&[255], 254, 254),
    (&[1, 1, 1], 1, 1),
    (&[1, 1, 1, 1], 1, 1),
    (&[1, 1, 1, 1], 1, 2),
    (&[1, 1, 1, 1], 0, 2),
    (&[1, 1, 1, 1], 0, 3),
    (&[1, 1, 1, 1], 3, 3),
    (&[1, 1, 1, 1], 4, 3),
    (&[1, 1, 1, 1], 3, 4),
    (&[1, 1, 1, 1], usize::MAX, usize::MAX),
    (&[3, 1, 1, 1], 2, 3),
    (&[0, 2, 0, 3, 0], 2, 2),
    (&[15, 15, 15, 15, 15, 15, 15, 15], 59, 60),
    (&[15, 15, 15, 15, 15, 15, 15, 16], 59, 60),
    (&[1, 1, 1, 1, 1, 1, 1, 1, 1], 4, 4),
];

// Sites, rows and columns.
const GRIDS: [(usize, usize, usize); 21] = [
    (0, 0, 0),
    (0, 1, 0),
    (1, 1, 1),
    (1, 0, 1),
    (1, 1, 0),
    (2, 1, 2),
    (2, 2, 1),
    (3, 1, 2),
    (4, 2, 2),
    (5, 1, 5),
    (5, 2, 2),
    (6, 2, 3),
    (6, 3, 2),
    (7, 7, 1),
    (8, 2, 4),
    (8, 8, 8),
    (9, 3, 3),
    (4, usize::MAX, usize::MAX),
    (8, 1 << 32, 1 << 32),
    (4, (1 << 62) + 1, 4),
    (usize::MAX, usize::MAX, 1),
];

// A digit for each set, in the order of their bits: 1 where the set may read, 2 where it may write, 3 where it may do both.
fn digits(rt: &impl Print, rule: &impl QuorumRule) -> io::Result<()> {
    for bits in 0..=SiteBits::MAX {
        let set = SiteSet::from_bits(bits);
        let digit = u8::from(rule.may_read(set)) + 2 * u8::from(rule.may_write(set));
        print!(rt; "{digit}")?;
    }
    println!(rt; "")
}

fn outcome<Q: QuorumRule + Drop>(rt: &impl Print, made: Result<Q, Refusal>) -> io::Result<()> {
    match made {
        Ok(rule) => {
            let count = rule.site_count();
            println!(rt; "{count} sites")?;
            digits(rt, &rule)
        }
        Err(refusal) => println!(rt; "{} {}", refusal.reason.number(), refusal.place),
    }
}

fn votes(rt: &impl Print) -> io::Result<()> {
    for (votes, read_above, write_above) in VOTES {
        print!(rt; "votes")?;
        for count in votes {
            print!(rt; " {count}")?;
        }
        print!(rt; " above {read_above} and {write_above}: ")?;
        outcome(rt, WeightedVotes::new(votes, read_above, write_above))?;
    }
    Ok(())
}

fn grids(rt: &impl Print) -> io::Result<()> {
    for (sites, rows, columns) in GRIDS {
        print!(rt; "{sites} sites, {rows} rows, {columns} columns: ")?;
        outcome(rt, GridQuorum::new(sites, rows, columns))?;
    }
    Ok(())
}

pub(crate) fn all(rt: &impl Print) -> io::Result<()> {
    votes(rt)?;
    grids(rt)
}
