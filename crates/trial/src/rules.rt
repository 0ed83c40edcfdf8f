// Quorum rules at work.
use crate::show::{Members, Votes};
use quorum::{GridQuorum, QuorumRule, WeightedVotes};
use refusal::Refusal;
use sites::SiteSet;
use std::io;

// Some sets of sites; the last has members that no rule for six sites counts.
const SETS: [&[usize]; 7] = [
    &[],
    &[0],
    &[0, 3],
    &[0, 1],
    &[0, 1, 2],
    &[0, 1, 2, 3],
    &[1, 6, 7],
];

fn set_of(members: &[usize]) -> SiteSet {
    members
        .iter()
        .fold(SiteSet::full(0), |set, &site| set.with(site))
}

fn tell_set(rt: &impl Print, rule: &impl QuorumRule, set: SiteSet) -> io::Result<()> {
    let members = Members(set);
    let allowed = match (rule.may_read(set), rule.may_write(set)) {
        (true, true) => "read and write",
        (true, false) => "read and not write",
        (false, true) => "write and not read",
        (false, false) => "do neither",
    };
    println!(rt; "  the set {members} may {allowed}")
}

fn tell_rule<Q: QuorumRule + Drop>(rt: &impl Print, made: Result<Q, Refusal>) -> io::Result<()> {
    match made {
        Ok(rule) => {
            let count = rule.site_count();
            println!(rt; "a rule for {count} sites")?;
            for members in SETS {
                tell_set(rt, &rule, set_of(members))?;
            }
            Ok(())
        }
        Err(refusal) => println!(rt; "refused, {refusal}"),
    }
}

fn tell_votes(
    rt: &impl Print,
    votes: &[u8],
    read_above: usize,
    write_above: usize,
) -> io::Result<()> {
    let counts = Votes(votes);
    print!(rt; "{counts}, more than {read_above} to read and than {write_above} to write: ")?;
    tell_rule(rt, WeightedVotes::new(votes, read_above, write_above))
}

fn tell_grid(rt: &impl Print, sites: usize, rows: usize, columns: usize) -> io::Result<()> {
    print!(rt; "{sites} sites in {rows} rows and {columns} columns: ")?;
    tell_rule(rt, GridQuorum::new(sites, rows, columns))
}

pub(crate) fn tell(rt: &impl Print) -> io::Result<()> {
    println!(rt; "quorum rules say which sets of sites may read and which may write:")?;
    tell_votes(rt, &[1, 1, 1], 1, 1)?;
    tell_votes(rt, &[1, 1, 1, 1], 1, 1)?;
    tell_votes(rt, &[3, 1, 1, 1], 2, 3)?;
    tell_grid(rt, 6, 2, 3)?;
    tell_grid(rt, 7, 2, 3)?;
    tell_grid(rt, 9, 3, 3)
}
