// Sets of sites, with sites past the limit.
use sites::{SiteBits, SiteSet};
use std::io;

const NUMBERS: [usize; 7] = [0, 1, 6, 7, 8, 9, usize::MAX];

const BITS: [SiteBits; 5] = [0, 1, 128, 170, 255];

fn tell_bits(rt: &impl Print, bits: SiteBits) -> io::Result<()> {
    let set = SiteSet::from_bits(bits);
    let size = set.len();
    println!(rt; "set {bits}: {size} members")?;
    for number in NUMBERS {
        let has = set.contains(number);
        let with = set.with(number).to_bits();
        let without = set.without(number).to_bits();
        println!(rt; "set {bits}, site {number}: {has}, with {with}, without {without}")?;
    }
    for other in BITS {
        let second = SiteSet::from_bits(other);
        let union = set.union(second).to_bits();
        let subset = set.is_subset(second);
        println!(rt;
            "sets {bits} and {other}: together {union}, the first within the second {subset}"
        )?;
    }
    Ok(())
}

pub(crate) fn all(rt: &impl Print) -> io::Result<()> {
    for count in NUMBERS {
        let bits = SiteSet::full(count).to_bits();
        println!(rt; "sites below {count}: {bits}")?;
    }
    for bits in BITS {
        tell_bits(rt, bits)?;
    }
    Ok(())
}
