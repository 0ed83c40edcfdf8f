ghost use Rattle.std.specs.Prelude.{◌≡◌, true, false, ◌||◌, nat_lt};
ghost use Rattle.sites.specs.Bounded.{put};
ghost use Rattle.sites.specs.Sites.{within, sites_in, members, bits_of, size, subset};

/// The most sites that a group has: as many as `SiteBits` has bits.
pub const MAX_SITES: usize = SiteBits::BITS as usize;

/// A bit for each site.
pub type SiteBits = u8;

/// A set of sites below `MAX_SITES`. A larger number is a member of no set.
#[derive(Clone, Copy, PartialEq, Eq, Hash, Debug)]
pub struct SiteSet(SiteBits);

#[tactic(auto, using(crate::proofs::Members::site_bits))]
impl SiteSet {
    /// The set of the sites below `count`.
    pub fn full(count: usize) -> SiteSet
        ensures { members result ≡ within (λ i. nat_lt i count) }
    {
        if count < MAX_SITES {
            SiteSet((1 << count) - 1)
        } else {
            SiteSet(SiteBits::MAX)
        }
    }

    /// The set of the sites whose bits are set; the lowest bit is that of site 0.
    pub fn from_bits(bits: SiteBits) -> SiteSet
        ensures { members result ≡ sites_in bits }
    {
        SiteSet(bits)
    }

    /// A bit for each member.
    pub fn to_bits(self) -> SiteBits
        ensures value { result ≡ bits_of (members self) }
        ensures back { sites_in result ≡ members self }
    {
        let SiteSet(bits) = self;
        bits
    }

    /// Whether the site is a member.
    pub fn contains(self, site: usize) -> bool
        ensures { result ≡ members self site }
    {
        site < MAX_SITES && (self.0 >> site) & 1 == 1
    }

    /// The set with the site too, if it is below `MAX_SITES`.
    pub fn with(self, site: usize) -> SiteSet
        ensures { members result ≡ within (put site true (members self)) }
    {
        if site < MAX_SITES {
            SiteSet(self.0 | (1 << site))
        } else {
            self
        }
    }

    /// The set without the site.
    pub fn without(self, site: usize) -> SiteSet
        ensures { members result ≡ put site false (members self) }
    {
        if site < MAX_SITES {
            SiteSet(self.0 & !(1 << site))
        } else {
            self
        }
    }

    /// The sites that are members of either set.
    pub fn union(self, other: SiteSet) -> SiteSet
        ensures { members result ≡ (λ i. members self i || members other i) }
    {
        SiteSet(self.0 | other.0)
    }

    /// Whether each member is a member of the other set too.
    pub fn is_subset(self, other: SiteSet) -> bool
        ensures { result ≡ subset (members self) (members other) }
    {
        self.0 & other.0 == self.0
    }

    /// How many members there are.
    pub fn len(self) -> usize
        ensures { result ≡ size (members self) }
    {
        self.0.count_ones() as usize
    }
}
