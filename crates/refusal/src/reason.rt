ghost use Rattle.std.specs.Prelude.{◌≡◌, Some};
ghost use Rattle.refusal.specs.Reasons.{fixed};
ghost use Rattle.refusal.specs.Words.{words};

use std::fmt;

/// Why a call was refused: the whole list.
#[derive(Clone, Copy, Debug, PartialEq, Eq)]
pub enum Reason {
    /// There is no such site.
    NoSuchSite = 1,
    /// There is no such block.
    NoSuchBlock = 2,
    /// Bytes were handed over in another number than is needed.
    WrongLength = 3,
    /// The sizes are out of their limits, or do not belong together.
    BadSizes = 4,
    /// Votes or thresholds make no quorum rule.
    BadVotes = 5,
    /// Rows and columns make no grid of the sites.
    BadGrid = 6,
    /// A request is of no known kind.
    UnknownKind = 7,
    /// An image has no known form.
    ImageForm = 8,
    /// A field in the head of an image is wrong.
    ImageHeader = 9,
    /// An entry in the table of an image is wrong.
    ImageRecord = 10,
    /// The site has failed.
    SiteFailed = 11,
    /// The site is comatose.
    SiteComatose = 12,
    /// The quorum rule forbids the call to the sites that are on.
    NoQuorum = 13,
    /// The block has the last version.
    LastVersion = 14,
    /// The site to be repaired is on.
    SiteOn = 15,
}

/// What the place of a refusal tells.
#[derive(Clone, Copy, Debug, PartialEq, Eq)]
pub enum PlaceKind {
    /// Nothing: it is 0.
    Nothing,
    /// The number of the site.
    Site,
    /// The index of the block.
    Block,
    /// The number of bytes that were handed over.
    Length,
    /// The offset of a byte.
    Offset,
    /// The number of the request.
    Request,
}

impl Reason {
    /// The number that stands for the reason.
    pub fn number(self) -> u8
        ensures { result ≡ (fixed self).number }
    {
        self as u8
    }

    /// What the place of a refusal for this reason tells.
    pub fn place_kind(self) -> PlaceKind
        ensures { result ≡ (fixed self).place }
    {
        match self {
            Reason::NoSuchSite => PlaceKind::Site,
            Reason::NoSuchBlock => PlaceKind::Block,
            Reason::WrongLength => PlaceKind::Length,
            Reason::UnknownKind => PlaceKind::Request,
            Reason::ImageForm | Reason::ImageHeader | Reason::ImageRecord => PlaceKind::Offset,
            Reason::SiteFailed | Reason::SiteComatose | Reason::NoQuorum => PlaceKind::Site,
            Reason::LastVersion | Reason::SiteOn => PlaceKind::Site,
            Reason::BadSizes | Reason::BadVotes | Reason::BadGrid => PlaceKind::Nothing,
        }
    }
}

/// The reason in words.
impl fmt::Display for Reason {
    ghost output = { λ r. Some (words r) };

    fn fmt<W: fmt::Write>(&self, f: &mut fmt::Formatter<W>) -> fmt::Result {
        f.write_str(match self {
            Reason::NoSuchSite => "no such site",
            Reason::NoSuchBlock => "no such block",
            Reason::WrongLength => "wrong length",
            Reason::BadSizes => "sizes out of their limits",
            Reason::BadVotes => "votes that make no rule",
            Reason::BadGrid => "rows and columns that make no grid",
            Reason::UnknownKind => "unknown kind of request",
            Reason::ImageForm => "unknown form of an image",
            Reason::ImageHeader => "wrong field in an image",
            Reason::ImageRecord => "wrong entry in an image",
            Reason::SiteFailed => "the site has failed",
            Reason::SiteComatose => "the site is comatose",
            Reason::NoQuorum => "no quorum",
            Reason::LastVersion => "the last version is reached",
            Reason::SiteOn => "the site is on",
        })
    }
}
