// The refusals that every layer shares, and package lengths (pkg_length.rs).
#![tactic(auto)]

ghost use Rattle.std.specs.Prelude.{◌≡◌, ltb, length};
ghost use Rattle.pkg_length.specs.Refusal.{paper, said};
ghost use Rattle.pkg_length.specs.Pkg.{raw_length_answer, from_raw, pkg_length_answer};

use std::error::Error;
use std::fmt;

pub mod inner;

// The refusals of document 01's table, under its names and in its order, then those of 02; each with its place where the paper gives one.
#[derive(Clone, Copy, Debug, PartialEq, Eq)]
pub enum AmlError {
    UnexpectedEndOfStream(usize),
    InvalidPkgLength(usize),
    BadOpcode(usize),
    TooDeep(usize),
    BlockTooLong,
    BadNameByte(usize),
    EmptyNamesAreInvalid,
    InvalidNameSeg(usize),
    TooManyComponents,
    InvalidNormalizedName,
    NotAbsolute,
    RootHasNoParent,
    RootNotAllowed,
    TriedToRemoveRootNamespace,
    LevelDoesNotExist(usize),
    ValueDoesNotExist,
    NameCollision,
    LevelsFull,
    BindingsFull,
    ObjectsFull,
    NoSuchHandle,
    BudgetSpent,
    Unset(usize),
    BadTable,
    OutTooSmall(usize),
    BadPath,
    TableTooShort,
    BadSignature,
    BadTableLength,
    BadChecksum,
    PackageEndsEarly(usize),
    ImageEndedEarly(usize),
    ImageEdition(usize),
    ImageCount(usize),
    ImageDepth(usize),
    ImageType(usize),
    ImageSegment(usize),
    ImageOrder(usize),
    ImageDeepBindings(usize),
    ImageBindingsOver(usize),
    ImageBindingsShort(usize),
    ImageHandle(usize),
    ImageSpareBits(usize),
    ImageBytesLeft(usize),
}

// A refusal as the table numbers it: the number, and the place, 0 where the table gives none. Its cases carry places, so no cast gives the number.
#[derive(Clone, Copy, Debug, PartialEq, Eq)]
pub struct Refusal(pub usize, pub usize);

impl From<AmlError> for Refusal {
    ghost from_gives = { λ e r. r ≡ paper e };

    fn from(e: AmlError) -> Refusal {
        match e {
            AmlError::UnexpectedEndOfStream(end) => Refusal(1, end),
            AmlError::InvalidPkgLength(lead) => Refusal(2, lead),
            AmlError::BadOpcode(at) => Refusal(3, at),
            AmlError::TooDeep(at) => Refusal(4, at),
            AmlError::BlockTooLong => Refusal(5, 0),
            AmlError::BadNameByte(at) => Refusal(6, at),
            AmlError::EmptyNamesAreInvalid => Refusal(7, 0),
            AmlError::InvalidNameSeg(at) => Refusal(8, at),
            AmlError::TooManyComponents => Refusal(9, 0),
            AmlError::InvalidNormalizedName => Refusal(10, 0),
            AmlError::NotAbsolute => Refusal(11, 0),
            AmlError::RootHasNoParent => Refusal(12, 0),
            AmlError::RootNotAllowed => Refusal(13, 0),
            AmlError::TriedToRemoveRootNamespace => Refusal(14, 0),
            AmlError::LevelDoesNotExist(segments) => Refusal(15, segments),
            AmlError::ValueDoesNotExist => Refusal(16, 0),
            AmlError::NameCollision => Refusal(17, 0),
            AmlError::LevelsFull => Refusal(18, 0),
            AmlError::BindingsFull => Refusal(19, 0),
            AmlError::ObjectsFull => Refusal(20, 0),
            AmlError::NoSuchHandle => Refusal(21, 0),
            AmlError::BudgetSpent => Refusal(22, 0),
            AmlError::Unset(cell) => Refusal(23, cell),
            AmlError::BadTable => Refusal(24, 0),
            AmlError::OutTooSmall(needed) => Refusal(25, needed),
            AmlError::BadPath => Refusal(26, 0),
            AmlError::TableTooShort => Refusal(27, 0),
            AmlError::BadSignature => Refusal(28, 0),
            AmlError::BadTableLength => Refusal(29, 0),
            AmlError::BadChecksum => Refusal(30, 0),
            AmlError::PackageEndsEarly(needed) => Refusal(31, needed),
            AmlError::ImageEndedEarly(at) => Refusal(32, at),
            AmlError::ImageEdition(at) => Refusal(33, at),
            AmlError::ImageCount(at) => Refusal(34, at),
            AmlError::ImageDepth(at) => Refusal(35, at),
            AmlError::ImageType(at) => Refusal(36, at),
            AmlError::ImageSegment(at) => Refusal(37, at),
            AmlError::ImageOrder(at) => Refusal(38, at),
            AmlError::ImageDeepBindings(at) => Refusal(39, at),
            AmlError::ImageBindingsOver(at) => Refusal(40, at),
            AmlError::ImageBindingsShort(at) => Refusal(41, at),
            AmlError::ImageHandle(at) => Refusal(42, at),
            AmlError::ImageSpareBits(at) => Refusal(43, at),
            AmlError::ImageBytesLeft(at) => Refusal(44, at),
        }
    }
}

// A refusal's name in the table. By hand: the derived Debug prints the place too, and these are the table's names.
impl fmt::Display for AmlError {
    ghost use Rattle.std.specs.Prelude.{Some};
    ghost use Rattle.pkg_length.specs.Names.{refusal_name};

    ghost output = { λ e. Some (refusal_name e) };

    fn fmt<W: fmt::Write>(&self, f: &mut fmt::Formatter<W>) -> fmt::Result {
        f.write_str(match self {
            AmlError::UnexpectedEndOfStream(_) => "UnexpectedEndOfStream",
            AmlError::InvalidPkgLength(_) => "InvalidPkgLength",
            AmlError::BadOpcode(_) => "BadOpcode",
            AmlError::TooDeep(_) => "TooDeep",
            AmlError::BlockTooLong => "BlockTooLong",
            AmlError::BadNameByte(_) => "BadNameByte",
            AmlError::EmptyNamesAreInvalid => "EmptyNamesAreInvalid",
            AmlError::InvalidNameSeg(_) => "InvalidNameSeg",
            AmlError::TooManyComponents => "TooManyComponents",
            AmlError::InvalidNormalizedName => "InvalidNormalizedName",
            AmlError::NotAbsolute => "NotAbsolute",
            AmlError::RootHasNoParent => "RootHasNoParent",
            AmlError::RootNotAllowed => "RootNotAllowed",
            AmlError::TriedToRemoveRootNamespace => "TriedToRemoveRootNamespace",
            AmlError::LevelDoesNotExist(_) => "LevelDoesNotExist",
            AmlError::ValueDoesNotExist => "ValueDoesNotExist",
            AmlError::NameCollision => "NameCollision",
            AmlError::LevelsFull => "LevelsFull",
            AmlError::BindingsFull => "BindingsFull",
            AmlError::ObjectsFull => "ObjectsFull",
            AmlError::NoSuchHandle => "NoSuchHandle",
            AmlError::BudgetSpent => "BudgetSpent",
            AmlError::Unset(_) => "Unset",
            AmlError::BadTable => "BadTable",
            AmlError::OutTooSmall(_) => "OutTooSmall",
            AmlError::BadPath => "BadPath",
            AmlError::TableTooShort => "TableTooShort",
            AmlError::BadSignature => "BadSignature",
            AmlError::BadTableLength => "BadTableLength",
            AmlError::BadChecksum => "BadChecksum",
            AmlError::PackageEndsEarly(_) => "PackageEndsEarly",
            AmlError::ImageEndedEarly(_) => "ImageEndedEarly",
            AmlError::ImageEdition(_) => "ImageEdition",
            AmlError::ImageCount(_) => "ImageCount",
            AmlError::ImageDepth(_) => "ImageDepth",
            AmlError::ImageType(_) => "ImageType",
            AmlError::ImageSegment(_) => "ImageSegment",
            AmlError::ImageOrder(_) => "ImageOrder",
            AmlError::ImageDeepBindings(_) => "ImageDeepBindings",
            AmlError::ImageBindingsOver(_) => "ImageBindingsOver",
            AmlError::ImageBindingsShort(_) => "ImageBindingsShort",
            AmlError::ImageHandle(_) => "ImageHandle",
            AmlError::ImageSpareBits(_) => "ImageSpareBits",
            AmlError::ImageBytesLeft(_) => "ImageBytesLeft",
        })
    }
}

impl Error for AmlError {}

#[derive(Clone, Copy, Debug, PartialEq, Eq)]
pub struct PkgLength {
    pub raw_length: usize,
    // What is left of the stream where the package ends.
    pub end_offset: usize,
}

// A raw length, and how many bytes spell it.
#[derive(Clone, Copy, Debug, PartialEq, Eq)]
pub struct Raw {
    pub raw: usize,
    pub used: usize,
}

// A package length that was read, and how many bytes spell it.
#[derive(Clone, Copy, Debug, PartialEq, Eq)]
pub struct Pkg {
    pub length_read: PkgLength,
    pub used: usize,
}

impl PkgLength {
    pub fn from_raw_length(stream: &[u8], raw_length: usize) -> Result<PkgLength, AmlError>
        ensures { said result ≡ from_raw (length stream.now) raw_length }
    {
        if stream.len() < raw_length {
            return Err(AmlError::InvalidPkgLength(0));
        }
        Ok(PkgLength {
            raw_length,
            end_offset: stream.len() - raw_length,
        })
    }

    // Whether the stream, of which the front is read, is still within the package.
    pub fn still_parsing(self, stream: &[u8]) -> bool
        ensures { result ≡ ltb self.end_offset (length stream.now) }
    {
        self.end_offset < stream.len()
    }
}

// A package length against the part that it stands at the front of: it counts its own bytes, and the part holds the package.
pub fn pkg_length(input: &[u8]) -> Result<Pkg, AmlError>
    ensures { said result ≡ pkg_length_answer input.now }
{
    let Raw { raw, used } = raw_pkg_length(input)?;
    let length_read = PkgLength::from_raw_length(input, raw)?;
    Ok(Pkg { length_read, used })
}

// The raw length alone, whatever the part holds.
pub fn raw_pkg_length(input: &[u8]) -> Result<Raw, AmlError>
    ensures { said result ≡ raw_length_answer input.now }
{
    if 65536 < input.len() {
        return Err(AmlError::BlockTooLong);
    }
    let [lead, rest @ ..] = input else {
        return Err(AmlError::UnexpectedEndOfStream(0));
    };
    let lead_byte = usize::from(*lead);
    let byte_count = lead_byte / 64;
    if byte_count == 0 {
        return Ok(Raw {
            raw: lead_byte % 64,
            used: 1,
        });
    }
    if rest.len() < byte_count {
        return Err(AmlError::UnexpectedEndOfStream(input.len()));
    }
    let high = inner::little_endian(&rest[..byte_count]) as usize;
    Ok(Raw {
        raw: lead_byte % 16 + 16 * high,
        used: 1 + byte_count,
    })
}
