// A whole table (request R-1): a header of 36 bytes, then the body. Any bytes are read; a table is written into lent memory.
#![tactic(auto)]

ghost use Rattle.std.specs.Prelude.{◌≡◌, length};
ghost use Rattle.pkg_length.specs.Refusal.{said};
ghost use Rattle.pkg_length.specs.Wrote.{wrote};
ghost use Rattle.header.specs.Header.{sum_of, letters_of, signature_in, header_in, body_of, written};

use pkg_length::AmlError;
use pkg_length::inner::little_endian;

mod fill;

// The bytes of a header.
const LENGTH: usize = 36;

// The longest body whose table has a length of four bytes: 2^32 - 1, less the header.
const BODY_LIMIT: usize = 4294967259;

#[derive(Clone, Copy, Debug, PartialEq, Eq)]
pub enum Signature {
    Dsdt,
    Ssdt,
}

impl Signature {
    fn letters(self) -> &'static [u8; 4]
        ensures { result.now ≡ letters_of self }
    {
        match self {
            Signature::Dsdt => b"DSDT",
            Signature::Ssdt => b"SSDT",
        }
    }
}

// The four letters DSDT or SSDT, nothing else.
impl TryFrom<&[u8]> for Signature {
    type Error = AmlError;

    ghost try_from_gives = { λ letters r. said r ≡ signature_in letters.now };

    fn try_from(letters: &[u8]) -> Result<Signature, AmlError> {
        if letters == b"DSDT".as_slice() {
            return Ok(Signature::Dsdt);
        }
        if letters == b"SSDT".as_slice() {
            return Ok(Signature::Ssdt);
        }
        Err(AmlError::BadSignature)
    }
}

// What a header says, and where the body stands in the table: from `start` up to `end`.
#[derive(Clone, Copy, Debug, PartialEq, Eq)]
pub struct Header {
    pub signature: Signature,
    pub revision: u8,
    pub start: usize,
    pub end: usize,
}

// The sum modulo 256.
fn sum(bytes: &[u8]) -> u8
    ensures { result ≡ sum_of bytes.now }
{
    bytes.iter().fold(0, |sum: u8, b| sum.wrapping_add(*b))
}

// The header at the front of the bytes given; what stands behind the stated length is not looked at.
pub fn read(table: &[u8]) -> Result<Header, AmlError>
    ensures { said result ≡ header_in table.now }
{
    if table.len() < LENGTH {
        return Err(AmlError::TableTooShort);
    }
    let signature = Signature::try_from(&table[..4])?;
    let end = little_endian(&table[4..8]) as usize;
    if end < LENGTH {
        return Err(AmlError::BadTableLength);
    }
    if table.len() < end {
        return Err(AmlError::BadTableLength);
    }
    if sum(&table[..end]) != 0 {
        return Err(AmlError::BadChecksum);
    }
    Ok(Header {
        signature,
        revision: table[8],
        start: LENGTH,
        end,
    })
}

// The body, as a part of the bytes given; none where the header is refused. No Option: body_of gives nothing for what is refused, and a public function that
// cannot fail stays one.
pub fn body(table: &[u8]) -> &[u8]
    ensures { result.now ≡ body_of table.now (header_in table.now) }
{
    let Ok(Header { start, end, .. }) = read(table) else {
        return &table[..0];
    };
    &table[start..end]
}

// The header and then the body, at the start of `out`, and the bytes written; length and checksum are worked out, `rest` is bytes 10 to 35.
pub fn write(
    letters: &[u8; 4],
    revision: u8,
    rest: &[u8; 26],
    body: &[u8],
    out: &mut [u8],
) -> Result<usize, AmlError>
    ensures { record { out = out.new; said = said result } ≡ wrote out.old (written (length out.old) letters.now revision rest.now body.now) }
{
    let signature = Signature::try_from(&letters[..])?;
    if BODY_LIMIT < body.len() {
        return Err(AmlError::BadTableLength);
    }
    if out.len() < LENGTH + body.len() {
        return Err(AmlError::OutTooSmall(0));
    }
    Ok(fill::fill(out, signature, revision, rest, body))
}
