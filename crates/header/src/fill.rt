// A table's bytes, put in order at the start of lent memory.
ghost use Rattle.std.specs.Prelude.{◌≡◌, ◌+◌, ◌-◌, ◌%◌, ◌≤◌, length};
ghost use Rattle.pkg_length.specs.Refusal.{gives};
ghost use Rattle.pkg_length.specs.Wrote.{wrote};
ghost use Rattle.header.specs.Header.{header_length, sum_of, bytes_of};

use crate::{LENGTH, Signature};

// What the bytes lack to a sum of 0.
fn checksum(bytes: &[u8]) -> u8
    ensures { result ≡ (256 - sum_of bytes.now) % 256 }
{
    crate::sum(bytes).wrapping_neg()
}

// Byte by byte: the library's copy of a slice of any length is a call of memmove, and what C links calls memcpy and memset alone.
fn copy(to: &mut [u8], bytes: &[u8])
    requires { length to.old ≡ length bytes.now }
    ensures { to.new ≡ bytes.now }
{
    for i in 0..bytes.len() {
        to[i] = bytes[i];
    }
}

// All bytes of a table, and how many they are; the checksum is worked out over them with 0 in its place.
pub(crate) fn fill(
    out: &mut [u8],
    s: Signature,
    revision: u8,
    rest: &[u8; 26],
    body: &[u8],
) -> usize
    requires { header_length + length body.now ≤ length out.old }
    ensures { record { out = out.new; said = gives result } ≡ wrote out.old (gives (bytes_of (record { signature = s; revision = revision; rest = rest.now; body = body.now }))) }
{
    let n = LENGTH + body.len();
    out[..4].copy_from_slice(s.letters());
    out[4..8].copy_from_slice(&n.to_le_bytes()[..4]);
    out[8..10].copy_from_slice(&[revision, 0]);
    out[10..LENGTH].copy_from_slice(rest);
    copy(&mut out[LENGTH..n], body);
    out[9] = checksum(&out[..n]);
    n
}
