// Slices whose length is fixed, and paths in them.
ghost use Rattle.std.specs.Prelude.{◌≡◌};
ghost use Rattle.klem_c.specs.Paths.{path_given, path_bytes};

use name_object::{AmlName, PATH_BYTES};
use statement::frame::CELLS;

// What a call returns where a slice whose length is fixed has another. A call first takes each of its slices as the array that it has to be. Two
// that are written have a `let` each: where one tuple holds both and only the first is refused, nothing is known of what the second holds. No
// closure takes the rest of a call: its clause would be the call's own, said twice.
pub(crate) const BAD_SLICE: u64 = 1001;

// A path's count in two bytes, and the bytes of its components.
pub(crate) const PATH: usize = 2 + PATH_BYTES;

// Each cell's flag, each cell's number, and the width.
pub(crate) const FRAME: usize = 2 * CELLS + 1;

pub(crate) const RESULT: usize = 8;

// The path that bytes hold, where they have its length. The count stands low byte first.
pub(crate) fn path_in(src: &[u8]) -> Option<AmlName>
    ensures { result ≡ path_given src.now }
{
    let (count, bytes) = src.split_first_chunk::<2>()?;
    let count = u16::from_le_bytes(*count) as usize;
    let bytes = <[u8; PATH_BYTES]>::try_from(bytes).ok()?;
    Some(AmlName { count, bytes })
}

#[inline(always)]
pub(crate) fn put_path(out: &mut [u8; PATH], name: &AmlName)
    ensures { out.new ≡ path_bytes name.now }
{
    out[..2].copy_from_slice(&name.count.to_le_bytes()[..2]);
    out[2..].copy_from_slice(&name.bytes);
}
