// A namespace saved and read back (request R-6): an image of bit-packed fields, most significant bit first.
#![tactic(auto)]

ghost use Rattle.std.specs.Prelude.{◌≡◌, length};
ghost use Rattle.pkg_length.specs.Refusal.{said};
ghost use Rattle.pkg_length.specs.Wrote.{wrote};
ghost use Rattle.table.specs.Limits.{limits};
ghost use Rattle.table.specs.Memory.{left};
ghost use Rattle.image.specs.Format.{first_edition};
ghost use Rattle.image.specs.Calls.{write_call, read_call};

use pkg_length::AmlError;
use table::layout::WORDS;

mod bits;
mod layout;
mod load;
mod save;
mod segments;
mod test;

// What an image holds, the levels counted without the root.
#[derive(Clone, Copy, Debug, PartialEq, Eq)]
pub struct Counts {
    pub levels: usize,
    pub bindings: usize,
    pub objects: usize,
}

// Writes the table's image at the start of `out`, and gives the bytes written.
pub fn write(table: &[u64], out: &mut [u8]) -> Result<usize, AmlError>
    ensures { record { out = out.new; said = said result } ≡ wrote out.old (write_call first_edition limits (length out.old) table.now) }
{
    if !table::well_formed(table) {
        return Err(AmlError::BadTable);
    }
    let words = save::InUse::of(table);
    let bytes = words.length();
    if out.len() < bytes {
        return Err(AmlError::OutTooSmall(0));
    }
    words.write(out);
    Ok(bytes)
}

// Makes the table of an image, whatever its words held. The whole image is tested before a word is written.
pub fn read(bytes: &[u8], table: &mut [u64]) -> Result<Counts, AmlError>
    ensures { record { words = table.new; said = said result } ≡ left limits table.old (read_call first_edition limits bytes.now table.old) }
{
    if table.len() != WORDS {
        return Err(AmlError::BadTable);
    }
    let c = test::image(bytes)?;
    load::fill(bytes, table, c);
    Ok(c)
}
