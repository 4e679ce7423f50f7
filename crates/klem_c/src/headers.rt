// Whole ACPI tables: the header, and the body behind it.
ghost use Rattle.std.specs.Prelude.{◌≡◌, []};
ghost use Rattle.klem_c.specs.Headers.{klem_header_read_after, klem_header_write_after};

use crate::{reply, slices};

#[unsafe(no_mangle)]
pub extern "C" fn klem_header_read(table: &[u8], res: &mut [u64]) -> u64
    ensures { record { number = result; result = res.new; lent = [] } ≡ klem_header_read_after table.now res.old }
{
    let Some(res) = res.as_mut_array() else {
        return slices::BAD_SLICE;
    };
    reply::tell(res, header::read(table))
}

#[unsafe(no_mangle)]
pub extern "C" fn klem_header_write(
    signature: &[u8],
    revision: u8,
    rest: &[u8],
    body: &[u8],
    out: &mut [u8],
    res: &mut [u64],
) -> u64
    ensures { record { number = result; result = res.new; lent = out.new } ≡ klem_header_write_after signature.now revision rest.now body.now out.old res.old }
{
    let (Some(res), Some(letters), Some(rest)) = (
        res.as_mut_array(),
        signature.as_array(),
        rest.as_array(),
    ) else {
        return slices::BAD_SLICE;
    };
    reply::tell(res, header::write(letters, revision, rest, body, out))
}
