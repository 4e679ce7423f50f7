// A table saved as an image, and read back.
ghost use Rattle.std.specs.Prelude.{◌≡◌};
ghost use Rattle.klem_c.specs.Images.{klem_image_write_after, klem_image_read_after};

use crate::{reply, slices};

#[unsafe(no_mangle)]
pub extern "C" fn klem_image_write(table: &[u64], out: &mut [u8], res: &mut [u64]) -> u64
    ensures { record { number = result; result = res.new; lent = out.new } ≡ klem_image_write_after table.now out.old res.old }
{
    let Some(res) = res.as_mut_array() else {
        return slices::BAD_SLICE;
    };
    reply::tell(res, image::write(table, out))
}

#[unsafe(no_mangle)]
pub extern "C" fn klem_image_read(bytes: &[u8], table: &mut [u64], res: &mut [u64]) -> u64
    ensures { record { number = result; result = res.new; lent = table.new } ≡ klem_image_read_after bytes.now table.old res.old }
{
    let Some(res) = res.as_mut_array() else {
        return slices::BAD_SLICE;
    };
    reply::tell(res, image::read(bytes, table))
}
