// Package lengths.
ghost use Rattle.std.specs.Prelude.{◌≡◌, [], ltb, length};
ghost use Rattle.klem_c.specs.Lengths.{klem_pkg_length_after, klem_raw_pkg_length_after, klem_from_raw_length_after};

use crate::{reply, slices};
use pkg_length::PkgLength;

#[unsafe(no_mangle)]
pub extern "C" fn klem_pkg_length(input: &[u8], res: &mut [u64]) -> u64
    ensures { record { number = result; result = res.new; lent = [] } ≡ klem_pkg_length_after input.now res.old }
{
    let Some(res) = res.as_mut_array() else {
        return slices::BAD_SLICE;
    };
    reply::tell(res, pkg_length::pkg_length(input))
}

#[unsafe(no_mangle)]
pub extern "C" fn klem_raw_pkg_length(input: &[u8], res: &mut [u64]) -> u64
    ensures { record { number = result; result = res.new; lent = [] } ≡ klem_raw_pkg_length_after input.now res.old }
{
    let Some(res) = res.as_mut_array() else {
        return slices::BAD_SLICE;
    };
    reply::tell(res, pkg_length::raw_pkg_length(input))
}

#[unsafe(no_mangle)]
pub extern "C" fn klem_from_raw_length(stream: &[u8], raw_length: usize, res: &mut [u64]) -> u64
    ensures { record { number = result; result = res.new; lent = [] } ≡ klem_from_raw_length_after stream.now raw_length res.old }
{
    let Some(res) = res.as_mut_array() else {
        return slices::BAD_SLICE;
    };
    reply::tell(res, PkgLength::from_raw_length(stream, raw_length))
}

#[unsafe(no_mangle)]
pub extern "C" fn klem_still_parsing(raw_length: usize, end_offset: usize, stream: &[u8]) -> bool
    ensures { result ≡ ltb end_offset (length stream.now) }
{
    let l = PkgLength {
        raw_length,
        end_offset,
    };
    l.still_parsing(stream)
}
