// Paths.
ghost use Rattle.std.specs.Prelude.{◌≡◌, []};
ghost use Rattle.klem_c.specs.Paths.{klem_root_after, klem_from_name_seg_after, klem_from_components_after, klem_from_str_after, klem_as_string_after, klem_is_normal_after, klem_is_absolute_after, klem_search_rules_apply_after, klem_normalize_after, klem_parent_after, klem_resolve_after};

use crate::{reply, slices};
use name_object::NameSeg;

#[unsafe(no_mangle)]
pub extern "C" fn klem_root(out: &mut [u8], res: &mut [u64]) -> u64
    ensures { record { number = result; result = res.new; lent = out.new } ≡ klem_root_after out.old res.old }
{
    let Some(res) = res.as_mut_array() else {
        return slices::BAD_SLICE;
    };
    let Some(out) = out.as_mut_array() else {
        return slices::BAD_SLICE;
    };
    reply::tell_path(out, res, Ok(path::root()))
}

#[unsafe(no_mangle)]
pub extern "C" fn klem_from_name_seg(seg: &[u8], out: &mut [u8], res: &mut [u64]) -> u64
    ensures { record { number = result; result = res.new; lent = out.new } ≡ klem_from_name_seg_after seg.now out.old res.old }
{
    let Some(res) = res.as_mut_array() else {
        return slices::BAD_SLICE;
    };
    let (Some(out), Some(seg)) = (out.as_mut_array(), seg.as_array()) else {
        return slices::BAD_SLICE;
    };
    reply::tell_path(out, res, path::from_name_seg(NameSeg(*seg)))
}

#[unsafe(no_mangle)]
pub extern "C" fn klem_from_components(
    count: usize,
    bytes: &[u8],
    out: &mut [u8],
    res: &mut [u64],
) -> u64
    ensures { record { number = result; result = res.new; lent = out.new } ≡ klem_from_components_after count bytes.now out.old res.old }
{
    let Some(res) = res.as_mut_array() else {
        return slices::BAD_SLICE;
    };
    let (Some(out), Some(bytes)) = (out.as_mut_array(), bytes.as_array()) else {
        return slices::BAD_SLICE;
    };
    reply::tell_path(out, res, path::from_components(count, *bytes))
}

#[unsafe(no_mangle)]
pub extern "C" fn klem_from_str(text: &[u8], out: &mut [u8], res: &mut [u64]) -> u64
    ensures { record { number = result; result = res.new; lent = out.new } ≡ klem_from_str_after text.now out.old res.old }
{
    let Some(res) = res.as_mut_array() else {
        return slices::BAD_SLICE;
    };
    let Some(out) = out.as_mut_array() else {
        return slices::BAD_SLICE;
    };
    reply::tell_path(out, res, path::from_str(text))
}

#[unsafe(no_mangle)]
pub extern "C" fn klem_as_string(path: &[u8], text: &mut [u8], res: &mut [u64]) -> u64
    ensures { record { number = result; result = res.new; lent = text.new } ≡ klem_as_string_after path.now text.old res.old }
{
    let (Some(res), Some(path)) = (res.as_mut_array(), slices::path_in(path)) else {
        return slices::BAD_SLICE;
    };
    reply::tell(res, path::as_string(path, text))
}

#[unsafe(no_mangle)]
pub extern "C" fn klem_is_normal(path: &[u8], res: &mut [u64]) -> u64
    ensures { record { number = result; result = res.new; lent = [] } ≡ klem_is_normal_after path.now res.old }
{
    let (Some(res), Some(path)) = (res.as_mut_array(), slices::path_in(path)) else {
        return slices::BAD_SLICE;
    };
    reply::tell(res, path::is_normal(path))
}

#[unsafe(no_mangle)]
pub extern "C" fn klem_is_absolute(path: &[u8], res: &mut [u64]) -> u64
    ensures { record { number = result; result = res.new; lent = [] } ≡ klem_is_absolute_after path.now res.old }
{
    let (Some(res), Some(path)) = (res.as_mut_array(), slices::path_in(path)) else {
        return slices::BAD_SLICE;
    };
    reply::tell(res, path::is_absolute(path))
}

#[unsafe(no_mangle)]
pub extern "C" fn klem_search_rules_apply(path: &[u8], res: &mut [u64]) -> u64
    ensures { record { number = result; result = res.new; lent = [] } ≡ klem_search_rules_apply_after path.now res.old }
{
    let (Some(res), Some(path)) = (res.as_mut_array(), slices::path_in(path)) else {
        return slices::BAD_SLICE;
    };
    reply::tell(res, path::search_rules_apply(path))
}

#[unsafe(no_mangle)]
pub extern "C" fn klem_normalize(path: &[u8], out: &mut [u8], res: &mut [u64]) -> u64
    ensures { record { number = result; result = res.new; lent = out.new } ≡ klem_normalize_after path.now out.old res.old }
{
    let Some(res) = res.as_mut_array() else {
        return slices::BAD_SLICE;
    };
    let (Some(out), Some(path)) = (out.as_mut_array(), slices::path_in(path)) else {
        return slices::BAD_SLICE;
    };
    reply::tell_path(out, res, path::normalize(path))
}

#[unsafe(no_mangle)]
pub extern "C" fn klem_parent(path: &[u8], out: &mut [u8], res: &mut [u64]) -> u64
    ensures { record { number = result; result = res.new; lent = out.new } ≡ klem_parent_after path.now out.old res.old }
{
    let Some(res) = res.as_mut_array() else {
        return slices::BAD_SLICE;
    };
    let (Some(out), Some(path)) = (out.as_mut_array(), slices::path_in(path)) else {
        return slices::BAD_SLICE;
    };
    reply::tell_path(out, res, path::parent(path))
}

#[unsafe(no_mangle)]
pub extern "C" fn klem_resolve(path: &[u8], scope: &[u8], out: &mut [u8], res: &mut [u64]) -> u64
    ensures { record { number = result; result = res.new; lent = out.new } ≡ klem_resolve_after path.now scope.now out.old res.old }
{
    let Some(res) = res.as_mut_array() else {
        return slices::BAD_SLICE;
    };
    let (Some(out), Some(path), Some(scope)) = (
        out.as_mut_array(),
        slices::path_in(path),
        slices::path_in(scope),
    ) else {
        return slices::BAD_SLICE;
    };
    reply::tell_path(out, res, path::resolve(path, scope))
}
