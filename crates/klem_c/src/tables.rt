// The table.
ghost use Rattle.std.specs.Prelude.{◌≡◌, []};
ghost use Rattle.table.specs.Limits.{limits};
ghost use Rattle.table.specs.Memory.{is_well_formed};
ghost use Rattle.klem_c.specs.Tables.{klem_table_new_after, klem_add_level_after, klem_remove_level_after, klem_add_value_after, klem_add_value_at_resolved_path_after, klem_add_alias_at_resolved_path_after, klem_get_after, klem_set_after, klem_get_handle_after, klem_get_by_path_after, klem_set_by_path_after, klem_search_after, klem_search_for_level_after};

use crate::reply::Fault;
use crate::{reply, slices};
use namespace::{AmlHandle, LevelType};

#[unsafe(no_mangle)]
pub extern "C" fn klem_well_formed(table: &[u64]) -> bool
    ensures { result ≡ is_well_formed limits table.now }
{
    table::well_formed(table)
}

#[unsafe(no_mangle)]
pub extern "C" fn klem_table_new(table: &mut [u64], res: &mut [u64]) -> u64
    ensures { record { number = result; result = res.new; lent = table.new } ≡ klem_table_new_after table.old res.old }
{
    let Some(res) = res.as_mut_array() else {
        return slices::BAD_SLICE;
    };
    reply::tell(res, namespace::new(table))
}

#[unsafe(no_mangle)]
pub extern "C" fn klem_add_level(table: &mut [u64], path: &[u8], typ: u64, res: &mut [u64]) -> u64
    ensures { record { number = result; result = res.new; lent = table.new } ≡ klem_add_level_after table.old path.now typ res.old }
{
    let (Some(res), Some(path)) = (res.as_mut_array(), slices::path_in(path)) else {
        return slices::BAD_SLICE;
    };
    let Ok(typ) = LevelType::try_from(typ) else {
        return reply::refuse(res, Fault::BadType);
    };
    reply::tell(res, namespace::add_level(table, path, typ))
}

#[unsafe(no_mangle)]
pub extern "C" fn klem_remove_level(table: &mut [u64], path: &[u8], res: &mut [u64]) -> u64
    ensures { record { number = result; result = res.new; lent = table.new } ≡ klem_remove_level_after table.old path.now res.old }
{
    let (Some(res), Some(path)) = (res.as_mut_array(), slices::path_in(path)) else {
        return slices::BAD_SLICE;
    };
    reply::tell(res, namespace::remove_level(table, path))
}

#[unsafe(no_mangle)]
pub extern "C" fn klem_add_value(table: &mut [u64], path: &[u8], value: u64, res: &mut [u64]) -> u64
    ensures { record { number = result; result = res.new; lent = table.new } ≡ klem_add_value_after table.old path.now value res.old }
{
    let (Some(res), Some(path)) = (res.as_mut_array(), slices::path_in(path)) else {
        return slices::BAD_SLICE;
    };
    reply::tell(res, namespace::add_value(table, path, value))
}

#[unsafe(no_mangle)]
pub extern "C" fn klem_add_value_at_resolved_path(
    table: &mut [u64],
    path: &[u8],
    scope: &[u8],
    value: u64,
    res: &mut [u64],
) -> u64
    ensures { record { number = result; result = res.new; lent = table.new } ≡ klem_add_value_at_resolved_path_after table.old path.now scope.now value res.old }
{
    let (Some(res), Some(path), Some(scope)) = (
        res.as_mut_array(),
        slices::path_in(path),
        slices::path_in(scope),
    ) else {
        return slices::BAD_SLICE;
    };
    reply::tell(
        res,
        namespace::add_value_at_resolved_path(table, path, scope, value),
    )
}

#[unsafe(no_mangle)]
pub extern "C" fn klem_add_alias_at_resolved_path(
    table: &mut [u64],
    path: &[u8],
    scope: &[u8],
    target: &[u8],
    res: &mut [u64],
) -> u64
    ensures { record { number = result; result = res.new; lent = table.new } ≡ klem_add_alias_at_resolved_path_after table.old path.now scope.now target.now res.old }
{
    let (Some(res), Some(path), Some(scope), Some(target)) = (
        res.as_mut_array(),
        slices::path_in(path),
        slices::path_in(scope),
        slices::path_in(target),
    ) else {
        return slices::BAD_SLICE;
    };
    reply::tell(
        res,
        namespace::add_alias_at_resolved_path(table, path, scope, target),
    )
}

#[unsafe(no_mangle)]
pub extern "C" fn klem_get(table: &[u64], handle: u32, res: &mut [u64]) -> u64
    ensures { record { number = result; result = res.new; lent = [] } ≡ klem_get_after table.now handle res.old }
{
    let Some(res) = res.as_mut_array() else {
        return slices::BAD_SLICE;
    };
    reply::tell(res, namespace::get(table, AmlHandle(handle)))
}

#[unsafe(no_mangle)]
pub extern "C" fn klem_set(table: &mut [u64], handle: u32, value: u64, res: &mut [u64]) -> u64
    ensures { record { number = result; result = res.new; lent = table.new } ≡ klem_set_after table.old handle value res.old }
{
    let Some(res) = res.as_mut_array() else {
        return slices::BAD_SLICE;
    };
    reply::tell(res, namespace::set(table, AmlHandle(handle), value))
}

#[unsafe(no_mangle)]
pub extern "C" fn klem_get_handle(table: &[u64], path: &[u8], res: &mut [u64]) -> u64
    ensures { record { number = result; result = res.new; lent = [] } ≡ klem_get_handle_after table.now path.now res.old }
{
    let (Some(res), Some(path)) = (res.as_mut_array(), slices::path_in(path)) else {
        return slices::BAD_SLICE;
    };
    reply::tell(res, namespace::get_handle(table, path))
}

#[unsafe(no_mangle)]
pub extern "C" fn klem_get_by_path(table: &[u64], path: &[u8], res: &mut [u64]) -> u64
    ensures { record { number = result; result = res.new; lent = [] } ≡ klem_get_by_path_after table.now path.now res.old }
{
    let (Some(res), Some(path)) = (res.as_mut_array(), slices::path_in(path)) else {
        return slices::BAD_SLICE;
    };
    reply::tell(res, namespace::get_by_path(table, path))
}

#[unsafe(no_mangle)]
pub extern "C" fn klem_set_by_path(
    table: &mut [u64],
    path: &[u8],
    value: u64,
    res: &mut [u64],
) -> u64
    ensures { record { number = result; result = res.new; lent = table.new } ≡ klem_set_by_path_after table.old path.now value res.old }
{
    let (Some(res), Some(path)) = (res.as_mut_array(), slices::path_in(path)) else {
        return slices::BAD_SLICE;
    };
    reply::tell(res, namespace::set_by_path(table, path, value))
}

#[unsafe(no_mangle)]
pub extern "C" fn klem_search(
    table: &[u64],
    path: &[u8],
    scope: &[u8],
    out: &mut [u8],
    res: &mut [u64],
) -> u64
    ensures { record { number = result; result = res.new; lent = out.new } ≡ klem_search_after table.now path.now scope.now out.old res.old }
{
    let Some(res) = res.as_mut_array() else {
        return slices::BAD_SLICE;
    };
    let (Some(out), Some(path), Some(scope)) = (
        out.as_mut_array(),
        slices::path_in(path),
        slices::path_in(scope),
    ) else {
        return slices::BAD_SLICE;
    };
    reply::tell_path(out, res, namespace::search(table, path, scope))
}

#[unsafe(no_mangle)]
pub extern "C" fn klem_search_for_level(
    table: &[u64],
    path: &[u8],
    scope: &[u8],
    out: &mut [u8],
    res: &mut [u64],
) -> u64
    ensures { record { number = result; result = res.new; lent = out.new } ≡ klem_search_for_level_after table.now path.now scope.now out.old res.old }
{
    let Some(res) = res.as_mut_array() else {
        return slices::BAD_SLICE;
    };
    let (Some(out), Some(path), Some(scope)) = (
        out.as_mut_array(),
        slices::path_in(path),
        slices::path_in(scope),
    ) else {
        return slices::BAD_SLICE;
    };
    reply::tell_path(out, res, namespace::search_for_level(table, path, scope))
}
