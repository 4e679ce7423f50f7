// The edits of the words. Between two writes the words are no table, so an edit takes them bare, with what was tested before it:
// a type of tested words that are lent to write would be taken apart at the first write.
ghost use Rattle.std.specs.Prelude.{◌≡◌, true, ℕ, ◌+◌, ◌-◌, ◌*◌, ◌^◌, ◌<◌, ◌≤◌};
ghost use Rattle.pkg_length.specs.Refusal.{said, said_as};
ghost use Rattle.table.specs.Limits.{limits};
ghost use Rattle.table.specs.Memory.{is_well_formed, decode, left, done};
ghost use Rattle.table.specs.Edits.{last_of, add_level_answer, remove_level_answer, add_value_answer, add_alias_answer, set_value};
ghost use Rattle.table.specs.Inside.{bind_words};
ghost use Rattle.namespace.specs.Calls.{edit_left, number_of_type};
ghost use Rattle.namespace.specs.Inside.{Spare};

use crate::keys::Keys;
use crate::lent::Table;
use crate::{AmlHandle, LevelType};
use pkg_length::AmlError;
use table::inner::{Place, Sought};
use table::layout::{COUNT_AT, LAST_LEVEL, LEVELS, OBJECTS, VALUES_AT};

// Adds a level of that type at the path.
pub(crate) fn add_level(table: &mut [u64], path: &Keys, typ: LevelType) -> Result<(), AmlError>
    requires { is_well_formed limits table.old ≡ true }
    ensures { edit_left table.new (said result) ≡ left limits table.old (done (add_level_answer limits (decode limits table.old) path.now (number_of_type typ))) }
{
    let keys = path.as_slice();
    let n = keys.len();
    if n <= 1 {
        return Ok(());
    }
    match table::inner::seek(&table[..LEVELS], keys) {
        Sought::Here(_) => Ok(()),
        Sought::Missing(p) => Err(AmlError::LevelDoesNotExist(p)),
        Sought::Before(k) => {
            if table[LAST_LEVEL] != 0 {
                return Err(AmlError::LevelsFull);
            }
            let word = table::inner::packed_level(n, u64::from(typ), 0, keys[n - 1]);
            table::inner::make_room(&mut table[..LEVELS], k, word.0);
            Ok(())
        }
    }
}

// Removes the level at the path, with everything below it.
pub(crate) fn remove_level(table: &mut [u64], path: &Keys) -> Result<(), AmlError>
    requires { is_well_formed limits table.old ≡ true }
    ensures { edit_left table.new (said result) ≡ left limits table.old (done (remove_level_answer (decode limits table.old) path.now)) }
{
    let keys = path.as_slice();
    let n = keys.len();
    if n <= 1 {
        return Err(AmlError::TriedToRemoveRootNamespace);
    }
    match table::inner::seek(&table[..LEVELS], keys) {
        Sought::Here(place) => {
            let end = table::inner::subtree_end(&table[..LEVELS], place);
            table::inner::close_gap(&mut table[..LEVELS], place.level, end.level);
            table::inner::close_gap(&mut table[LEVELS..COUNT_AT], place.binding, end.binding);
            Ok(())
        }
        Sought::Before(_) => Err(AmlError::LevelDoesNotExist(n - 1)),
        Sought::Missing(p) => Err(AmlError::LevelDoesNotExist(p)),
    }
}

// Binds a path's last segment to a handle, where there is room for it.
fn bind_at(table: &mut [u64], path: &Keys, place: Place, handle: AmlHandle)
    requires { (is_well_formed limits table.old ≡ true) × Spare limits table.old path.now place }
    ensures { table.new ≡ bind_words limits table.old place.level place.binding (last_of path.now * 2 ^ 32 + handle.0) }
{
    let keys = path.as_slice();
    let word = table::inner::packed_binding(keys[keys.len() - 1], handle.0);
    table::inner::bind(table, place, word.0);
}

// Adds a value under a new handle, and binds the path's last segment to it.
pub(crate) fn add_value(table: &mut [u64], path: &Keys, value: u64) -> Result<AmlHandle, AmlError>
    requires { is_well_formed limits table.old ≡ true }
    ensures { edit_left table.new (said_as (λ h. h.0) result) ≡ left limits table.old (add_value_answer limits (decode limits table.old) path.now value) }
{
    let place = Table { words: table }.find_room(path)?;
    let made = table[COUNT_AT];
    if OBJECTS as u64 <= made {
        return Err(AmlError::ObjectsFull);
    }
    let handle = AmlHandle(made as u32);
    bind_at(table, path, place, handle);
    table[VALUES_AT + made as usize] = value;
    table[COUNT_AT] = made + 1;
    Ok(handle)
}

// Binds the path's last segment to what the target's is bound to.
pub(crate) fn add_alias(
    table: &mut [u64],
    path: &Keys,
    target: &Keys,
) -> Result<AmlHandle, AmlError>
    requires { is_well_formed limits table.old ≡ true }
    ensures { edit_left table.new (said_as (λ h. h.0) result) ≡ left limits table.old (add_alias_answer limits (decode limits table.old) path.now target.now) }
{
    let aim = Table { words: table }.look_up(target)?;
    let room = Table { words: table }.find_room(path)?;
    bind_at(table, path, room, aim);
    Ok(aim)
}

pub(crate) fn write(table: &mut [u64], handle: AmlHandle, value: u64) -> Result<(), AmlError>
    requires { is_well_formed limits table.old ≡ true }
    ensures { edit_left table.new (said result) ≡ left limits table.old (done (set_value (decode limits table.old) handle.0 value)) }
{
    let h = handle.0 as usize;
    let made = table[COUNT_AT] as usize;
    if h < made {
        table[VALUES_AT + h] = value;
        Ok(())
    } else {
        Err(AmlError::NoSuchHandle)
    }
}
