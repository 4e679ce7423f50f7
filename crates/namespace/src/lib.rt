// The namespace: the tree of levels, bindings and objects in lent words, with its edits, lookup and search (namespace.rs).
#![tactic(auto)]

ghost use Rattle.std.specs.Prelude.{◌≡◌, ◌+◌, length};
ghost use Rattle.pkg_length.specs.Refusal.{said, said_as};
ghost use Rattle.name_object.specs.Component.{component_limit};
ghost use Rattle.name_object.specs.Memory.{told};
ghost use Rattle.table.specs.Limits.{limits};
ghost use Rattle.table.specs.Memory.{left};
ghost use Rattle.namespace.specs.Search.{search_call, found_hit, level_call, found_level};
ghost use Rattle.namespace.specs.Calls.{edit_left, new_call, add_level_call, remove_level_call, add_value_call, add_value_resolved_call, add_alias_call, get_call, set_call, get_handle_call, get_by_path_call, set_by_path_call};
ghost use Rattle.namespace.specs.Levels.{type_of_level, levels_call, filled, left_of_list};

use keys::Keys;
use lent::Table;
use name_object::AmlName;
use path::inner::Path;
use paths::Absolute;
use pkg_length::AmlError;
use std::fmt;

mod edits;
mod keys;
mod lent;
pub mod listing;
mod paths;

#[derive(Clone, Copy, Debug, PartialEq, Eq)]
pub enum LevelType {
    Scope,
    Device,
    // A legacy `Processor` object's sub-objects are stored in a level of this type.
    Processor,
    // A `PowerResource` object's sub-objects are stored in a level of this type.
    PowerResource,
    // A `ThermalZone` object's sub-objects are stored in a level of this type.
    ThermalZone,
    // A level of this type is made at the path of a method when it is invoked, for its local variables.
    MethodLocals,
}

// A type's name.
impl fmt::Display for LevelType {
    ghost use Rattle.std.specs.Prelude.{Some};
    ghost use Rattle.namespace.specs.Levels.{type_name};

    ghost output = { λ typ. Some (type_name typ) };

    fn fmt<W: fmt::Write>(&self, f: &mut fmt::Formatter<W>) -> fmt::Result {
        f.write_str(match self {
            LevelType::Scope => "Scope",
            LevelType::Device => "Device",
            LevelType::Processor => "Processor",
            LevelType::PowerResource => "PowerResource",
            LevelType::ThermalZone => "ThermalZone",
            LevelType::MethodLocals => "MethodLocals",
        })
    }
}

// Types number as `LevelType` lists them, from 0.
impl From<LevelType> for u64 {
    ghost use Rattle.std.specs.Prelude.{◌≡◌};
    ghost use Rattle.namespace.specs.Calls.{number_of_type};

    ghost from_gives = { λ typ n. n ≡ number_of_type typ };

    fn from(typ: LevelType) -> u64 {
        match typ {
            LevelType::Scope => 0,
            LevelType::Device => 1,
            LevelType::Processor => 2,
            LevelType::PowerResource => 3,
            LevelType::ThermalZone => 4,
            LevelType::MethodLocals => 5,
        }
    }
}

impl LevelType {
    // The type of a number; from 5 on, the last. It stands beside `try_from` because `listing::read` promises of every word.
    pub fn numbered(n: u64) -> LevelType
        ensures { result ≡ type_of_level n }
    {
        match n {
            0 => LevelType::Scope,
            1 => LevelType::Device,
            2 => LevelType::Processor,
            3 => LevelType::PowerResource,
            4 => LevelType::ThermalZone,
            _ => LevelType::MethodLocals,
        }
    }
}

// No type has that number.
#[derive(Clone, Copy, Debug, PartialEq, Eq)]
pub struct UnknownType(pub u64);

impl TryFrom<u64> for LevelType {
    ghost use Rattle.std.specs.Prelude.{◌≡◌};
    ghost use Rattle.namespace.specs.Levels.{type_numbered};

    type Error = UnknownType;

    ghost try_from_gives = { λ n typ. typ ≡ type_numbered n };

    fn try_from(n: u64) -> Result<LevelType, UnknownType> {
        if n <= 5 {
            Ok(LevelType::numbered(n))
        } else {
            Err(UnknownType(n))
        }
    }
}

// A handle refers to an object. Handles count from 0, and one is never handed out again.
#[derive(Clone, Copy, Debug, PartialEq, Eq)]
pub struct AmlHandle(pub u32);

// What a search found: the full name, its handle, and how many scopes were asked.
#[derive(Clone, Copy, Debug, PartialEq, Eq)]
pub struct Found {
    pub name: AmlName,
    pub handle: AmlHandle,
    pub asked: usize,
}

// What a search over levels found: the full name, and how many scopes were asked. Two types: the paper's two searches answer so.
#[derive(Clone, Copy, Debug, PartialEq, Eq)]
pub struct LevelFound {
    pub name: AmlName,
    pub asked: usize,
}

// A level in a list: its depth, the root's being 0, its type, and its segment, four zero bytes for the root.
#[derive(Clone, Copy, Debug, PartialEq, Eq)]
pub struct LevelRecord {
    pub depth: usize,
    pub typ: LevelType,
    pub segment: [u8; 4],
}

// Writes a fresh table: the root, and nothing else.
pub fn new(table: &mut [u64]) -> Result<(), AmlError>
    ensures { edit_left table.new (said result) ≡ left limits table.old (new_call limits table.old) }
{
    if table.len() != table::layout::WORDS {
        return Err(AmlError::BadTable);
    }
    table.fill(0);
    table[0] = table::layout::RANK;
    Ok(())
}

// From here on, one function for each of the paper's calls, which C has too, however alike some are.

// Adds a level. Where it is there already, with whatever type, it stays as it is.
pub fn add_level(table: &mut [u64], path: AmlName, typ: LevelType) -> Result<(), AmlError>
    ensures { edit_left table.new (said result) ≡ left limits table.old (add_level_call limits table.old path typ) }
{
    // The test of 24 alone, in each edit: they take the words bare (edits.rt).
    Table::of(table)?;
    let keys = Keys::settled(&path)?;
    edits::add_level(table, &keys, typ)
}

// Removes a level with everything below it. The objects stay, and can be read by their handles.
pub fn remove_level(table: &mut [u64], path: AmlName) -> Result<(), AmlError>
    ensures { edit_left table.new (said result) ≡ left limits table.old (remove_level_call limits table.old path) }
{
    Table::of(table)?;
    let keys = Keys::settled(&path)?;
    edits::remove_level(table, &keys)
}

// Adds a value under a new handle, and binds the path to it.
pub fn add_value(table: &mut [u64], path: AmlName, value: u64) -> Result<AmlHandle, AmlError>
    ensures { edit_left table.new (said_as (λ h. h.0) result) ≡ left limits table.old (add_value_call limits table.old path value) }
{
    Table::of(table)?;
    let keys = Keys::settled(&path)?;
    edits::add_value(table, &keys, value)
}

// Adds a value at a path against a scope.
pub fn add_value_at_resolved_path(
    table: &mut [u64],
    path: AmlName,
    scope: AmlName,
    value: u64,
) -> Result<AmlHandle, AmlError>
    ensures { edit_left table.new (said_as (λ h. h.0) result) ≡ left limits table.old (add_value_resolved_call limits table.old path scope value) }
{
    Table::of(table)?;
    let keys = Keys::resolved(&path, &scope)?;
    edits::add_value(table, &keys, value)
}

// Adds another name for an existing one; both paths are against the scope. That it is an alias is forgotten.
pub fn add_alias_at_resolved_path(
    table: &mut [u64],
    path: AmlName,
    scope: AmlName,
    target: AmlName,
) -> Result<AmlHandle, AmlError>
    ensures { edit_left table.new (said_as (λ h. h.0) result) ≡ left limits table.old (add_alias_call limits table.old path scope target) }
{
    Table::of(table)?;
    let path = Path::of(&path)?;
    let scope = Path::of(&scope)?;
    let target = Path::of(&target)?;
    let names = Keys::of(&Absolute::against(&path, &scope)?);
    let aims = Keys::of(&Absolute::against(&target, &scope)?);
    edits::add_alias(table, &names, &aims)
}

pub fn get(table: &[u64], handle: AmlHandle) -> Result<u64, AmlError>
    ensures { said result ≡ get_call limits table.now handle.0 }
{
    Table::of(table)?.read(handle)
}

// What `get_mut` is for.
pub fn set(table: &mut [u64], handle: AmlHandle, value: u64) -> Result<(), AmlError>
    ensures { edit_left table.new (said result) ≡ left limits table.old (set_call limits table.old handle.0 value) }
{
    Table::of(table)?;
    edits::write(table, handle, value)
}

pub fn get_handle(table: &[u64], path: AmlName) -> Result<AmlHandle, AmlError>
    ensures { said_as (λ h. h.0) result ≡ get_handle_call limits table.now path }
{
    let table = Table::of(table)?;
    table.look_up(&Keys::settled(&path)?)
}

pub fn get_by_path(table: &[u64], path: AmlName) -> Result<u64, AmlError>
    ensures { said result ≡ get_by_path_call limits table.now path }
{
    let table = Table::of(table)?;
    let bound = table.look_up(&Keys::settled(&path)?)?;
    table.read(bound)
}

// What `get_by_path_mut` is for.
pub fn set_by_path(table: &mut [u64], path: AmlName, value: u64) -> Result<(), AmlError>
    ensures { edit_left table.new (said result) ≡ left limits table.old (set_by_path_call limits table.old path value) }
{
    let lent = Table::of(table)?;
    let bound = lent.look_up(&Keys::settled(&path)?)?;
    edits::write(table, bound, value)
}

// Searches for an object. The search rules apply to a path that is one bare segment: the scope is asked, then each scope around it up to the root.
pub fn search(table: &[u64], path: AmlName, starting_scope: AmlName) -> Result<Found, AmlError>
    ensures { said_as found_hit result ≡ told component_limit (search_call limits table.now path starting_scope) }
{
    let table = Table::of(table)?;
    let path = Path::of(&path)?;
    let scope = Absolute::settled(&Path::of(&starting_scope)?)?;
    match paths::bare(&path) {
        Some(segment) => table.search_up(segment, &scope),
        None => table.search_once(&path, &scope),
    }
}

// The same over levels. A path that is not one bare segment is returned unchanged, with no scope asked.
pub fn search_for_level(
    table: &[u64],
    level_name: AmlName,
    starting_scope: AmlName,
) -> Result<LevelFound, AmlError>
    ensures { said_as found_level result ≡ told component_limit (level_call limits table.now level_name starting_scope) }
{
    let table = Table::of(table)?;
    let path = Path::of(&level_name)?;
    let scope = Path::of(&starting_scope)?;
    match paths::bare(&path) {
        Some(segment) => table.level_up(segment, &Absolute::settled(&scope)?),
        None => Ok(LevelFound {
            name: level_name,
            asked: 0,
        }),
    }
}

// Writes the levels from a starting level down into a lent list, a level before those below it and siblings in byte order. A list that is too short is
// refused with the number needed, and stays as it is; records beyond those written keep their contents.
pub fn levels(table: &[u64], path: AmlName, list: &mut [LevelRecord]) -> Result<usize, AmlError>
    ensures { left_of_list list.new (said result) ≡ filled list.old (levels_call limits table.now path (length list.old)) }
{
    let found = listing::start(table, path, list.len())?;
    let words = &table[found.at..found.at + found.count];
    // By index: so the invariant speaks of the list alone, and of no iterator over it.
    for (i, word) in words.iter().enumerate() {
        list[i] = listing::read(*word);
    }
    Ok(found.count)
}
