// The list of levels, made of numbers: where its words stand, how many there are, and what each of them says.
ghost use Rattle.std.specs.Prelude.{◌≡◌, get_or};
ghost use Rattle.table.specs.Limits.{limits};
ghost use Rattle.table.specs.Memory.{decode};
ghost use Rattle.namespace.specs.Levels.{records_from, levels_call};
ghost use Rattle.namespace.specs.Listing.{word_record, Listable};

use crate::keys::Keys;
use crate::lent::Table;
use crate::{LevelRecord, LevelType};
use name_object::AmlName;
use pkg_length::AmlError;
use table::inner::Sought;
use table::layout::{LEVELS, LevelWord};

// Where the levels that are asked for stand in the table: `count` words from index `at` on. A place and a count, and no slice of the words:
// the clause `Listable` speaks of both.
#[derive(Clone, Copy, Debug, PartialEq, Eq)]
pub struct Listing {
    pub at: usize,
    pub count: usize,
}

// A level and everything below it stand together.
fn below(table: &Table, path: &Keys, room: usize) -> Result<Listing, AmlError>
    ensures { Listable table.now.words.now room (records_from room (decode limits table.now.words.now) path.now) result }
{
    let keys = path.as_slice();
    match table::inner::seek(&table.words[..LEVELS], keys) {
        Sought::Here(place) => {
            let at = place.level;
            let count = table::inner::subtree_end(&table.words[..LEVELS], place).level - at;
            if room < count {
                return Err(AmlError::OutTooSmall(count));
            }
            Ok(Listing { at, count })
        }
        Sought::Before(_) => Err(AmlError::LevelDoesNotExist(keys.len() - 1)),
        Sought::Missing(p) => Err(AmlError::LevelDoesNotExist(p)),
    }
}

// The levels from the one at a path down, for a list of so many records.
pub fn start(table: &[u64], path: AmlName, room: usize) -> Result<Listing, AmlError>
    ensures { Listable table.now room (levels_call limits table.now path room) result }
{
    let table = Table::of(table)?;
    below(&table, &Keys::settled(&path)?, room)
}

// The word at an index; past the end, 0.
pub fn word(table: &[u64], k: usize) -> u64
    ensures { result ≡ get_or table.now k 0 }
{
    table.get(k).copied().unwrap_or(0)
}

// What a level's word says of it: it says its rank, which is one more than its depth.
pub fn read(w: u64) -> LevelRecord
    ensures { result ≡ word_record w }
{
    let word = LevelWord(w);
    LevelRecord {
        depth: word.rank().saturating_sub(1),
        typ: LevelType::numbered(word.typ()),
        segment: table::segments::bytes(word.segment()),
    }
}

// What the word at an index says of its level; past the end, what 0 would.
pub fn record(table: &[u64], k: usize) -> LevelRecord
    ensures { result ≡ word_record (get_or table.now k 0) }
{
    read(word(table, k))
}
