// The list of levels, a word for each.
ghost use Rattle.std.specs.Prelude.{◌≡◌, ◌++◌, map, ◌≤◌, length, drop};
ghost use Rattle.pkg_length.specs.Refusal.{said};
ghost use Rattle.pkg_length.specs.Wrote.{wrote};
ghost use Rattle.table.specs.Limits.{limits};
ghost use Rattle.namespace.specs.Levels.{levels_call};
ghost use Rattle.namespace.specs.Listing.{word_record};
ghost use Rattle.klem_c.specs.Levels.{packed_level, packed_levels, klem_levels_after};

use crate::{reply, slices};
use name_object::AmlName;
use namespace::listing;
use pkg_length::AmlError;

// What a level's word says of it, as klem.h packs it.
fn packed(w: u64) -> u64
    ensures { result ≡ packed_level (word_record w) }
{
    let level = listing::read(w);
    let typ = u64::from(level.typ);
    let segment = u32::from_le_bytes(level.segment) as u64;
    level.depth as u64 * 0x100_0000_0000 + typ * 0x1_0000_0000 + segment
}

// The levels that stand in the words.
fn fill(words: &[u64], list: &mut [u64])
    requires { length words.now ≤ length list.old }
    ensures { list.new ≡ map packed_level (map word_record words.now) ++ drop (length words.now) list.old }
{
    // By index: of what a `zip` of `iter_mut` writes, the proof knows nothing behind the loop.
    for (i, word) in words.iter().enumerate() {
        list[i] = packed(*word);
    }
}

// As `namespace::levels`, with a word in place of each record: a list of records has no place in what C lends.
fn listed(table: &[u64], path: AmlName, list: &mut [u64]) -> Result<usize, AmlError>
    ensures { record { out = list.new; said = said result } ≡ wrote list.old (packed_levels (levels_call limits table.now path (length list.old))) }
{
    let found = listing::start(table, path, list.len())?;
    fill(&table[found.at..found.at + found.count], list);
    Ok(found.count)
}

#[unsafe(no_mangle)]
pub extern "C" fn klem_levels(table: &[u64], path: &[u8], list: &mut [u64], res: &mut [u64]) -> u64
    ensures { record { number = result; result = res.new; lent = list.new } ≡ klem_levels_after table.now path.now list.old res.old }
{
    let (Some(res), Some(path)) = (res.as_mut_array(), slices::path_in(path)) else {
        return slices::BAD_SLICE;
    };
    reply::tell(res, listed(table, path, list))
}
