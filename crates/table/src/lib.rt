// The table's words: level records, binding words, and the objects' count and values. The layer above makes the calls of them.
#![tactic(auto)]

ghost use Rattle.std.specs.Prelude.{◌≡◌};
ghost use Rattle.table.specs.Limits.{limits};
ghost use Rattle.table.specs.Memory.{is_well_formed};

pub mod inner;
pub mod layout;
pub mod segments;

// Whether the memory holds a table.
pub fn well_formed(table: &[u64]) -> bool
    ensures { result ≡ is_well_formed limits table.now }
{
    table.len() == layout::WORDS
        && inner::parts_fit(
            &table[..layout::LEVELS],
            &table[layout::LEVELS..layout::COUNT_AT],
            &table[layout::COUNT_AT..],
        )
}
