// The words of an image that was tested, put into a table. The level records and the counts of bindings stand apart, so two places walk along.
// `Counts` is public and holds any numbers: its bounds, which the header's checks found, are facts of the calls, and so is a place's bound, which follows from them.
ghost use Rattle.std.specs.Prelude.{◌≡◌, ℕ, ◌++◌, map, suc, ◌+◌, ◌*◌, ◌^◌, ◌<◌, ◌≤◌, length, take, drop, slice_index};
ghost use Rattle.table.specs.Limits.{limits};
ghost use Rattle.table.specs.Memory.{size};
ghost use Rattle.table.specs.Layout.{pack, bind_word};
ghost use Rattle.image.specs.Bits.{bits_in, number_at};
ghost use Rattle.image.specs.Format.{first_edition, header_bits, bindings_place};
ghost use Rattle.image.specs.Reader.{depth_at, type_at, chars_at, segment_number, handle_at, all_words};
ghost use Rattle.image.specs.Inside.{Walk, all_bound, Accepted, loaded};

use crate::layout::{BINDING_BITS, DEPTH_BITS, HANDLE_BITS, HEADER_BITS, LEVEL_BITS};
use crate::{Counts, bits, layout, segments};
use table::layout::{COUNT_AT, LEVELS, VALUES_AT};

// A level's word, of a record and a count of bindings.
fn level_word(bytes: &[u8], at: usize, count: usize) -> u64
    requires { (at + 41 ≤ 8 * length bytes.now) × (at < 2 ^ 20) × (count < 1024) }
    ensures { result ≡ pack (suc (depth_at first_edition (bits_in bytes.now) at)) (type_at first_edition (bits_in bytes.now) at) count (segment_number (chars_at first_edition (bits_in bytes.now) at)) }
{
    let depth = bits::field(bytes, at, DEPTH_BITS) as usize;
    let typ = bits::field(bytes, at + DEPTH_BITS, 3);
    let chars = bits::field(bytes, at + DEPTH_BITS + 3, 32);
    let segment = segments::number(chars);
    table::inner::packed_level(depth + 1, typ, count, segment).0
}

// The levels' words, the root's first.
fn levels(bytes: &[u8], words: &mut [u64], n: usize)
    requires { (n < length words.old) × (n < 128) × (header_bits + n * 41 ≤ 8 * length bytes.now) × (length bytes.now < 2 ^ 16) × ((total : ℕ) × Walk first_edition (bits_in bytes.now) (suc n) (bindings_place first_edition n) total) }
    ensures { words.new ≡ all_words first_edition (bits_in bytes.now) n ++ drop (suc n) words.old }
{
    let root = HEADER_BITS + n * LEVEL_BITS;
    let own = bits::field(bytes, root, 10) as usize;
    words[0] = table::inner::packed_level(1, 0, own, 0).0;
    let mut at = root + 10 + own * BINDING_BITS;
    for k in 0..n {
        let count = bits::field(bytes, at, 10) as usize;
        // By index: the record's place is worked out from k too.
        words[k + 1] = level_word(bytes, HEADER_BITS + k * LEVEL_BITS, count);
        at = at + 10 + count * BINDING_BITS;
    }
}

// A binding's word.
fn binding_word(bytes: &[u8], at: usize) -> u64
    requires { (at + 42 ≤ 8 * length bytes.now) × (at < 2 ^ 20) }
    ensures { result ≡ bind_word (record { segment = segment_number (number_at (bits_in bytes.now) 32 at); handle = handle_at first_edition (bits_in bytes.now) at }) }
{
    let chars = bits::field(bytes, at, 32);
    let handle = bits::field(bytes, at + 32, HANDLE_BITS);
    let segment = segments::number(chars);
    table::inner::packed_binding(segment, handle as u32).0
}

// The words of things that stand one behind the other in an image, each so many bits wide.
fn each<F: Fn(usize) -> u64>(words: &mut [u64], mut at: usize, width: usize, word: F)
    requires { (width < 2 ^ 32) × ((k : ℕ) → k < length words.old → F.pre word (at + k * width) × (at + k * width < 2 ^ 32)) }
    ensures { (k : ℕ) → k < length words.old → F.post word (at + k * width) (slice_index words.new k) }
{
    for w in words.iter_mut() {
        *w = word(at);
        at += width;
    }
}

// All bindings, level by level, behind the levels' words.
fn bindings(bytes: &[u8], words: &mut [u64], n: usize)
    requires { (128 + length (all_bound (bits_in bytes.now) n) ≤ length words.old) × (length (all_bound (bits_in bytes.now) n) ≤ 512) × (n < 128) × (length bytes.now < 2 ^ 16) × Walk first_edition (bits_in bytes.now) (suc n) (bindings_place first_edition n) (length (all_bound (bits_in bytes.now) n)) }
    ensures { words.new ≡ take 128 words.old ++ (map bind_word (all_bound (bits_in bytes.now) n) ++ drop (128 + length (all_bound (bits_in bytes.now) n)) words.old) }
{
    let mut at = HEADER_BITS + n * LEVEL_BITS;
    let mut m = LEVELS;
    for k in 0..n + 1 {
        let count = bits::field(bytes, at, 10) as usize;
        let own = &mut words[m..m + count];
        each(
            own,
            at + 10,
            BINDING_BITS,
            |place|
                requires { (place + 42 ≤ 8 * length bytes.now) × (place < 2 ^ 20) }
                ensures { result ≡ bind_word (record { segment = segment_number (number_at (bits_in bytes.entry.now) 32 place); handle = handle_at first_edition (bits_in bytes.entry.now) place }) }
            { binding_word(bytes, place) },
        );
        m += count;
        at = at + 10 + count * BINDING_BITS;
    }
}

// The whole table.
pub(crate) fn fill(bytes: &[u8], table: &mut [u64], c: Counts)
    requires { Accepted bytes.now c × (length table.old ≡ size limits) }
    ensures { table.new ≡ loaded first_edition limits (bits_in bytes.now) }
{
    table.fill(0);
    levels(bytes, table, c.levels);
    bindings(bytes, table, c.levels);
    table[COUNT_AT] = c.objects as u64;
    let at = layout::objects_place(c.levels, c.bindings);
    let objects = &mut table[VALUES_AT..VALUES_AT + c.objects];
    each(
        objects,
        at,
        64,
        |place|
            requires { (place + 64 ≤ 8 * length bytes.now) × (place < 2 ^ 20) }
            ensures { result ≡ number_at (bits_in bytes.entry.now) 64 place }
        { bits::field(bytes, place, 64) },
    );
}
