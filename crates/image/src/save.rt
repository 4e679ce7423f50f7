// The image of a table that is well-formed, field by field, each behind those before it.
ghost use Rattle.std.specs.Prelude.{◌≡◌, ◌∷◌, [], map, true, ◌+◌, ◌-◌, ◌*◌, ◌^◌, ◌<◌, ◌≤◌, length, take};
ghost use Rattle.table.specs.Limits.{limits};
ghost use Rattle.table.specs.Layout.{binding_of};
ghost use Rattle.table.specs.Memory.{is_well_formed, decode};
ghost use Rattle.table.specs.Inside.{counts};
ghost use Rattle.image.specs.Bits.{field, spelled};
ghost use Rattle.image.specs.Format.{first_edition, image_bits, image_length};
ghost use Rattle.image.specs.Image.{binding_fields, object_fields};
ghost use Rattle.image.specs.Inside.{ink, used_of, fields_of_word, words_fields, counted_fields, counts_fields, table_fields, Ranked, Ready, Filled, IsInUse};

use crate::layout::{BINDING_BITS, DEPTH_BITS, EDITION, HANDLE_BITS, HEADER_BITS, LEVEL_BITS};
use crate::{Counts, bits, layout, segments};
use table::layout::{BindingWord, COUNT_AT, LEVELS, LevelWord, VALUES_AT};

// The words before the first spare one.
fn used(words: &[u64]) -> &[u64]
    ensures { result.now ≡ take (used_of words.now) words.now }
{
    let n = words.iter().position(|w| *w == 0).unwrap_or(words.len());
    &words[..n]
}

// Edition and counts.
fn header(out: &mut [u8], c: Counts)
    requires { 4 ≤ length out.old }
    ensures { out.new ≡ ink out.old 0 (spelled (counts_fields first_edition c.levels c.bindings c.objects)) }
{
    bits::put(out, 0, 4, EDITION);
    bits::put(out, 4, 8, c.levels as u64);
    bits::put(out, 12, 10, c.bindings as u64);
    bits::put(out, 22, 10, c.objects as u64);
}

// A level: depth, type, segment.
fn level(out: &mut [u8], at: usize, word: u64)
    requires { (at + 41 ≤ 8 * length out.old) × (at < 2 ^ 20) × (2 ^ 45 ≤ word) }
    ensures { out.new ≡ ink out.old at (spelled (fields_of_word first_edition word)) }
{
    let level = LevelWord(word);
    bits::put(out, at, DEPTH_BITS, level.rank() as u64 - 1);
    bits::put(out, at + DEPTH_BITS, 3, level.typ());
    let chars = segments::chars(level.segment());
    bits::put(out, at + DEPTH_BITS + 3, 32, chars);
}

// Levels. This loop, the one over bindings and the one over objects stay three: one for all would take what a word is written as for an argument of its clauses,
// which is longer than the loops.
fn levels(out: &mut [u8], mut at: usize, words: &[u64])
    requires { Ranked words.now × (length words.now < 128) × Ready out.old at (length words.now * 41) }
    ensures { out.new ≡ ink out.old at (spelled (words_fields first_edition words.now)) }
{
    for word in words {
        level(out, at, *word);
        at += LEVEL_BITS;
    }
}

// A binding: segment, handle.
fn binding(out: &mut [u8], at: usize, word: u64)
    requires { (at + 42 ≤ 8 * length out.old) × (at < 2 ^ 20) }
    ensures { out.new ≡ ink out.old at (spelled (binding_fields first_edition (binding_of word ∷ []))) }
{
    let binding = BindingWord(word);
    let chars = segments::chars(binding.segment());
    bits::put(out, at, 32, chars);
    bits::put(out, at + 32, HANDLE_BITS, u64::from(binding.handle()));
}

// Bindings.
fn bindings(out: &mut [u8], mut at: usize, words: &[u64])
    requires { (length words.now < 1024) × Ready out.old at (length words.now * 42) }
    ensures { out.new ≡ ink out.old at (spelled (binding_fields first_edition (map binding_of words.now))) }
{
    for word in words {
        binding(out, at, *word);
        at += BINDING_BITS;
    }
}

// A level's count and bindings.
fn own(out: &mut [u8], at: usize, words: &[u64])
    requires { (length words.now < 1024) × Ready out.old at (10 + length words.now * 42) }
    ensures { out.new ≡ ink out.old at (spelled (field 10 (length words.now) ∷ binding_fields first_edition (map binding_of words.now))) }
{
    bits::put(out, at, 10, words.len() as u64);
    bindings(out, at + 10, words);
}

// Level by level, how many bindings and they.
fn bound(out: &mut [u8], mut at: usize, levels: &[u64], bindings: &[u64])
    requires { (length levels.now ≤ 128) × (counts levels.now ≡ length bindings.now) × (length bindings.now ≤ 512) × Ready out.old at (length levels.now * 10 + length bindings.now * 42) }
    ensures { out.new ≡ ink out.old at (spelled (counted_fields first_edition levels.now (map binding_of bindings.now))) }
{
    let mut left = bindings;
    for word in levels {
        let (first, rest) = left.split_at(LevelWord(*word).count());
        own(out, at, first);
        at += 10 + first.len() * BINDING_BITS;
        left = rest;
    }
}

// The objects' values.
fn objects(out: &mut [u8], mut at: usize, values: &[u64])
    requires { (length values.now ≤ 512) × Ready out.old at (length values.now * 64) }
    ensures { out.new ≡ ink out.old at (spelled (object_fields values.now)) }
{
    for value in values {
        bits::put(out, at, 64, *value);
        at += 64;
    }
}

// The words of a table that are in use: its levels, the root's first, its bindings, and its objects' values.
#[derive(Clone, Copy)]
pub(crate) struct InUse<'a> {
    pub levels: &'a [u64],
    pub bindings: &'a [u64],
    pub objects: &'a [u64],
    ghost filled: { Filled levels.now bindings.now objects.now },
}

impl InUse<'_> {
    pub(crate) fn of(table: &[u64]) -> InUse<'_>
        requires { is_well_formed limits table.now ≡ true }
        ensures { IsInUse (decode limits table.now) result.levels.now result.bindings.now result.objects.now }
    {
        let count = table[COUNT_AT] as usize;
        InUse {
            levels: used(&table[..LEVELS]),
            bindings: used(&table[LEVELS..COUNT_AT]),
            objects: &table[VALUES_AT..VALUES_AT + count],
        }
    }

    // The bytes of their image.
    pub(crate) fn length(&self) -> usize
        ensures { result ≡ image_length first_edition (length self.now.levels.now - 1) (length self.now.bindings.now) (length self.now.objects.now) }
    {
        let place = layout::objects_place(self.levels.len() - 1, self.bindings.len());
        (place + self.objects.len() * 64 + 7) / 8
    }

    // Their image, at the start of `out`.
    pub(crate) fn write(&self, out: &mut [u8])
        requires { image_bits first_edition (length self.now.levels.now - 1) (length self.now.bindings.now) (length self.now.objects.now) ≤ 8 * length out.old }
        ensures { out.new ≡ ink out.old 0 (spelled (table_fields first_edition self.now.levels.now (length self.now.bindings.now) (map binding_of self.now.bindings.now) self.now.objects.now)) }
    {
        let all = self.levels;
        let below = &all[1..];
        let c = Counts {
            levels: below.len(),
            bindings: self.bindings.len(),
            objects: self.objects.len(),
        };
        header(out, c);
        levels(out, HEADER_BITS, below);
        bound(
            out,
            HEADER_BITS + below.len() * LEVEL_BITS,
            all,
            self.bindings,
        );
        let at = layout::objects_place(below.len(), self.bindings.len());
        objects(out, at, self.objects);
    }
}
