// An image's checks, from left to right: the first that does not hold is the answer, and nothing is written.
// `Counts` is public and holds any numbers: its bounds, which the header's checks find, are facts of the calls, and so is a place's bound, which follows from them.
ghost use Rattle.std.specs.Prelude.{◌≡◌, cond, ◌+◌, ◌*◌, ◌^◌, ◌<◌, ◌≤◌, leb, length};
ghost use Rattle.pkg_length.specs.Refusal.{gives, refuses, said, and_then};
ghost use Rattle.table.specs.Limits.{limits};
ghost use Rattle.image.specs.Bits.{bits_in, number_at};
ghost use Rattle.image.specs.Format.{first_edition, header_bits, bindings_place, objects_place};
ghost use Rattle.image.specs.Reader.{first, header_checks, is_depth_ok, depth_at, chars_at, segment_number, segment_checks, level_checks, levels_checks, root_seen, count_at, binding_checks, bindings_checks, count_checks, own_checks, bound_checks, object_checks, end_checks, rest_checks, body_checks, image_checks};
ghost use Rattle.image.specs.Calls.{counts_in};

use crate::layout::{
    BINDING_BITS, DEEPEST, DEPTH_BITS, DEPTHS, EDITION, HANDLE_BITS, HEADER_BITS, LEVEL_BITS,
};
use crate::{Counts, bits, layout, segments};
use pkg_length::AmlError;
use table::layout::{BINDINGS, LEVELS, OBJECTS};

// A level's depth and segment.
#[derive(Clone, Copy)]
struct Seen {
    pub depth: usize,
    pub segment: u64,
}

// That the image does not end before this field does.
fn there(bytes: &[u8], at: usize, width: usize) -> Result<(), AmlError>
    requires { (at < 2 ^ 32) × (width ≤ 64) }
    ensures { said result ≡ cond (leb (at + width) (length (bits_in bytes.now))) (gives tt) (refuses 32 at) }
{
    if bytes.len() < (at + width + 7) / 8 {
        return Err(AmlError::ImageEndedEarly(at));
    }
    Ok(())
}

// The number in a field, which has to be there.
fn need(bytes: &[u8], at: usize, width: usize) -> Result<u64, AmlError>
    requires { (at < 2 ^ 32) × (width ≤ 64) }
    ensures { said result ≡ cond (leb (at + width) (length (bits_in bytes.now))) (gives (number_at (bits_in bytes.now) width at)) (refuses 32 at) }
{
    there(bytes, at, width)?;
    Ok(bits::field(bytes, at, width))
}

// One of the header's counts, of which the tables hold no more than this.
fn counted(bytes: &[u8], at: usize, width: usize, most: usize) -> Result<usize, AmlError>
    requires { (at < 2 ^ 32) × (width ≤ 64) }
    ensures { said result ≡ cond (leb (at + width) (length (bits_in bytes.now))) (cond (leb (number_at (bits_in bytes.now) width at) most) (gives (number_at (bits_in bytes.now) width at)) (refuses 34 at)) (refuses 32 at) }
{
    let n = need(bytes, at, width)? as usize;
    if most < n {
        return Err(AmlError::ImageCount(at));
    }
    Ok(n)
}

// Edition and counts.
#[tactic(auto, unfolding(crate::specs::Reader::first, crate::specs::Reader::header_checks))]
fn header(bytes: &[u8]) -> Result<Counts, AmlError>
    ensures { said result ≡ and_then (first (header_checks first_edition limits (bits_in bytes.now))) (λ _. gives (counts_in bytes.now)) }
{
    let edition = need(bytes, 0, 4)?;
    if edition != EDITION {
        return Err(AmlError::ImageEdition(0));
    }
    let levels = counted(bytes, 4, 8, LEVELS - 1)?;
    let bindings = counted(bytes, 12, 10, BINDINGS)?;
    let objects = counted(bytes, 22, 10, OBJECTS)?;
    Ok(Counts {
        levels,
        bindings,
        objects,
    })
}

// Not 0, not over the limit, no more than one below the record before.
fn depth_ok(before: usize, depth: usize) -> bool
    requires { before < 2 ^ 32 }
    ensures { result ≡ is_depth_ok first_edition before depth }
{
    0 < depth && depth <= DEEPEST && depth <= before + 1
}

// A level's record behind one of this depth; low has the least segment that may come at each depth.
#[tactic(auto, unfolding(crate::specs::Reader::first, crate::specs::Reader::level_checks, crate::specs::Reader::named_checks))]
fn level(bytes: &[u8], at: usize, before: usize, low: &[u64; DEPTHS]) -> Result<Seen, AmlError>
    requires { (at < 2 ^ 20) × (before < 2 ^ 32) }
    ensures { said result ≡ and_then (first (level_checks first_edition (bits_in bytes.now) at before low.now)) (λ _. gives (record { depth = depth_at first_edition (bits_in bytes.now) at; segment = segment_number (chars_at first_edition (bits_in bytes.now) at) })) }
{
    let depth = need(bytes, at, DEPTH_BITS)? as usize;
    if !depth_ok(before, depth) {
        return Err(AmlError::ImageDepth(at));
    }
    let typ_at = at + DEPTH_BITS;
    let typ = need(bytes, typ_at, 3)?;
    // A type is its number here, as in table's words, which hold no LevelType.
    if 6 <= typ {
        return Err(AmlError::ImageType(typ_at));
    }
    let segment = segment(bytes, typ_at + 3, low[depth])?;
    Ok(Seen { depth, segment })
}

// A segment from `lo` on.
#[tactic(auto, unfolding(crate::specs::Reader::first, crate::specs::Reader::segment_checks))]
fn segment(bytes: &[u8], at: usize, lo: u64) -> Result<u64, AmlError>
    requires { at < 2 ^ 21 }
    ensures { said result ≡ and_then (first (segment_checks (bits_in bytes.now) at lo)) (λ _. gives (segment_number (number_at (bits_in bytes.now) 32 at))) }
{
    let chars = need(bytes, at, 32)?;
    if !segments::chars_ok(chars) {
        return Err(AmlError::ImageSegment(at));
    }
    let s = segments::number(chars);
    if s < lo {
        return Err(AmlError::ImageOrder(at));
    }
    Ok(s)
}

// The levels: siblings rise, so each leaves the least segment that may come at its depth, and any may come below it.
fn levels(bytes: &[u8], n: usize) -> Result<(), AmlError>
    requires { n < 128 }
    ensures { said result ≡ first (levels_checks first_edition (bits_in bytes.now) n header_bits 0 (root_seen first_edition)) }
{
    let mut low = [0u64; DEPTHS];
    low[0] = 1;
    let mut before = 0;
    for k in 0..n {
        let l = level(bytes, HEADER_BITS + k * LEVEL_BITS, before, &low)?;
        before = l.depth;
        low[before] = l.segment + 1;
        low[before + 1] = 0;
    }
    Ok(())
}

// A binding: its segment, and a handle below `made`.
fn binding(bytes: &[u8], at: usize, lo: u64, made: u64) -> Result<u64, AmlError>
    requires { at < 2 ^ 20 }
    ensures { said result ≡ and_then (first (binding_checks first_edition (bits_in bytes.now) made at lo)) (λ _. gives (segment_number (number_at (bits_in bytes.now) 32 at))) }
{
    let s = segment(bytes, at, lo)?;
    let handle = need(bytes, at + 32, HANDLE_BITS)?;
    if made <= handle {
        return Err(AmlError::ImageHandle(at + 32));
    }
    Ok(s)
}

// A level's bindings.
fn bindings(bytes: &[u8], at: usize, n: usize, made: u64) -> Result<(), AmlError>
    requires { (at < 2 ^ 17) × (n < 1024) }
    ensures { said result ≡ first (bindings_checks first_edition (bits_in bytes.now) made n at 0) }
{
    let mut lo = 0;
    for k in 0..n {
        let s = binding(bytes, at + k * BINDING_BITS, lo, made)?;
        lo = s + 1;
    }
    Ok(())
}

// A level's binding count, of which `rest` are left.
#[tactic(auto, unfolding(crate::specs::Reader::first, crate::specs::Reader::count_checks))]
fn count(bytes: &[u8], at: usize, depth: usize, rest: u64, last: bool) -> Result<u64, AmlError>
    requires { at < 2 ^ 20 }
    ensures { said result ≡ and_then (first (count_checks first_edition (bits_in bytes.now) last at depth rest)) (λ _. gives (count_at (bits_in bytes.now) at)) }
{
    let n = need(bytes, at, 10)?;
    if depth == DEEPEST && n != 0 {
        return Err(AmlError::ImageDeepBindings(at));
    }
    if rest < n {
        return Err(AmlError::ImageBindingsOver(at));
    }
    if last && n < rest {
        return Err(AmlError::ImageBindingsShort(at));
    }
    Ok(n)
}

// A level's count and bindings.
fn own(
    bytes: &[u8],
    at: usize,
    depth: usize,
    rest: u64,
    last: bool,
    made: u64,
) -> Result<u64, AmlError>
    requires { at < 2 ^ 16 }
    ensures { said result ≡ and_then (first (own_checks first_edition (bits_in bytes.now) made last at depth rest)) (λ _. gives (count_at (bits_in bytes.now) at)) }
{
    let n = count(bytes, at, depth, rest, last)?;
    bindings(bytes, at + 10, n as usize, made)?;
    Ok(n)
}

// The bindings of every level, the root first; the depth of each other level stands in its record.
fn bound(bytes: &[u8], n: usize, total: u64, made: u64) -> Result<(), AmlError>
    requires { (n < 128) × (total ≤ 512) × (header_bits + n * 41 ≤ 8 * length bytes.now) }
    ensures { said result ≡ first (bound_checks first_edition (bits_in bytes.now) made n header_bits (bindings_place first_edition n) 0 total) }
{
    let mut at = HEADER_BITS + n * LEVEL_BITS;
    let mut depth = 0;
    let mut rest = total;
    for k in 0..n {
        let m = own(bytes, at, depth, rest, false, made)?;
        rest -= m;
        at += 10 + m as usize * BINDING_BITS;
        depth = bits::field(bytes, HEADER_BITS + k * LEVEL_BITS, DEPTH_BITS) as usize;
    }
    own(bytes, at, depth, rest, true, made)?;
    Ok(())
}

// The objects are there.
fn objects(bytes: &[u8], at: usize, n: usize) -> Result<(), AmlError>
    requires { (at < 2 ^ 20) × (n < 1024) }
    ensures { said result ≡ first (object_checks (bits_in bytes.now) n at) }
{
    for k in 0..n {
        there(bytes, at + k * 64, 64)?;
    }
    Ok(())
}

// The spare bits are zero, and no byte follows.
#[tactic(auto, unfolding(crate::specs::Reader::first, crate::specs::Reader::end_checks))]
fn end(bytes: &[u8], at: usize) -> Result<(), AmlError>
    requires { (at < 2 ^ 20) × (at ≤ 8 * length bytes.now) }
    ensures { said result ≡ first (end_checks (bits_in bytes.now) at) }
{
    let used = (at + 7) / 8;
    if bits::field(bytes, at, 8 * used - at) != 0 {
        return Err(AmlError::ImageSpareBits(at));
    }
    if used < bytes.len() {
        return Err(AmlError::ImageBytesLeft(8 * used));
    }
    Ok(())
}

// All of it.
pub(crate) fn image(bytes: &[u8]) -> Result<Counts, AmlError>
    ensures { said result ≡ and_then (first (image_checks first_edition limits (bits_in bytes.now))) (λ _. gives (counts_in bytes.now)) }
{
    let c = header(bytes)?;
    body(bytes, c)?;
    Ok(c)
}

// What follows the header.
fn body(bytes: &[u8], c: Counts) -> Result<(), AmlError>
    requires { (c.levels < 128) × (c.bindings ≤ 512) × (c.objects ≤ 512) × (header_bits ≤ 8 * length bytes.now) }
    ensures { said result ≡ first (body_checks first_edition (bits_in bytes.now) c.levels c.bindings c.objects) }
{
    levels(bytes, c.levels)?;
    bound(bytes, c.levels, c.bindings as u64, c.objects as u64)?;
    rest(bytes, c)
}

// What follows the bindings.
fn rest(bytes: &[u8], c: Counts) -> Result<(), AmlError>
    requires { (c.levels < 128) × (c.bindings ≤ 512) × (c.objects ≤ 512) × (objects_place first_edition c.levels c.bindings ≤ 8 * length bytes.now) }
    ensures { said result ≡ first (rest_checks first_edition (bits_in bytes.now) c.levels c.bindings c.objects) }
{
    let at = layout::objects_place(c.levels, c.bindings);
    objects(bytes, at, c.objects)?;
    end(bytes, at + c.objects * 64)
}
