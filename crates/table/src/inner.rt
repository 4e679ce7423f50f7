// For the layer above alone, over the parts of a table: what each needs is tested there.
// The parts are cut from the lent words at each call, so their lengths are facts of the calls: a type that holds them would be made anew at every cut.
// `path` and `scope` are a name's keys or their front: the type that knows how many there are (`Keys`) stands above, in namespace.
ghost use Rattle.std.specs.Prelude.{◌≡◌, true, false, cond, ◌&&◌, ◌++◌, map, ℕ, ◌+◌, ◌-◌, ◌*◌, ◌^◌, ◌<◌, ◌≤◌, eqb, length, take, drop, get_or, replicate};
ghost use Rattle.name_object.specs.Component.{component_limit};
ghost use Rattle.name_object.specs.Memory.{all_zero};
ghost use Rattle.table.specs.Limits.{limits};
ghost use Rattle.table.specs.Layout.{pack, bind_word, binding_of};
ghost use Rattle.table.specs.Valid.{segment_ok, name_ok};
ghost use Rattle.table.specs.Memory.{is_well_formed, size};
ghost use Rattle.table.specs.Inside.{word_ok, binds_ok, record_ok, scan, lowest, below, parts_ok, seek_in, placed, placed_gone_at, push, counts, place_behind, subtree_of, closed, slot_in, spot_in, bind_words, Rising, BindingsHeld, child_in, Trailed, deepest, value_held, level_held, nearest_of, depth_of, Keyed};

use crate::layout::{
    BindingWord, COMPONENTS, COUNT, COUNT_AT, FIRST_SEGMENT, LEVELS, LevelWord, OBJECTS, RANK,
    SEGMENT, SEGMENTS_END, TYPE,
};
use pkg_length::AmlError;

// A rank for each component, none below them, and one past them.
const RANKS: usize = COMPONENTS + 2;

// The word before every binding's.
const BEFORE: u64 = FIRST_SEGMENT * SEGMENT - 1;

// The word behind every binding's.
const PAST: u64 = SEGMENTS_END * SEGMENT;

// The word of a level with that many components, of a type's number, with that many bindings and of a segment's number. LevelType stands above, in namespace.
// No method, here and below: what asks something of its callers is named by `inner` alone.
#[tactic(auto, unfolding(crate::specs::Layout::pack))]
pub fn packed_level(rank: usize, typ: u64, count: usize, segment: u64) -> LevelWord
    requires { (rank < 2 ^ 19) × (typ < 8) × (count < 1024) × (segment < 2 ^ 32) }
    ensures { result.0 ≡ pack rank typ count segment }
{
    LevelWord(rank as u64 * RANK + typ * TYPE + count as u64 * COUNT + segment)
}

pub fn packed_binding(segment: u64, handle: u32) -> BindingWord
    requires { segment < 2 ^ 32 }
    ensures { result.0 ≡ bind_word (record { segment = segment; handle = handle }) }
{
    BindingWord(segment * SEGMENT + handle as u64)
}

// A number is a segment.
#[tactic(auto, using(std::proofs::lemmas::Bool::Decides::nat_tests), unfolding(crate::specs::Valid::segment_ok))]
fn seg_ok(s: u64) -> bool
    ensures { result ≡ segment_ok s }
{
    FIRST_SEGMENT <= s && s < SEGMENTS_END
}

// The root has no segment and is a Scope; below it, a segment and one of the six types. A type is its number here: LevelType stands above, in namespace.
fn name_fits(rank: usize, seg: u64, typ: u64) -> bool
    ensures { result ≡ name_ok rank seg typ }
{
    if rank == 1 {
        seg == 0 && typ == 0
    } else {
        seg_ok(seg) && typ < 6
    }
}

// The first n bindings are there, rise, and have handles below made. A word is above the one before it with all bits of the handle set,
// so its segment is greater; and as they rise, the last segment alone is tested from above.
fn binds_fit(bindings: &[u64], n: usize, made: u32) -> bool
    ensures { result ≡ binds_ok (below made) n bindings.now }
{
    if bindings.len() < n {
        return false;
    }
    let own = &bindings[..n];
    let mut last = BEFORE;
    for word in own {
        let binding = BindingWord(*word);
        if *word <= last || made <= binding.handle() {
            return false;
        }
        last = binding.segment() * SEGMENT + (SEGMENT - 1);
    }
    last < PAST
}

// Every word is zero. All are looked at, so that many are taken at a time: the bar is the test of memory (docs/SPEED.md), which every call makes.
// path's `is_zero_from` is the same over bytes: a generic one would take the zero and the test of one item as arguments, and be no shorter than the two loops.
fn all_spare(words: &[u64]) -> bool
    ensures { result ≡ all_zero words.now }
{
    let mut seen = 0;
    for word in words {
        seen |= *word;
    }
    seen == 0
}

// The deepest level has no bindings, and none is deeper.
fn deepest_fits(rank: usize, n: usize) -> bool
    ensures { result ≡ eqb rank component_limit && eqb n 0 }
{
    rank == COMPONENTS && n == 0
}

// A record after one of rank p, its bindings being the first of those left; low has the least segment that may come at each rank.
fn record_fits(word: LevelWord, p: usize, low: &[u64; RANKS], bindings: &[u64], made: u32) -> bool
    requires { p ≤ component_limit }
    ensures { result ≡ record_ok component_limit (below made) p low.now word.0 bindings.now }
{
    let rank = word.rank();
    if p + 1 < rank || rank == 0 {
        return false;
    }
    let seg = word.segment();
    if seg < low[rank] || !name_fits(rank, seg, word.typ()) {
        return false;
    }
    if rank < COMPONENTS {
        binds_fit(bindings, word.count(), made)
    } else {
        deepest_fits(rank, word.count())
    }
}

// The records and their bindings, in one pass.
fn scan_levels(levels: &[u64], bindings: &[u64], made: u32) -> bool
    ensures { result ≡ scan component_limit (below made) 0 (lowest component_limit) levels.now bindings.now }
{
    let mut low = [0; RANKS];
    let mut p = 0;
    let mut left = bindings;
    for (k, w) in levels.iter().enumerate() {
        if *w == 0 {
            return all_spare(&levels[k + 1..]) && all_spare(left);
        }
        let word = LevelWord(*w);
        if !record_fits(word, p, &low, left, made) {
            return false;
        }
        p = word.rank();
        low[p] = word.segment() + 1;
        low[p + 1] = 0;
        left = &left[word.count()..];
    }
    all_spare(left)
}

// The table's three parts.
pub fn parts_fit(levels: &[u64], bindings: &[u64], objects: &[u64]) -> bool
    requires { (length levels.now ≡ limits.levels) × (length objects.now ≡ limits.objects + 1) }
    ensures { result ≡ parts_ok limits levels.now bindings.now objects.now }
{
    let made = objects[0];
    if made > OBJECTS as u64 || levels[0] == 0 {
        return false;
    }
    all_spare(&objects[made as usize + 1..]) && scan_levels(levels, bindings, made as u32)
}

// Puts w at index at, and moves what stood from there on up by one, into the first spare word; where there is none, the last word is lost.
pub fn make_room(xs: &mut [u64], at: usize, w: u64)
    requires { at ≤ length xs.old }
    ensures { xs.new ≡ take at xs.old ++ push w (drop at xs.old) }
{
    let mut carried = w;
    for x in xs[at..].iter_mut() {
        let old = *x;
        *x = carried;
        if old == 0 {
            return;
        }
        carried = old;
    }
}

// Takes the words from index at up to, not including, index end out; zeros follow the rest.
pub fn close_gap(xs: &mut [u64], at: usize, end: usize)
    requires { (at ≤ end) × (end ≤ length xs.old) }
    ensures { xs.new ≡ closed at end xs.old }
{
    let kept = xs.len() - (end - at);
    xs.copy_within(end.., at);
    xs[kept..].fill(0);
}

// An index among the levels' words, and one among the bindings' words.
#[derive(Clone, Copy, Debug, PartialEq, Eq)]
pub struct Place {
    pub level: usize,
    pub binding: usize,
}

// Where the words begin.
const START: Place = Place {
    level: 0,
    binding: 0,
};

// Behind a level's record and its bindings.
fn behind(levels: &[u64], place: Place) -> Place
    requires { (place.level < length levels.now) × (length levels.now ≤ limits.levels) × (place.binding ≤ 1023 * place.level) }
    ensures { result ≡ place_behind levels.now place }
{
    Place {
        level: place.level + 1,
        binding: place.binding + LevelWord(levels[place.level]).count(),
    }
}

// Where a path leads: three outcomes, since what is missing is refused by a lookup, and the second is where an edit writes.
#[derive(Clone, Copy, Debug, PartialEq, Eq)]
pub enum Sought {
    // The level's record, and its first binding.
    Here(Place),
    // The level around is there, and the record would stand at this index.
    Before(usize),
    // Segments up to and including the missing one, which is not the last.
    Missing(usize),
}

// No record for the key j of n: the place of what is missing, or of what may come.
fn gone_at(n: usize, j: usize, k: usize) -> Sought
    requires { j < n }
    ensures { result ≡ placed_gone_at n j k }
{
    if j + 1 == n {
        Sought::Before(k)
    } else {
        Sought::Missing(j)
    }
}

// A level's child of that rank and segment, among the records from a place on: its place, or the index where its record would stand. Deeper records
// and smaller segments are passed over. A word's highest field is its rank, so one comparison passes over a deeper record.
fn find_child(levels: &[u64], from: Place, rank: usize, seg: u64) -> Result<Place, usize>
    requires { (length levels.now ≤ limits.levels) × (from.level ≤ length levels.now) × (from.binding ≤ 1023 * from.level) × (rank ≤ component_limit + 1) }
    ensures { result ≡ child_in rank seg (drop from.level levels.now) from.level from.binding }
{
    let low = rank as u64 * RANK;
    let past = low + RANK;
    let mut binding = from.binding;
    // By index: `enumerate().skip` was tried, and the proof did not close: it goes by the index, and the iterator by what it yielded.
    for level in from.level..levels.len() {
        let word = levels[level];
        if word < past {
            if word < low {
                return Err(level);
            }
            let here = LevelWord(word).segment();
            if seg <= here {
                if seg == here {
                    return Ok(Place { level, binding });
                }
                return Err(level);
            }
        }
        binding += LevelWord(word).count();
    }
    Err(levels.len())
}

// Where the path's level stands, or would stand.
pub fn seek(levels: &[u64], path: &[u64]) -> Sought
    requires { (length levels.now ≤ limits.levels) × (length path.now ≤ component_limit) }
    ensures { result ≡ placed levels.now (seek_in path.now levels.now 0 0 0) }
{
    let mut here = START;
    let mut next = START;
    for (j, seg) in path.iter().enumerate() {
        match find_child(levels, next, j + 1, *seg) {
            Ok(child) => {
                here = child;
                next = behind(levels, child);
            }
            Err(k) => return gone_at(path.len(), j, k),
        }
    }
    Sought::Here(here)
}

// Behind the records of a level and of those below it, and behind their bindings.
pub fn subtree_end(levels: &[u64], place: Place) -> Place
    requires { (place.level < length levels.now) × (length levels.now ≤ limits.levels) × (place.binding ≡ counts (take place.level levels.now)) }
    ensures { result ≡ subtree_of levels.now place.level }
{
    let rank = LevelWord(levels[place.level]).rank();
    let mut binding = place.binding + LevelWord(levels[place.level]).count();
    // By index, as in find_child.
    for level in place.level + 1..levels.len() {
        let word = LevelWord(levels[level]);
        if word.rank() <= rank {
            return Place { level, binding };
        }
        binding += word.count();
    }
    Place {
        level: levels.len(),
        binding,
    }
}

// A segment among the n bindings from an index on, which rise, by halves: its handle, or the index where its word would stand.
fn find_slot(bindings: &[u64], from: usize, n: usize, seg: u64) -> Result<u32, usize>
    requires { (from + n ≤ length bindings.now) × Rising bindings.now from n }
    ensures { result ≡ slot_in seg (map binding_of (take n (drop from bindings.now))) from }
{
    let own = &bindings[from..from + n];
    match own.binary_search_by_key(&seg, |word| BindingWord(*word).segment()) {
        Ok(i) => Ok(BindingWord(own[i]).handle()),
        Err(i) => Err(from + i),
    }
}

// A path's last segment among its level's bindings: a lookup wants the first, an edit the second, and neither is a refusal.
#[derive(Clone, Copy, Debug, PartialEq, Eq)]
pub enum Spot {
    // Its handle.
    Bound(u32),
    // Its level's record, and where its word would stand.
    Free(Place),
}

fn find_spot_in(levels: &[u64], bindings: &[u64], path: &[u64]) -> Result<Spot, AmlError>
    requires { (length levels.now ≡ limits.levels) × (1 < length path.now) × (length path.now ≤ component_limit) × BindingsHeld levels.now bindings.now }
    ensures { result ≡ spot_in levels.now bindings.now path.now }
{
    let n = path.len() - 1;
    match seek(levels, &path[..n]) {
        Sought::Here(place) => {
            let count = LevelWord(levels[place.level]).count();
            match find_slot(bindings, place.binding, count, path[n]) {
                Ok(handle) => Ok(Spot::Bound(handle)),
                Err(binding) => Ok(Spot::Free(Place {
                    level: place.level,
                    binding,
                })),
            }
        }
        Sought::Before(_) => Err(AmlError::LevelDoesNotExist(n - 1)),
        Sought::Missing(p) => Err(AmlError::LevelDoesNotExist(p)),
    }
}

// Where a path's last segment is bound, or would be.
pub fn find_spot(table: &[u64], path: &[u64]) -> Result<Spot, AmlError>
    requires { (is_well_formed limits table.now ≡ true) × Keyed component_limit path.now }
    ensures { result ≡ spot_in (take limits.levels table.now) (take limits.bindings (drop limits.levels table.now)) path.now }
{
    if path.len() <= 1 {
        return Err(AmlError::RootNotAllowed);
    }
    find_spot_in(&table[..LEVELS], &table[LEVELS..COUNT_AT], path)
}

// One binding more: its level counts it, and its word goes to a place of the bindings.
pub fn bind(table: &mut [u64], place: Place, word: u64)
    requires { (length table.old ≡ size limits) × (place.level < limits.levels) × (place.binding ≤ limits.bindings) × (get_or table.old place.level 0 + 2 ^ 32 < 2 ^ 64) }
    ensures { table.new ≡ bind_words limits table.old place.level place.binding word }
{
    table[place.level] += COUNT;
    make_room(&mut table[LEVELS..COUNT_AT], place.binding, word);
}

// The innermost scope that holds a segment: how many components it has, and the handle.
#[derive(Clone, Copy, Debug, PartialEq, Eq)]
pub struct Nearest {
    pub depth: usize,
    pub handle: u32,
}

// Down the scope's levels, from the root on, as far as they are there: how many they are, and the place of each, in an array, since memory is fixed.
fn trail(levels: &[u64], scope: &[u64], places: &mut [Place; COMPONENTS]) -> usize
    requires { (length levels.now ≤ limits.levels) × (length scope.now ≤ component_limit) }
    ensures { Trailed levels.now scope.now places.new result }
{
    let mut next = START;
    for (j, seg) in scope.iter().enumerate() {
        match find_child(levels, next, j + 1, *seg) {
            Ok(child) => {
                places[j] = child;
                next = behind(levels, child);
            }
            Err(_) => return j,
        }
    }
    scope.len()
}

// The scope is asked, and then each around it, by the levels that are there.
pub fn nearest_value(levels: &[u64], bindings: &[u64], scope: &[u64], seg: u64) -> Option<Nearest>
    requires { (length levels.now ≤ limits.levels) × (length scope.now ≤ component_limit) × BindingsHeld levels.now bindings.now }
    ensures { result ≡ nearest_of (deepest (value_held levels.now bindings.now scope.now seg) (length scope.now)) }
{
    let mut places = [START; COMPONENTS];
    let there = trail(levels, scope, &mut places);
    // By index: `enumerate().rev()` over the places was tried, and the proof did not close: it goes by the index, and
    // the iterator by what it yielded.
    for i in (0..there).rev() {
        let place = places[i];
        let count = LevelWord(levels[place.level]).count();
        if let Ok(handle) = find_slot(bindings, place.binding, count, seg) {
            let depth = i + 1;
            return Some(Nearest { depth, handle });
        }
    }
    None
}

// The same over levels: how many components the innermost scope has that holds one of that segment. What is asked needs other facts than above, and the
// contract of a walk that takes it as a closure would be longer than the walk.
pub fn nearest_level(levels: &[u64], scope: &[u64], seg: u64) -> Option<usize>
    requires { (length levels.now ≤ limits.levels) × (length scope.now ≤ component_limit) }
    ensures { result ≡ depth_of (deepest (level_held levels.now scope.now seg) (length scope.now)) }
{
    let mut places = [START; COMPONENTS];
    let there = trail(levels, scope, &mut places);
    // By index, as in nearest_value.
    for i in (0..there).rev() {
        let depth = i + 1;
        let next = Place {
            level: places[i].level + 1,
            binding: 0,
        };
        if find_child(levels, next, depth + 1, seg).is_ok() {
            return Some(depth);
        }
    }
    None
}
