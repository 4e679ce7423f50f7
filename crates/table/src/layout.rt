// How much a table holds, and where it stands (specs/Limits.antt, specs/Layout.antt).
ghost use Rattle.std.specs.Prelude.{◌≡◌};
ghost use Rattle.table.specs.Layout.{rank_of, type_of, count_of, seg_of, binding_of};

pub const LEVELS: usize = 128;

pub const BINDINGS: usize = 512;

pub const OBJECTS: usize = 512;

// Components of a name.
pub const COMPONENTS: usize = name_object::COMPONENTS;

// The levels stand first, then the bindings; then how many objects there are, and their values.
pub const LAST_LEVEL: usize = LEVELS - 1;

pub const COUNT_AT: usize = LEVELS + BINDINGS;

pub const LAST_BINDING: usize = COUNT_AT - 1;

pub const VALUES_AT: usize = COUNT_AT + 1;

pub const WORDS: usize = VALUES_AT + OBJECTS;

// A level's word: the weights of its rank, type and count of bindings, its segment being what is left.
pub const RANK: u64 = 0x2000_0000_0000;

pub const TYPE: u64 = 0x400_0000_0000;

pub const COUNT: u64 = 0x1_0000_0000;

pub const COUNTS: u64 = 1024;

// A binding's word: the weight of its segment, the handle being what is left.
pub const SEGMENT: u64 = 0x1_0000_0000;

// Segments are numbers in base 37, from 10 * 37^3 on, since the first character is no digit, below 37^4.
pub const FIRST_SEGMENT: u64 = 506530;

pub const SEGMENTS_END: u64 = 1874161;

// A level's record: its fields in one word.
#[derive(Clone, Copy, Debug, PartialEq, Eq)]
pub struct LevelWord(pub u64);

impl LevelWord {
    // How many components its path has, the root's one.
    pub fn rank(self) -> usize
        ensures { result ≡ rank_of self.0 }
    {
        (self.0 / RANK) as usize
    }

    pub fn typ(self) -> u64
        ensures { result ≡ type_of self.0 }
    {
        self.0 / TYPE % 8
    }

    // How many bindings it has.
    pub fn count(self) -> usize
        ensures { result ≡ count_of self.0 }
    {
        (self.0 / COUNT % COUNTS) as usize
    }

    pub fn segment(self) -> u64
        ensures { result ≡ seg_of self.0 }
    {
        self.0 % SEGMENT
    }
}

// A binding: a segment and the handle that it is bound to, in one word.
#[derive(Clone, Copy, Debug, PartialEq, Eq)]
pub struct BindingWord(pub u64);

impl BindingWord {
    pub fn segment(self) -> u64
        ensures { result ≡ (binding_of self.0).segment }
    {
        self.0 / SEGMENT
    }

    pub fn handle(self) -> u32
        ensures { result ≡ (binding_of self.0).handle }
    {
        (self.0 % SEGMENT) as u32
    }
}
