// The first edition's fields (specs/Format.antt).
ghost use Rattle.std.specs.Prelude.{◌≡◌, ◌<◌, ◌≤◌};
ghost use Rattle.image.specs.Format.{first_edition, objects_place as place_of_objects};

pub(crate) const EDITION: u64 = 1;

pub(crate) const DEPTH_BITS: usize = 6;

pub(crate) const HANDLE_BITS: usize = 10;

// The deepest levels hold no bindings: a name has one component more than its level.
pub(crate) const DEEPEST: usize = table::layout::COMPONENTS - 1;

// A depth for each level, the root's 0, and one past them.
pub(crate) const DEPTHS: usize = DEEPEST + 2;

pub(crate) const HEADER_BITS: usize = 32;

// Depth, type and segment.
pub(crate) const LEVEL_BITS: usize = DEPTH_BITS + 35;

// Segment and handle.
pub(crate) const BINDING_BITS: usize = 32 + HANDLE_BITS;

// Where the objects begin, behind so many levels below the root and all bindings. Both counts are bounded here and not in `Counts`, which is public and holds any
// numbers.
pub(crate) fn objects_place(levels: usize, bindings: usize) -> usize
    requires { (levels < 128) × (bindings ≤ 512) }
    ensures { result ≡ place_of_objects first_edition levels bindings }
{
    HEADER_BITS + levels * LEVEL_BITS + (levels + 1) * 10 + bindings * BINDING_BITS
}
