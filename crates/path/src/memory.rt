// A path in the making: bytes, and a count beside them. The first components are kept, as many as a path may have; those above them are only counted.
// So a join may pass through more components on its way, and a text is read to its end before 9 is judged.
// Bytes and count are no struct: tried, the count then lies in memory behind an array that is indexed, and to resolve a path takes 7 in 100 instructions
// more, for which docs/SPEED.md's row `resolve against a scope` has no room.
ghost use Rattle.std.specs.Prelude.{◌≡◌, ◌<◌};
ghost use Rattle.name_object.specs.Component.{component_limit};
ghost use Rattle.path.specs.Inside.{placed, placed_char, Limits};

use name_object::{COMPONENTS, PATH_BYTES, inner};
use pkg_length::AmlError;

// Component k, where there is room for it.
#[tactic(auto, unfolding(crate::specs::Inside::placed))]
pub(crate) fn put(out: &mut [u8; PATH_BYTES], k: usize, four: [u8; 4])
    ensures { out.new ≡ placed component_limit out.old k four }
{
    if k < COMPONENTS {
        inner::put(out, k, four);
    }
}

// Byte j of component k.
#[tactic(auto, unfolding(crate::specs::Inside::placed_char))]
pub(crate) fn put_char(out: &mut [u8; PATH_BYTES], k: usize, j: usize, b: u8)
    requires { j < 4 }
    ensures { out.new ≡ placed_char component_limit out.old k j b }
{
    if k < COMPONENTS {
        out[4 * k + j] = b;
    }
}

// So many components are a path.
pub(crate) fn fits(count: usize) -> Result<(), AmlError>
    ensures { Limits component_limit count result }
{
    if COMPONENTS < count {
        return Err(AmlError::TooManyComponents);
    }
    Ok(())
}
