// A walk over components, left to right, where each `^` takes away the segment before it.
ghost use Rattle.std.specs.Prelude.{◌≡◌, false, ◌++◌, ◌*◌, ◌<◌, ◌≤◌};
ghost use Rattle.pkg_length.specs.Refusal.{said};
ghost use Rattle.name_object.specs.Component.{component_limit};
ghost use Rattle.name_object.specs.Memory.{named, path_of_name};
ghost use Rattle.path.specs.Normal.{normal, absolute, resolved};
ghost use Rattle.path.specs.Inside.{HasSegment, Stepped, Walked};

use crate::inner::Path;
use crate::memory;
use name_object::inner::{component, empty};
use name_object::{AmlName, COMPONENTS, PATH_BYTES, PREFIX_CHAR, ROOT_CHAR};
use pkg_length::AmlError;

// A segment stands last. What stands is segments above a root, so above those in memory there are segments alone.
fn has_segment(out: &[u8; PATH_BYTES], high: usize) -> bool
    ensures { HasSegment component_limit out.now high result }
{
    if high == 0 {
        return false;
    }
    if COMPONENTS < high {
        return true;
    }
    out[4 * (high - 1)] != ROOT_CHAR
}

// One component more, or one less where it is a `^`, which asks for a segment: how many stand then.
fn step(out: &mut [u8; PATH_BYTES], high: usize, four: [u8; 4]) -> Result<usize, AmlError>
    requires { high < 2 * component_limit }
    ensures { Stepped component_limit out.old high four out.new result }
{
    if four[0] != PREFIX_CHAR {
        memory::put(out, high, four);
        return Ok(high + 1);
    }
    if !has_segment(out, high) {
        return Err(AmlError::InvalidNormalizedName);
    }
    memory::put(out, high - 1, [0; 4]);
    Ok(high - 1)
}

// The components of a path, left to right, on `start` that stand.
fn walk(out: &mut [u8; PATH_BYTES], start: usize, path: &Path) -> Result<usize, AmlError>
    requires { start ≤ component_limit }
    ensures { Walked component_limit out.old start path.now.name.now out.new result }
{
    let mut high = start;
    // By index, as `component` has it; bytes and a count, as memory.rt says.
    for i in 0..path.name.count {
        high = step(out, high, component(path.name, i))?;
    }
    Ok(high)
}

impl<'a> Path<'a> {
    // Without prefixes.
    pub fn normal(&self) -> Result<AmlName, AmlError>
        ensures { said result ≡ named component_limit (normal component_limit (path_of_name self.now.name.now)) }
    {
        let mut made = empty();
        made.count = walk(&mut made.bytes, 0, self)?;
        memory::fits(made.count)?;
        Ok(made)
    }

    // A scope and a path that is not absolute, joined: one walk over both.
    fn joined(&self, scope: &Path) -> Result<AmlName, AmlError>
        requires { absolute (path_of_name self.now.name.now) ≡ false }
        ensures { said result ≡ named component_limit (normal component_limit (path_of_name scope.now.name.now ++ path_of_name self.now.name.now)) }
    {
        let mut made = empty();
        let start = walk(&mut made.bytes, 0, scope)?;
        made.count = walk(&mut made.bytes, start, self)?;
        memory::fits(made.count)?;
        Ok(made)
    }

    // Against a scope, which must be absolute. An absolute path is normalised alone.
    pub fn resolved(&self, scope: &Path) -> Result<AmlName, AmlError>
        ensures { said result ≡ named component_limit (resolved component_limit (path_of_name self.now.name.now) (path_of_name scope.now.name.now)) }
    {
        if !scope.is_absolute() {
            return Err(AmlError::NotAbsolute);
        }
        if self.is_absolute() {
            return self.normal();
        }
        self.joined(scope)
    }
}
