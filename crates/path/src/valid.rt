// The tests of a path, over memory of any kind.
ghost use Rattle.std.specs.Prelude.{◌≡◌, ◌*◌, ◌≤◌, true, drop, slice_index};
ghost use Rattle.name_object.specs.Component.{is_seg_ok, component_limit};
ghost use Rattle.name_object.specs.Memory.{all_zero, kind_ok, path_ok, path_of_name};
ghost use Rattle.path.specs.Normal.{top};

use name_object::inner::component;
use name_object::{AmlName, COMPONENTS, PATH_BYTES, PREFIX_CHAR, ROOT_CHAR};
use pkg_length::AmlError;

// Four bytes are a segment: a lead, then three of lead or digit.
#[tactic(auto, unfolding(name_object::specs::Component::is_seg_ok))]
pub(crate) fn is_segment(four: [u8; 4]) -> bool
    ensures { result ≡ is_seg_ok (slice_index four 0) (slice_index four 1) (slice_index four 2) (slice_index four 3) }
{
    name_object::is_lead_name_char(four[0])
        & name_object::is_name_char(four[1])
        & name_object::is_name_char(four[2])
        & name_object::is_name_char(four[3])
}

// Four bytes are a component; the root only where it may stand.
#[tactic(auto, unfolding(name_object::specs::Memory::kind_ok, name_object::specs::Memory::bare))]
fn is_component(first: bool, four: [u8; 4]) -> bool
    ensures { result ≡ kind_ok first (slice_index four 0) (slice_index four 1) (slice_index four 2) (slice_index four 3) }
{
    let bare = (four[1] == 0) & (four[2] == 0) & (four[3] == 0);
    match four[0] {
        ROOT_CHAR => first & bare,
        PREFIX_CHAR => bare,
        _ => is_segment(four),
    }
}

// Every byte from an offset on is zero. All are looked at, so that many are taken at a time: every call makes this test of 26, twice in docs/SPEED.md's row
// `resolve against a scope`, and `all` would stop at a byte.
fn is_zero_from(bytes: &[u8; PATH_BYTES], from: usize) -> bool
    requires { from ≤ 4 * component_limit }
    ensures { result ≡ all_zero (drop from bytes.now) }
{
    let mut clean = true;
    for byte in &bytes[from..] {
        clean = clean & (*byte == 0);
    }
    clean
}

// The test of 26.
pub(crate) fn holds_path(name: &AmlName) -> bool
    ensures { result ≡ path_ok component_limit name.now }
{
    if COMPONENTS < name.count {
        return false;
    }
    // By index, as `component` has it.
    for i in 0..name.count {
        if !is_component(i == 0, component(name, i)) {
            return false;
        }
    }
    is_zero_from(&name.bytes, 4 * name.count)
}

// Nothing, or the root alone.
pub(crate) fn is_top(name: &AmlName) -> bool
    ensures { result ≡ top (path_of_name name.now) }
{
    (name.count == 0) | ((name.count == 1) & (name.bytes[0] == ROOT_CHAR))
}
