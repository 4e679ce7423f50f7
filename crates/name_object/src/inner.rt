// For the layers above alone: what each needs is tested there.
ghost use Rattle.std.specs.Prelude.{◌≡◌, [], ◌∷◌, ◌+◌, ◌*◌, ◌<◌, ◌≤◌, slice_index};
ghost use Rattle.name_object.specs.Component.{component_limit};
ghost use Rattle.name_object.specs.Memory.{name_of, put4, pushed, popped};

use crate::{AmlName, PATH_BYTES};

// The empty path, all zeros: what every path begins as.
#[tactic(auto, unfolding(crate::specs::Memory::name_of, crate::specs::Memory::zeros, crate::specs::Component::spell))]
pub fn empty() -> AmlName
    ensures { result ≡ name_of component_limit [] }
{
    AmlName {
        count: 0,
        bytes: [0; PATH_BYTES],
    }
}

// Component k. Here and above, components are taken by index and no slice of them is made: this clause speaks of the four bytes from 4 * k on.
pub fn component(name: &AmlName, k: usize) -> [u8; 4]
    requires { k < component_limit }
    ensures { result ≡ slice_index name.now.bytes (4 * k) ∷ slice_index name.now.bytes (4 * k + 1) ∷ slice_index name.now.bytes (4 * k + 2) ∷ slice_index name.now.bytes (4 * k + 3) ∷ [] }
{
    let at = 4 * k;
    [
        name.bytes[at],
        name.bytes[at + 1],
        name.bytes[at + 2],
        name.bytes[at + 3],
    ]
}

// Component k takes these bytes.
pub fn put(bytes: &mut [u8; PATH_BYTES], k: usize, four: [u8; 4])
    requires { k < component_limit }
    ensures { bytes.new ≡ put4 bytes.old (4 * k) (slice_index four 0) (slice_index four 1) (slice_index four 2) (slice_index four 3) }
{
    let at = 4 * k;
    bytes[at..at + 4].copy_from_slice(&four);
}

// One component more: four bytes behind those that stand.
#[tactic(auto, unfolding(crate::specs::Memory::pushed))]
pub fn push(mut name: AmlName, four: [u8; 4]) -> AmlName
    requires { name.count < component_limit }
    ensures { result ≡ pushed name (slice_index four 0) (slice_index four 1) (slice_index four 2) (slice_index four 3) }
{
    put(&mut name.bytes, name.count, four);
    name.count += 1;
    name
}

// The last component away, its bytes zero again.
#[tactic(auto, unfolding(crate::specs::Memory::popped))]
pub fn pop(mut name: AmlName) -> AmlName
    requires { (0 < name.count) × (name.count ≤ component_limit) }
    ensures { result ≡ popped name }
{
    name.count -= 1;
    put(&mut name.bytes, name.count, [0; 4]);
    name
}
