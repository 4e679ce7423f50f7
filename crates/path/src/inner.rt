// For the layers above too: what was tested once is not tested again.
ghost use Rattle.std.specs.Prelude.{◌≡◌, true};
ghost use Rattle.pkg_length.specs.Refusal.{said_as};
ghost use Rattle.name_object.specs.Component.{component_limit};
ghost use Rattle.name_object.specs.Memory.{path_ok, path_of_name, path_in_answer};
ghost use Rattle.path.specs.Normal.{absolute, is_normal_path, one_segment};

use crate::valid;
use name_object::inner::component;
use name_object::{AmlName, PREFIX_CHAR, ROOT_CHAR};
use pkg_length::AmlError;

// The root stands first, in memory of any kind.
pub fn starts_at_root(name: &AmlName) -> bool
    ensures { result ≡ absolute (path_of_name name.now) }
{
    (name.count != 0) & (name.bytes[0] == ROOT_CHAR)
}

// A path: memory that passed the test of 26, so that what needs one tests nothing again.
#[derive(Clone, Copy)]
pub struct Path<'a> {
    pub name: &'a AmlName,
    ghost ok: { path_ok component_limit name.now ≡ true },
}

impl<'a> Path<'a> {
    #[tactic(auto, unfolding(name_object::specs::Memory::path_in_answer))]
    pub fn of(name: &'a AmlName) -> Result<Path<'a>, AmlError>
        ensures { said_as (λ path. path_of_name path.name.now) result ≡ path_in_answer component_limit name.now }
    {
        if !valid::holds_path(name) {
            return Err(AmlError::BadPath);
        }
        Ok(Path { name })
    }

    // The root stands first.
    pub fn is_absolute(&self) -> bool
        ensures { result ≡ absolute (path_of_name self.now.name.now) }
    {
        starts_at_root(self.name)
    }

    // One component, a segment.
    pub fn is_one_segment(&self) -> bool
        ensures { result ≡ one_segment (path_of_name self.now.name.now) }
    {
        let lead = self.name.bytes[0];
        (self.name.count == 1) & (lead != ROOT_CHAR) & (lead != PREFIX_CHAR)
    }

    // No `^` in it.
    pub fn is_normal(&self) -> bool
        ensures { result ≡ is_normal_path (path_of_name self.now.name.now) }
    {
        // By index, as `component` has it.
        for i in 0..self.name.count {
            if component(self.name, i)[0] == PREFIX_CHAR {
                return false;
            }
        }
        true
    }
}
