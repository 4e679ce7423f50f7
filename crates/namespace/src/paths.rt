// Paths as the calls go by them: what is known of a normal absolute path.
ghost use Rattle.std.specs.Prelude.{◌≡◌, false, ◌∷◌, [], ◌++◌, ◌*◌, ◌<◌, ◌≤◌, take, length, MatchOption};
ghost use Rattle.pkg_length.specs.Refusal.{said_as};
ghost use Rattle.name_object.specs.Component.{component_limit};
ghost use Rattle.name_object.specs.Memory.{name_of, path_of_name};
ghost use Rattle.path.specs.Normal.{resolved, one_segment};
ghost use Rattle.namespace.specs.Calls.{settled};
ghost use Rattle.namespace.specs.Settled.{Settled, segment_of};

use name_object::{AmlName, NameSeg};
use path::inner::Path;
use pkg_length::AmlError;

// A normal absolute path.
#[derive(Clone, Copy)]
pub(crate) struct Absolute {
    pub(crate) name: AmlName,
    ghost sized: { length name.bytes ≡ 4 * component_limit },
    ghost settled: { Settled component_limit name },
}

impl Absolute {
    // The normal form of an absolute path.
    pub(crate) fn settled(path: &Path) -> Result<Absolute, AmlError>
        ensures { said_as (λ settled. path_of_name settled.name) result ≡ settled component_limit (path_of_name path.now.name.now) }
    {
        if !path.is_absolute() {
            return Err(AmlError::NotAbsolute);
        }
        let name = path.normal()?;
        Ok(Absolute { name })
    }

    // The normal form against a scope.
    pub(crate) fn against(path: &Path, scope: &Path) -> Result<Absolute, AmlError>
        ensures { said_as (λ settled. path_of_name settled.name) result ≡ resolved component_limit (path_of_name path.now.name.now) (path_of_name scope.now.name.now) }
    {
        let name = path.resolved(scope)?;
        Ok(Absolute { name })
    }

    pub(crate) fn as_path(&self) -> Path<'_>
        ensures { path_of_name result.name.now ≡ path_of_name self.now.name }
    {
        Path { name: &self.name }
    }

    // A segment in the scope of the first n components.
    pub(crate) fn around(&self, n: usize, segment: NameSeg) -> AmlName
        requires { (n ≤ self.now.name.count) × (n < component_limit) }
        ensures { result ≡ name_of component_limit (take n (path_of_name self.now.name) ++ (segment_of segment ∷ [])) }
    {
        let mut name = self.name;
        for _i in n..self.name.count {
            name = name_object::inner::pop(name);
        }
        name_object::inner::push(name, segment.0)
    }
}

// The segment of a path that is one bare segment: the search rules apply to it.
pub(crate) fn bare(path: &Path) -> Option<NameSeg>
    ensures { MatchOption result (one_segment (path_of_name path.now.name.now) ≡ false) (λ segment. path_of_name path.now.name.now ≡ segment_of segment ∷ []) }
{
    if !path.is_one_segment() {
        return None;
    }
    Some(NameSeg(name_object::inner::component(path.name, 0)))
}
