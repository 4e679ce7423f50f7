// A path's components as the records have them: the root is 0, a segment is its number.
ghost use Rattle.std.specs.Prelude.{◌≡◌, ◌<◌, ◌≤◌, take, length};
ghost use Rattle.pkg_length.specs.Refusal.{said};
ghost use Rattle.name_object.specs.Component.{component_limit};
ghost use Rattle.name_object.specs.Memory.{path_of_name};
ghost use Rattle.table.specs.Tree.{keys};
ghost use Rattle.table.specs.Inside.{Keyed};
ghost use Rattle.namespace.specs.Calls.{settled_keys, resolved_keys};

use crate::paths::Absolute;
use name_object::{AmlName, COMPONENTS};
use path::inner::Path;
use pkg_length::AmlError;
use std::marker::Model;

// The keys of a normal absolute path: the first `count` stand for its components. An array and a count, since there is no heap here (docs/DECISIONS.md).
#[derive(Drop)]
pub(crate) struct Keys {
    keys: [u64; COMPONENTS],
    count: usize,
}

impl Model for Keys {
    ghost use Rattle.std.specs.Prelude.{ℕ, List, take, ◌<◌, ◌≤◌};
    ghost use Rattle.name_object.specs.Component.{component_limit};
    ghost use Rattle.table.specs.Inside.{Keyed};

    ghost Value = { List ℕ };

    ghost view = { λ k. take k.count k.keys };

    ghost invariant = { λ k. (0 < k.count) × (k.count ≤ component_limit) × Keyed component_limit (take k.count k.keys) };
}

impl Keys {
    pub(crate) fn of(path: &Absolute) -> Keys
        ensures { result ≡ keys (path_of_name path.now.name) }
    {
        let mut keys = [0u64; COMPONENTS];
        let name = &path.name;
        // By index, as `component` has it; the root's key is 0 already.
        for i in 1..name.count {
            let characters = name_object::inner::component(name, i);
            keys[i] = table::segments::number(characters);
        }
        Keys {
            keys,
            count: name.count,
        }
    }

    // What an edit or a lookup goes by: what its path is refused with, and then the keys of its normal form.
    pub(crate) fn settled(path: &AmlName) -> Result<Keys, AmlError>
        ensures { said result ≡ settled_keys component_limit path.now }
    {
        let path = Absolute::settled(&Path::of(path)?)?;
        Ok(Keys::of(&path))
    }

    // The same of a path against a scope.
    pub(crate) fn resolved(path: &AmlName, scope: &AmlName) -> Result<Keys, AmlError>
        ensures { said result ≡ resolved_keys component_limit path.now scope.now }
    {
        let path = Path::of(path)?;
        let scope = Path::of(scope)?;
        let path = Absolute::against(&path, &scope)?;
        Ok(Keys::of(&path))
    }

    pub(crate) fn as_slice(&self) -> &[u64]
        ensures is { result.now ≡ self.now }
        ensures some { 0 < length self.now }
        ensures keyed { Keyed component_limit self.now }
    {
        &self.keys[..self.count]
    }
}
