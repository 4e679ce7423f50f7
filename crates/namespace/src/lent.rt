// A lent table that was tested, and what is read of it: lookup, objects and the search.
ghost use Rattle.std.specs.Prelude.{◌≡◌, true, false, ◌+◌, ◌-◌, MatchResult};
ghost use Rattle.pkg_length.specs.Refusal.{said, said_as};
ghost use Rattle.pkg_length.specs.declared.AmlError.{AmlError};
ghost use Rattle.name_object.specs.Component.{component_limit};
ghost use Rattle.name_object.specs.Memory.{told, path_of_name};
ghost use Rattle.table.specs.Limits.{limits};
ghost use Rattle.table.specs.Memory.{is_well_formed, decode};
ghost use Rattle.table.specs.Edits.{look_up_answer, value_of};
ghost use Rattle.table.specs.Search.{search_up_answer, level_up_answer};
ghost use Rattle.namespace.specs.Search.{found_hit, search_once_answer, found_level};
ghost use Rattle.namespace.specs.Inside.{RoomFor};
ghost use Rattle.namespace.specs.Settled.{segment_of};

use crate::keys::Keys;
use crate::paths::Absolute;
use crate::{AmlHandle, Found, LevelFound};
use name_object::NameSeg;
use path::inner::Path;
use pkg_length::AmlError;
use table::inner::{Place, Spot};
use table::layout::{COUNT_AT, LAST_BINDING, LEVELS, VALUES_AT};

// Words that passed the test of 24, so that what reads a table tests nothing again.
#[derive(Clone, Copy)]
pub(crate) struct Table<'a> {
    pub(crate) words: &'a [u64],
    ghost formed: { is_well_formed limits words.now ≡ true },
}

impl<'a> Table<'a> {
    pub(crate) fn of(words: &'a [u64]) -> Result<Table<'a>, AmlError>
        ensures { MatchResult result (λ table. table.words.now ≡ words.now) (λ e. (e ≡ AmlError.BadTable) × (is_well_formed limits words.now ≡ false)) }
    {
        if !table::well_formed(words) {
            return Err(AmlError::BadTable);
        }
        Ok(Table { words })
    }

    // Exact lookup.
    pub(crate) fn look_up(&self, path: &Keys) -> Result<AmlHandle, AmlError>
        ensures { said_as (λ h. h.0) result ≡ look_up_answer (decode limits self.now.words.now) path.now }
    {
        match table::inner::find_spot(self.words, path.as_slice())? {
            Spot::Bound(h) => Ok(AmlHandle(h)),
            Spot::Free(_) => Err(AmlError::ValueDoesNotExist),
        }
    }

    // Where a path's last segment would be bound: there is room where its level is there, has nothing under that segment, and one binding more fits.
    pub(crate) fn find_room(&self, path: &Keys) -> Result<Place, AmlError>
        ensures { RoomFor limits self.now.words.now path.now result }
    {
        match table::inner::find_spot(self.words, path.as_slice())? {
            Spot::Bound(_) => Err(AmlError::NameCollision),
            Spot::Free(place) => {
                if self.words[LAST_BINDING] != 0 {
                    return Err(AmlError::BindingsFull);
                }
                Ok(place)
            }
        }
    }

    // The object of a handle.
    pub(crate) fn read(&self, handle: AmlHandle) -> Result<u64, AmlError>
        ensures { said result ≡ value_of (decode limits self.now.words.now) handle.0 }
    {
        let h = handle.0 as usize;
        let made = self.words[COUNT_AT] as usize;
        if made <= h {
            return Err(AmlError::NoSuchHandle);
        }
        Ok(self.words[VALUES_AT + h])
    }

    // A bare segment: the scope is asked, then each scope around it.
    pub(crate) fn search_up(&self, segment: NameSeg, scope: &Absolute) -> Result<Found, AmlError>
        ensures { said_as found_hit result ≡ told component_limit (search_up_answer limits (decode limits self.now.words.now) (segment_of segment) (path_of_name scope.now.name)) }
    {
        let keys = Keys::of(scope);
        let wanted = table::segments::number(segment.0);
        let found = table::inner::nearest_value(
            &self.words[..LEVELS],
            &self.words[LEVELS..COUNT_AT],
            keys.as_slice(),
            wanted,
        );
        match found {
            None => Err(AmlError::ValueDoesNotExist),
            Some(nearest) => Ok(Found {
                name: scope.around(nearest.depth, segment),
                handle: AmlHandle(nearest.handle),
                asked: scope.name.count - nearest.depth + 1,
            }),
        }
    }

    // Any other path is looked up there only.
    pub(crate) fn search_once(&self, path: &Path, scope: &Absolute) -> Result<Found, AmlError>
        ensures { said_as found_hit result ≡ told component_limit (search_once_answer limits (decode limits self.now.words.now) (path_of_name path.now.name.now) (path_of_name scope.now.name)) }
    {
        let path = Absolute::against(path, &scope.as_path())?;
        let handle = self.look_up(&Keys::of(&path))?;
        Ok(Found {
            name: path.name,
            handle,
            asked: 1,
        })
    }

    // The same as `search_up`, over levels. What is asked, the answer and the refusal differ; what is the same stands in `Keys::of` and `around`.
    pub(crate) fn level_up(
        &self,
        segment: NameSeg,
        scope: &Absolute,
    ) -> Result<LevelFound, AmlError>
        ensures { said_as found_level result ≡ told component_limit (level_up_answer limits (decode limits self.now.words.now) (segment_of segment) (path_of_name scope.now.name)) }
    {
        let keys = Keys::of(scope);
        let held = table::inner::nearest_level(
            &self.words[..LEVELS],
            keys.as_slice(),
            table::segments::number(segment.0),
        );
        match held {
            None => Err(AmlError::LevelDoesNotExist(1)),
            Some(depth) => Ok(LevelFound {
                name: scope.around(depth, segment),
                asked: scope.name.count - depth + 1,
            }),
        }
    }
}
