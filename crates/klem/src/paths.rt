// Paths: their texts, and what they are to one another.
use crate::answer::{Answer, Kind};
use crate::args::{Call, Hex, Size};
use crate::fault::Fault;
use name_object::{AmlName, PATH_BYTES};
use path::TEXT_BYTES;

#[derive(Clone, Copy, PartialEq, Eq)]
pub enum OnPaths {
    Text,
    Write,
    Root,
    Components,
    Normal,
    Parent,
    Kind,
    Resolve,
}

impl OnPaths {
    pub fn answer<'a>(self, call: Call) -> Result<Answer<'a>, Fault> {
        let answer = match self {
            OnPaths::Text => Answer::Path(path::from_str(call.words.behind())?),
            OnPaths::Write => Answer::Path(written(call)?),
            OnPaths::Root => {
                call.none()?;
                Answer::Path(path::root())
            }
            OnPaths::Components => Answer::Path(components(call)?),
            OnPaths::Normal => Answer::Path(path::normalize(call.one()?)?),
            OnPaths::Parent => Answer::Path(path::parent(call.one()?)?),
            OnPaths::Kind => Answer::Kind(kind(call.one()?)?),
            OnPaths::Resolve => {
                let (path, scope) = call.two()?;
                Answer::Path(path::resolve(path, scope)?)
            }
        };
        Ok(answer)
    }
}

// A path whose text fits the size. No text is longer than TEXT_BYTES.
fn written(call: Call) -> Result<AmlName, Fault> {
    let (path, Size(size)): (AmlName, Size) = call.two()?;
    let mut text = [0; TEXT_BYTES];
    path::as_string(path, &mut text[..size.min(TEXT_BYTES)])?;
    Ok(path)
}

fn components(call: Call) -> Result<AmlName, Fault> {
    let (count, hex): (u64, Hex) = call.two()?;
    let mut bytes = [0; PATH_BYTES];
    hex.decoded(&mut bytes)?;
    Ok(path::from_components(count as usize, bytes)?)
}

fn kind(path: AmlName) -> Result<Kind, Fault> {
    Ok(Kind {
        is_absolute: path::is_absolute(path)?,
        is_normal: path::is_normal(path)?,
        is_bare: path::search_rules_apply(path)?,
    })
}
