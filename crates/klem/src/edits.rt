// What changes the script's table.
use crate::answer::Answer;
use crate::args::Call;
use crate::fault::Fault;

#[derive(Clone, Copy, PartialEq, Eq)]
pub enum Edit {
    New,
    Poke,
    Level,
    Remove,
    Value,
    ValueAt,
    Alias,
    Set,
    SetObject,
}

impl Edit {
    pub fn answer<'a>(self, call: Call, table: &mut [u64]) -> Result<Answer<'a>, Fault> {
        match self {
            Edit::New => {
                call.none()?;
                namespace::new(table)?;
            }
            Edit::Poke => poke(call, table)?,
            Edit::Level => {
                let (path, typ) = call.two()?;
                namespace::add_level(table, path, typ)?;
            }
            Edit::Remove => namespace::remove_level(table, call.one()?)?,
            Edit::Set => {
                let (handle, number) = call.two()?;
                namespace::set(table, handle, number)?;
            }
            Edit::SetObject => {
                let (path, number) = call.two()?;
                namespace::set_by_path(table, path, number)?;
            }
            Edit::Value => {
                let (path, number) = call.two()?;
                return Ok(Answer::Handle(namespace::add_value(table, path, number)?));
            }
            Edit::ValueAt => {
                let (path, scope, number) = call.three()?;
                let handle = namespace::add_value_at_resolved_path(table, path, scope, number)?;
                return Ok(Answer::Handle(handle));
            }
            Edit::Alias => {
                let (path, scope, target) = call.three()?;
                let handle = namespace::add_alias_at_resolved_path(table, path, scope, target)?;
                return Ok(Answer::Handle(handle));
            }
        }
        Ok(Answer::Done)
    }
}

// One word of the table's memory.
fn poke(call: Call, table: &mut [u64]) -> Result<(), Fault> {
    let (index, number): (u64, u64) = call.two()?;
    let word = table.get_mut(index as usize).ok_or(Fault::NoWord)?;
    *word = number;
    Ok(())
}
