// What only asks the script's table.
ghost use Rattle.std.specs.Prelude.{◌<◌};

use crate::answer::Answer;
use crate::args::{Call, Length};
use crate::fault::Fault;
use crate::levels::{List, Tree};
use name_object::AmlName;
use namespace::listing;

#[derive(Clone, Copy, PartialEq, Eq)]
pub enum Look {
    WellFormed,
    Digest,
    Get,
    Handle,
    Object,
    Search,
    SearchLevel,
    Levels,
    Tree,
}

impl Look {
    pub fn answer<'a>(self, call: Call, table: &'a [u64]) -> Result<Answer<'a>, Fault> {
        let answer = match self {
            Look::WellFormed => {
                call.none()?;
                Answer::Is(table::well_formed(table))
            }
            Look::Digest => {
                call.none()?;
                Answer::Number(digest(table))
            }
            Look::Get => Answer::Number(namespace::get(table, call.one()?)?),
            Look::Handle => Answer::Handle(namespace::get_handle(table, call.one()?)?),
            Look::Object => Answer::Number(namespace::get_by_path(table, call.one()?)?),
            Look::Search => {
                let (path, scope) = call.two()?;
                Answer::Found(namespace::search(table, path, scope)?)
            }
            Look::SearchLevel => {
                let (path, scope) = call.two()?;
                Answer::Level(namespace::search_for_level(table, path, scope)?)
            }
            Look::Levels => Answer::List(list(call, table)?),
            Look::Tree => {
                call.none()?;
                Answer::Tree(tree(table)?)
            }
        };
        Ok(answer)
    }
}

fn list<'a>(call: Call, table: &'a [u64]) -> Result<List<'a>, Fault> {
    let (path, Length(room)): (AmlName, Length) = call.two()?;
    let found = listing::start(table, path, room)?;
    Ok(List(&table[found.at..found.at + found.count]))
}

fn tree(table: &[u64]) -> Result<Tree<'_>, Fault> {
    let all = listing::start(table, path::root(), table.len())?;
    Ok(Tree {
        table,
        levels: all.count,
    })
}

// One word more behind a sum: both halves of the word go in, modulo a prime below 2^31.
fn stirred(sum: u64, factor: u32, word: u64) -> u64
    requires { sum < 2147483647 }
    ensures { result < 2147483647 }
{
    let factor = u64::from(factor);
    let high = (sum * factor + word / 4294967296) % 2147483647;
    (high * factor + word % 4294967296) % 2147483647
}

// Equal memory, equal number. Two factors make two sums.
fn digest(table: &[u64]) -> u64 {
    let mut first = 1;
    let mut second = 1;
    for word in table {
        first = stirred(first, 65599, *word);
        second = stirred(second, 1000003, *word);
    }
    first * 2147483648 + second
}
