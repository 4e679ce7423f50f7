// Control blocks (statement.rs): the run of a block that the grammar derives.
#![tactic(auto)]

ghost use Rattle.std.specs.Prelude.{◌≡◌};
ghost use Rattle.statement.specs.Lent.{list_said};
ghost use Rattle.statement.specs.Promise.{HasRun, end_said};

use crate::exec::Propagate;
use crate::frame::Frame;
use crate::part::Part;
use grammar::DEPTH;
use pkg_length::AmlError;

mod eval;
mod exec;
pub mod frame;
mod number;
mod part;

// How a run ended.
#[derive(Clone, Copy, Debug, PartialEq, Eq)]
pub enum End {
    Finished,
    Returned(u64),
    BreakOut,
    ContinueOut,
}

// How a run that began ended, and the units used; 22 and 23 end one too.
#[derive(Clone, Copy, Debug, PartialEq, Eq)]
pub struct Execution {
    pub end: Result<End, AmlError>,
    pub units: u64,
}

// Checks the whole block, then executes it. The Err is the check's: nothing began, and the frame is as it came.
pub fn run(block: &[u8], frame: &mut Frame, budget: u64) -> Result<Execution, AmlError>
    ensures { HasRun block.now frame.old budget frame.new result }
{
    grammar::check(block)?;
    frame.begin();
    let mut units = budget;
    let list = frame.term_list(Part { bytes: block }, DEPTH, &mut units);
    Ok(Execution {
        end: ended(list),
        units: budget - units,
    })
}

fn ended(list: Result<(), Propagate>) -> Result<End, AmlError>
    ensures { end_said result ≡ list_said list }
{
    match list {
        Ok(()) => Ok(End::Finished),
        Err(Propagate::Return(n)) => Ok(End::Returned(n)),
        Err(Propagate::Break) => Ok(End::BreakOut),
        Err(Propagate::Continue) => Ok(End::ContinueOut),
        Err(Propagate::Refused(e)) => Err(e),
    }
}
