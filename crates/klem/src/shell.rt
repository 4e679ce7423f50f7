// What a line says, in the state that the lines before it left.
use crate::answer::Answer;
use crate::args::Call;
use crate::command::Command;
use crate::fault::Fault;
use crate::words::{MOST_BYTES, Words};
use crate::{blocks, tables, words};
use statement::frame::Width;
use table::layout::WORDS;

// No line has more bytes.
pub const LONGEST_LINE: usize = 200_000;

// The script's table, and memory for the bytes that a line spells and for those that a call writes.
#[derive(Drop)]
pub struct Shell {
    pub table: [u64; WORDS],
    pub bytes: [u8; MOST_BYTES],
    pub room: [u8; MOST_BYTES],
}

impl Shell {
    // None for a line that has no answer: a blank one, or a comment.
    pub fn answer(&mut self, given: &[u8]) -> Option<Result<Answer<'_>, Fault>> {
        if LONGEST_LINE < given.len() {
            return Some(Err(Fault::LongLine));
        }
        let line = words::trimmed(given);
        if line.starts_with(b"#") {
            return None;
        }
        let mut words = Words::of(line);
        let name = words.next()?;
        match Command::named(name) {
            Some(command) => Some(self.call(Call { command, words })),
            None => Some(Err(Fault::NoCommand)),
        }
    }

    fn call(&mut self, call: Call<'_>) -> Result<Answer<'_>, Fault> {
        let table = &mut self.table;
        let bytes = &mut self.bytes;
        let room = &mut self.room;
        match call.command {
            Command::Bytes(command) => command.answer(call, bytes),
            Command::Path(command) => command.answer(call),
            Command::Look(command) => command.answer(call, table),
            Command::Edit(command) => command.answer(call, table),
            Command::Run => blocks::run(call, Width::Bits64, bytes),
            Command::Run32 => blocks::run(call, Width::Bits32, bytes),
            Command::WriteTable => tables::write(call, bytes, room),
            Command::Image => tables::image(call, table, room),
            Command::Load => tables::load(call, bytes, table),
            Command::Help => help(call),
        }
    }
}

fn help<'a>(mut call: Call) -> Result<Answer<'a>, Fault> {
    let Some(word) = call.words.next() else {
        return Ok(Answer::Names);
    };
    call.none()?;
    let command = Command::named(word).ok_or(Fault::NoCommand)?;
    Ok(Answer::Usage(command))
}
