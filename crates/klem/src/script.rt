// A script's lines, as they come in chunks, and the answers that wait to be written.
use crate::answer::Answer;
use crate::fault::Fault;
use crate::shell::{LONGEST_LINE, Shell};
use crate::words;
use std::alloc::Global;
use std::io::{Read, Stdout, Write};
use std::{fmt, io};

// Where more bytes of answers wait, they are written before the next line.
const MOST_WAITING: usize = 60_000;

#[derive(Drop)]
pub struct Script {
    // The front of a line whose end was not read yet.
    begun: Vec<u8>,
    answers: Answers,
}

impl Script {
    pub fn new(alloc: Global, to: Stdout) -> Script {
        Script {
            begun: Vec::new(alloc),
            answers: Answers {
                to,
                waiting: String::new(alloc),
                lines: 0,
                wrong_lines: 0,
            },
        }
    }

    // How many lines were not understood.
    pub fn wrong_lines(&self) -> u64 {
        self.answers.wrong_lines
    }

    // The whole script, up to an answer that cannot be written. Answers are written before more is read, for those who wait for them; a read that fails is
    // the script's end. A proved loop has to end, and nothing says that the input does: so it takes no more turns than any run uses up.
    pub fn serve<R: Read>(
        &mut self,
        input: &mut R,
        chunk: &mut [u8],
        shell: &mut Shell,
    ) -> io::Result<()> {
        for _ in 0..u64::MAX {
            // No BufReader: what is kept of a line counts among a chunk's bytes, so that a script from a file is cut where it always was.
            let room = chunk.len().saturating_sub(self.kept());
            let (room, _) = chunk.split_at_mut(room);
            let read = input.read(room).unwrap_or_default();
            let piece = room.get(..read).unwrap_or_default();
            if piece.is_empty() {
                break;
            }
            self.answer_chunk(piece, shell)?;
            self.answers.write()?;
        }
        if !self.begun.is_empty() {
            self.answers.answer(self.begun.as_slice(), shell)?;
        }
        self.answers.write()
    }

    // Answers the lines that end in the chunk.
    fn answer_chunk(&mut self, chunk: &[u8], shell: &mut Shell) -> io::Result<()> {
        for piece in chunk.split_inclusive(|b| *b == b'\n') {
            match piece.strip_suffix(b"\n") {
                None => self.begin(piece)?,
                Some(line) if self.begun.is_empty() => self.answers.answer(line, shell)?,
                Some(end) => {
                    self.begin(end)?;
                    self.answers.answer(self.begun.as_slice(), shell)?;
                    self.begun.clear();
                }
            }
        }
        Ok(())
    }

    // How many bytes are kept for a line that may still be answered.
    fn kept(&self) -> usize {
        let begun = self.begun.len();
        if begun <= LONGEST_LINE { begun } else { 0 }
    }

    // Keeps what is known of a line; of one that is too long already no more is kept.
    fn begin(&mut self, piece: &[u8]) -> io::Result<()> {
        if self.begun.len() <= LONGEST_LINE {
            self.begun.extend_from_slice(piece)?;
        }
        Ok(())
    }
}

#[derive(Drop)]
struct Answers {
    to: Stdout,
    waiting: String,
    lines: u64,
    wrong_lines: u64,
}

impl Answers {
    fn answer(&mut self, line: &[u8], shell: &mut Shell) -> io::Result<()> {
        self.lines = self.lines.saturating_add(1);
        // A blank line, or a comment: `shell` would say so too, but its answer takes room on the stack, which is made ready at each line that comes there.
        if line.len() <= LONGEST_LINE && matches!(words::trimmed(line), [] | [b'#', ..]) {
            return Ok(());
        }
        self.say(line, shell)
    }

    #[inline(never)]
    fn say(&mut self, line: &[u8], shell: &mut Shell) -> io::Result<()> {
        let Some(said) = shell.answer(line) else {
            return Ok(());
        };
        if let Err(fault) = said
            && fault.is_wrong_line()
        {
            self.wrong_lines = self.wrong_lines.saturating_add(1);
        }
        let reply = Reply {
            line: self.lines,
            said,
        };
        writeln!(self.waiting, "{reply}")?;
        if MOST_WAITING < self.waiting.len() {
            self.write()?;
        }
        Ok(())
    }

    // Writes the answers that wait.
    fn write(&mut self) -> io::Result<()> {
        if !self.waiting.is_empty() {
            self.to.write_all(self.waiting.as_bytes())?;
            self.waiting.clear();
        }
        Ok(())
    }
}

// What one line is answered.
#[derive(Clone, Copy)]
struct Reply<'a> {
    line: u64,
    said: Result<Answer<'a>, Fault>,
}

impl<'a> fmt::Display for Reply<'a> {
    fn fmt<W: fmt::Write>(&self, f: &mut fmt::Formatter<W>) -> fmt::Result {
        match &self.said {
            Ok(answer) => write!(f, "{answer}"),
            Err(fault) if fault.is_wrong_line() => write!(f, "? {} {fault}", self.line),
            Err(fault) => write!(f, "{fault}"),
        }
    }
}
