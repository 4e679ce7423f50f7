// A command and the words behind it. Each word is read as the type that the command takes it for; all are judged, and one fault is told.
use crate::command::Command;
use crate::fault::Fault;
use crate::words;
use crate::words::{MOST_BYTES, Words};
use name_object::{AmlName, PATH_BYTES};
use namespace::{AmlHandle, LevelType};

// What a word can be read as.
pub trait Word<'a>: Sized + Drop {
    fn read(word: &'a [u8]) -> Result<Self, Fault>;
}

// A word of hex digits. A call decodes it once all words are judged.
#[derive(Clone, Copy)]
pub struct Hex<'a>(pub &'a [u8]);

impl<'a> Hex<'a> {
    pub fn decoded<'b>(self, room: &'b mut [u8]) -> Result<&'b [u8], Fault> {
        words::decoded(self.0, room).ok_or(Fault::Hex)
    }

    // The bytes of a word that has to spell N.
    pub fn exactly<const N: usize>(self, wanted: Fault) -> Result<[u8; N], Fault> {
        if self.0.len() / 2 != N {
            return Err(wanted);
        }
        let mut bytes = [0; N];
        self.decoded(&mut bytes)?;
        Ok(bytes)
    }
}

impl<'a> Word<'a> for Hex<'a> {
    fn read(word: &'a [u8]) -> Result<Hex<'a>, Fault> {
        Ok(Hex(word))
    }
}

impl<'a> Word<'a> for u64 {
    fn read(word: &'a [u8]) -> Result<u64, Fault> {
        words::number(word).ok_or(Fault::Number)
    }
}

impl<'a> Word<'a> for u8 {
    fn read(word: &'a [u8]) -> Result<u8, Fault> {
        let number = u64::read(word)?;
        u8::try_from(number).map_err(|_| Fault::Number)
    }
}

// A number of bytes or of levels that a call makes room for.
#[derive(Clone, Copy)]
pub struct Length(pub usize);

impl<'a> Word<'a> for Length {
    fn read(word: &'a [u8]) -> Result<Length, Fault> {
        let number = u64::read(word)? as usize;
        if MOST_BYTES < number {
            return Err(Fault::Length);
        }
        Ok(Length(number))
    }
}

// The size of a text. It is the only number that weighs less than a path.
#[derive(Clone, Copy)]
pub struct Size(pub usize);

impl<'a> Word<'a> for Size {
    fn read(word: &'a [u8]) -> Result<Size, Fault> {
        match words::number(word) {
            Some(number) => Ok(Size(number as usize)),
            None => Err(Fault::Size),
        }
    }
}

impl<'a> Word<'a> for LevelType {
    fn read(word: &'a [u8]) -> Result<LevelType, Fault> {
        let number = words::number(word).ok_or(Fault::Type)?;
        LevelType::try_from(number).map_err(|_| Fault::Type)
    }
}

// A handle has 32 bits; a larger number was never handed out, and neither was the largest of 32 bits.
impl<'a> Word<'a> for AmlHandle {
    fn read(word: &'a [u8]) -> Result<AmlHandle, Fault> {
        let number = u64::read(word)?;
        Ok(AmlHandle(u32::try_from(number).unwrap_or(u32::MAX)))
    }
}

// A path is its text, or `=COUNT:HEX` for any memory, whose missing bytes are zero.
impl<'a> Word<'a> for AmlName {
    fn read(word: &'a [u8]) -> Result<AmlName, Fault> {
        match word {
            [b'=', memory @ ..] => memory_of(memory),
            _ => Ok(path::from_str(word)?),
        }
    }
}

fn memory_of(word: &[u8]) -> Result<AmlName, Fault> {
    let (count, hex) = split_at_byte(word, b':').ok_or(Fault::Path)?;
    let count = words::number(count).ok_or(Fault::Path)? as usize;
    let mut bytes = [0; PATH_BYTES];
    words::decoded(hex, &mut bytes).ok_or(Fault::Path)?;
    Ok(AmlName { count, bytes })
}

// What stands before the first such byte, and what behind it.
pub fn split_at_byte(word: &[u8], byte: u8) -> Option<(&[u8], &[u8])> {
    let at = word.iter().position(|b| *b == byte)?;
    Some((&word[..at], &word[at + 1..]))
}

// Both values, or the fault that is told.
fn both<A: Drop, B: Drop>(
    first: Result<A, Fault>,
    second: Result<B, Fault>,
) -> Result<(A, B), Fault> {
    match (first, second) {
        (Ok(a), Ok(b)) => Ok((a, b)),
        (Err(fault), Err(later)) => Err(fault.or_heavier(later)),
        (Err(fault), Ok(_)) => Err(fault),
        (Ok(_), Err(fault)) => Err(fault),
    }
}

// A line's command, and what is left of the words behind it.
#[derive(Clone, Copy)]
pub struct Call<'a> {
    pub command: Command,
    pub words: Words<'a>,
}

impl<'a> Call<'a> {
    // The next word, read as what is wanted.
    fn word<A: Word<'a>>(&mut self) -> Result<A, Fault> {
        match self.words.next() {
            Some(word) => A::read(word),
            None => Err(Fault::Words(self.command)),
        }
    }

    // So many words and no more. Each stands on the one before; a tuple has no length to be generic in.
    pub fn none(mut self) -> Result<(), Fault> {
        match self.words.next() {
            Some(_) => Err(Fault::Words(self.command)),
            None => Ok(()),
        }
    }

    pub fn one<A: Word<'a>>(mut self) -> Result<A, Fault> {
        let first = self.word();
        let (first, ()) = both(first, self.none())?;
        Ok(first)
    }

    pub fn two<A: Word<'a>, B: Word<'a>>(mut self) -> Result<(A, B), Fault> {
        let first = self.word();
        both(first, self.one())
    }

    pub fn three<A: Word<'a>, B: Word<'a>, C: Word<'a>>(mut self) -> Result<(A, B, C), Fault> {
        let first = self.word();
        let (first, (second, third)) = both(first, self.two())?;
        Ok((first, second, third))
    }

    // Two words, before others that the command reads itself.
    pub fn two_and_more<A: Word<'a>, B: Word<'a>>(&mut self) -> Result<(A, B), Fault> {
        let first = self.word();
        let second = self.word();
        both(first, second)
    }

    pub fn five<A: Word<'a>, B: Word<'a>, C: Word<'a>, D: Word<'a>, E: Word<'a>>(
        mut self,
    ) -> Result<(A, B, C, D, E), Fault> {
        let front = self.two_and_more();
        let ((first, second), (third, fourth, fifth)) = both(front, self.three())?;
        Ok((first, second, third, fourth, fifth))
    }

    // The bytes of the one word that is wanted.
    pub fn bytes<'b>(self, room: &'b mut [u8]) -> Result<&'b [u8], Fault> {
        let hex: Hex = self.one()?;
        hex.decoded(room)
    }
}
