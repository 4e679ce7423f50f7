// What a line is answered.
use crate::blocks::Ran;
use crate::command::{Command, Names};
use crate::levels::{List, Tree};
use header::{Header, Signature};
use image::Counts;
use name_object::{AmlName, NameRead};
use namespace::{AmlHandle, Found, LevelFound};
use pkg_length::{Pkg, PkgLength, Raw};
use std::fmt;

#[derive(Clone, Copy)]
pub enum Answer<'a> {
    Done,
    Number(u64),
    Is(bool),
    Handle(AmlHandle),
    Raw(Raw),
    Length(PkgLength),
    Pkg(Pkg),
    Table(Header),
    Byte(Byte),
    Kind(Kind),
    Path(AmlName),
    Name(NameRead),
    Level(LevelFound),
    Found(Found),
    Loaded(Counts),
    Names,
    Usage(Command),
    Bytes(&'a [u8]),
    List(List<'a>),
    Tree(Tree<'a>),
    Ran(Ran),
}

// What a byte may be in a name.
#[derive(Clone, Copy)]
pub struct Byte {
    pub is_lead: bool,
    pub is_digit: bool,
    pub is_name: bool,
}

// What a path is; the search rules apply to a bare segment.
#[derive(Clone, Copy)]
pub struct Kind {
    pub is_absolute: bool,
    pub is_normal: bool,
    pub is_bare: bool,
}

impl<'a> fmt::Display for Answer<'a> {
    fn fmt<W: fmt::Write>(&self, f: &mut fmt::Formatter<W>) -> fmt::Result {
        match self {
            Answer::Done => write!(f, "ok"),
            Answer::Number(n) => write!(f, "ok {n}"),
            Answer::Is(is) => write!(f, "ok {}", Flag(*is)),
            Answer::Handle(handle) => write!(f, "ok handle {}", handle.0),
            Answer::Raw(read) => write!(f, "ok raw {} used {}", read.raw, read.used),
            Answer::Length(length) => write!(f, "ok {}", LengthText(*length)),
            Answer::Pkg(read) => write!(
                f,
                "ok {} used {}",
                LengthText(read.length_read),
                read.used
            ),
            Answer::Table(header) => write!(f, "ok {}", HeaderText(*header)),
            Answer::Byte(byte) => write!(f, "ok {byte}"),
            Answer::Kind(kind) => write!(f, "ok {kind}"),
            Answer::Path(path) => write!(f, "ok {}", PathText(*path)),
            Answer::Name(read) => write!(f, "ok {} used {}", PathText(read.name), read.used),
            Answer::Level(found) => write!(f, "ok {} asked {}", PathText(found.name), found.asked),
            Answer::Found(found) => write!(
                f,
                "ok {} handle {} asked {}",
                PathText(found.name),
                found.handle.0,
                found.asked
            ),
            Answer::Loaded(counts) => write!(f, "ok {}", CountsText(*counts)),
            Answer::Names => write!(f, "ok{}", Names),
            Answer::Usage(command) => write!(f, "ok {command}"),
            Answer::Bytes(bytes) => write!(f, "ok {}", HexText(bytes)),
            Answer::List(list) => write!(f, "ok {list}"),
            Answer::Tree(tree) => write!(f, "ok {tree}"),
            Answer::Ran(ran) => write!(f, "{ran}"),
        }
    }
}

// 1 for true, 0 for false.
#[derive(Clone, Copy)]
struct Flag(bool);

impl fmt::Display for Flag {
    fn fmt<W: fmt::Write>(&self, f: &mut fmt::Formatter<W>) -> fmt::Result {
        write!(f, "{}", u8::from(self.0))
    }
}

// Another crate's type has no Display of klem's: a struct around it, here and below.
#[derive(Clone, Copy)]
struct LengthText(PkgLength);

impl fmt::Display for LengthText {
    fn fmt<W: fmt::Write>(&self, f: &mut fmt::Formatter<W>) -> fmt::Result {
        write!(f, "raw {} end {}", self.0.raw_length, self.0.end_offset)
    }
}

#[derive(Clone, Copy)]
struct HeaderText(Header);

impl fmt::Display for HeaderText {
    fn fmt<W: fmt::Write>(&self, f: &mut fmt::Formatter<W>) -> fmt::Result {
        let header = self.0;
        let signature = match header.signature {
            Signature::Dsdt => "DSDT",
            Signature::Ssdt => "SSDT",
        };
        write!(
            f,
            "{signature} revision {} body {} to {}",
            header.revision, header.start, header.end
        )
    }
}

impl fmt::Display for Byte {
    fn fmt<W: fmt::Write>(&self, f: &mut fmt::Formatter<W>) -> fmt::Result {
        write!(
            f,
            "lead {} digit {} name {}",
            Flag(self.is_lead),
            Flag(self.is_digit),
            Flag(self.is_name)
        )
    }
}

impl fmt::Display for Kind {
    fn fmt<W: fmt::Write>(&self, f: &mut fmt::Formatter<W>) -> fmt::Result {
        write!(
            f,
            "absolute {} normal {} bare {}",
            Flag(self.is_absolute),
            Flag(self.is_normal),
            Flag(self.is_bare)
        )
    }
}

#[derive(Clone, Copy)]
struct CountsText(Counts);

impl fmt::Display for CountsText {
    fn fmt<W: fmt::Write>(&self, f: &mut fmt::Formatter<W>) -> fmt::Result {
        let counts = self.0;
        write!(
            f,
            "levels {} bindings {} objects {}",
            counts.levels, counts.bindings, counts.objects
        )
    }
}

// A path's text. What is no path has none.
#[derive(Clone, Copy)]
struct PathText(AmlName);

impl fmt::Display for PathText {
    fn fmt<W: fmt::Write>(&self, f: &mut fmt::Formatter<W>) -> fmt::Result {
        let mut text = [0; path::TEXT_BYTES];
        let written = path::as_string(self.0, &mut text).map(|n| text.get(..n).unwrap_or_default());
        match written {
            Ok([]) => f.write_str("(empty)"),
            Ok(text) => f.write_str(str::from_utf8(text).unwrap_or_default()),
            Err(_) => Ok(()),
        }
    }
}

const DIGITS: [u8; 16] = *b"0123456789ABCDEF";

// How many bytes' digits are written at once: a write for each byte takes many times as long.
const BYTES_AT_ONCE: usize = 64;

// Two digits for each byte.
#[derive(Clone, Copy)]
struct HexText<'a>(&'a [u8]);

impl<'a> fmt::Display for HexText<'a> {
    fn fmt<W: fmt::Write>(&self, f: &mut fmt::Formatter<W>) -> fmt::Result {
        let mut text = [[0; 2]; BYTES_AT_ONCE];
        for bytes in self.0.chunks(BYTES_AT_ONCE) {
            for (pair, byte) in text.iter_mut().zip(bytes) {
                let high = usize::from(byte / 16);
                let low = usize::from(byte % 16);
                *pair = [DIGITS[high], DIGITS[low]];
            }
            let digits = text
                .as_flattened()
                .get(..2 * bytes.len())
                .unwrap_or_default();
            f.write_str(str::from_utf8(digits).unwrap_or_default())?;
        }
        Ok(())
    }
}
