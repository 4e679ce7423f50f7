// The list of levels, and the namespace drawn as a tree.
use namespace::listing;
use std::fmt;
use table::layout::{BindingWord, LEVELS, LevelWord, VALUES_AT};
use table::segments;

// The words of the levels from one down.
#[derive(Clone, Copy)]
pub struct List<'a>(pub &'a [u64]);

// How many levels there are, and each as ` DEPTH/TYPE/SEGMENT`.
impl<'a> fmt::Display for List<'a> {
    fn fmt<W: fmt::Write>(&self, f: &mut fmt::Formatter<W>) -> fmt::Result {
        write!(f, "{}", self.0.len())?;
        for word in self.0 {
            let level = listing::read(*word);
            let tens = digit(level.depth / 10);
            let [a, b, c, d] = level.segment;
            // Written at once: a write for each of its parts takes half as long again.
            let item = [
                if tens == b'0' { b' ' } else { tens },
                digit(level.depth),
                b'/',
                digit(u64::from(level.typ) as usize),
                b'/',
                if a == 0 { b'-' } else { a },
                b,
                c,
                d,
            ];
            if tens != b'0' {
                f.write_str(" ")?;
            }
            let length = if a == 0 { 6 } else { 9 };
            f.write_str(str::from_utf8(&item[..length]).unwrap_or_default())?;
        }
        Ok(())
    }
}

// The last digit. A level stands at most 32 deep (`component_limit`), so two digits show it.
fn digit(n: usize) -> u8 {
    b'0' + (n % 10) as u8
}

// A whole table, and how many levels it has.
#[derive(Clone, Copy)]
pub struct Tree<'a> {
    pub table: &'a [u64],
    pub levels: usize,
}

// How many levels there are; and each on a line of its own, further in the deeper it stands, with its bindings below it.
impl<'a> fmt::Display for Tree<'a> {
    fn fmt<W: fmt::Write>(&self, f: &mut fmt::Formatter<W>) -> fmt::Result {
        write!(f, "{}", self.levels)?;
        let mut bindings = self.table.iter().skip(LEVELS);
        for word in self.table.iter().take(self.levels) {
            let level = listing::read(*word);
            let typ = level.typ;
            if level.segment[0] == 0 {
                f.write_str("\n\\ ")?;
            } else {
                start_line(f, level.depth, &level.segment)?;
            }
            write!(f, "{typ}")?;
            let count = LevelWord(*word).count();
            for binding in bindings.by_ref().take(count) {
                write_binding(f, level.depth + 1, BindingWord(*binding), self.table)?;
            }
        }
        Ok(())
    }
}

// How far in the deepest binding stands: one level further than its own (`component_limit`).
const DEEPEST: usize = 33;

// A new line that starts so far in with a segment and a blank, at once: a write for each of these takes half as long again.
fn start_line<W: fmt::Write>(
    f: &mut fmt::Formatter<W>,
    depth: usize,
    segment: &[u8; 4],
) -> fmt::Result {
    let mut line = [b' '; 1 + 2 * DEEPEST + 5];
    line[0] = b'\n';
    let at = 1 + 2 * depth.min(DEEPEST);
    line[at..at + 4].copy_from_slice(segment);
    f.write_str(str::from_utf8(&line[..at + 5]).unwrap_or_default())
}

// A new line with `SEGMENT = VALUE handle HANDLE`, so far in. At once too, its numbers spelt by hand: the line of a small value takes twice as long by `write!`.
fn write_binding<W: fmt::Write>(
    f: &mut fmt::Formatter<W>,
    depth: usize,
    binding: BindingWord,
    table: &[u64],
) -> fmt::Result {
    let handle = binding.handle();
    let mut line = Line {
        bytes: [b' '; LONGEST],
        at: LONGEST,
    };
    line.number(u64::from(handle));
    line.text(b" handle ");
    line.number(listing::word(table, VALUES_AT + handle as usize));
    line.text(b" = ");
    line.text(&segments::bytes(binding.segment()));
    // The blanks that it starts with stand there.
    line.at = line.at.saturating_sub(2 * depth.min(DEEPEST));
    line.text(b"\n");
    let line = line.bytes.get(line.at..).unwrap_or_default();
    f.write_str(str::from_utf8(line).unwrap_or_default())
}

// The bytes of the longest line: its end and its blanks, a segment, ` = `, a number of 64 bits, ` handle `, a number of 32 bits.
const LONGEST: usize = 1 + 2 * DEEPEST + 4 + 3 + 20 + 8 + 10;

// A line that is put together from its end on, from where on it stands.
#[derive(Clone, Copy)]
struct Line {
    bytes: [u8; LONGEST],
    at: usize,
}

impl Line {
    fn text<const N: usize>(&mut self, text: &[u8; N]) {
        self.at = self.at.saturating_sub(N);
        if let Some(behind) = self.bytes.get_mut(self.at..)
            && let Some(place) = behind.first_chunk_mut::<N>()
        {
            *place = *text;
        }
    }

    fn number(&mut self, number: u64) {
        let mut rest = number;
        for _ in 0..20 {
            self.text(&[b'0' + (rest % 10) as u8]);
            rest /= 10;
            if rest == 0 {
                break;
            }
        }
    }
}
