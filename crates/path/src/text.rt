// Paths as text: what `from_str` and `as_string` do, byte by byte.
ghost use Rattle.std.specs.Prelude.{◌≡◌, List, [], ◌++◌, ◌+◌, ◌<◌, ◌≤◌, length, drop, slice_index};
ghost use Rattle.std.proofs.lemmas.List.Edits.{sets};
ghost use Rattle.name_object.specs.Component.{Component, component_limit};
ghost use Rattle.name_object.specs.Memory.{path_of_name};
ghost use Rattle.path.specs.Text.{text_of, reading, before};
ghost use Rattle.path.specs.Inside.{shown, root_of, Turns, Ended, after, is_mark, piece, length_of_piece};

use crate::inner::Path;
use crate::memory;
use name_object::inner::component;
use name_object::{PATH_BYTES, PREFIX_CHAR, ROOT_CHAR};
use pkg_length::AmlError;

// Stands for the characters that a segment of text lacks.
const PAD: u8 = b'_';

const DOT: u8 = b'.';

// A reader of text: components read, and characters of a segment that is begun; none before a segment.
#[derive(Clone, Copy)]
pub struct Reading {
    pub count: usize,
    pub chars: usize,
}

// One byte more; None where it makes a segment wrong. A segment is padded as it starts.
fn read_byte(out: &mut [u8; PATH_BYTES], s: Reading, b: u8) -> Option<Reading>
    requires { s.count < usize.MAX }
    ensures { Turns component_limit out.old s b out.new result }
{
    let Reading { count, chars } = s;
    if chars == 0 {
        if b == PREFIX_CHAR {
            memory::put(out, count, [b, 0, 0, 0]);
            return Some(Reading {
                count: count + 1,
                chars: 0,
            });
        }
        if name_object::is_lead_name_char(b) {
            memory::put(out, count, [b, PAD, PAD, PAD]);
            return Some(Reading { count, chars: 1 });
        }
        return None;
    }
    if b == DOT {
        return Some(Reading {
            count: count + 1,
            chars: 0,
        });
    }
    if chars < 4 {
        if name_object::is_name_char(b) {
            memory::put_char(out, count, chars, b);
            return Some(Reading {
                count,
                chars: chars + 1,
            });
        }
    }
    None
}

// A `\` at the front, where there is one: how many components that is, and bytes of text.
pub(crate) fn read_root(out: &mut [u8; PATH_BYTES], b: u8) -> usize
    ensures { (result ≡ length (root_of b)) × (out.old ≡ shown component_limit [] → out.new ≡ shown component_limit (root_of b)) }
{
    if b != ROOT_CHAR {
        return 0;
    }
    memory::put(out, 0, [ROOT_CHAR, 0, 0, 0]);
    1
}

// Dot-separated parts from an offset on, behind as many components: how many there are then, or where a wrong segment starts.
pub(crate) fn read_parts(
    out: &mut [u8; PATH_BYTES],
    text: &[u8],
    from: usize,
) -> Result<usize, AmlError>
    requires { from ≤ length text.now }
    ensures { (done : List Component) → out.old ≡ shown component_limit done → from ≡ length done →
        Ended component_limit out.new result (after done (reading before from (drop from text.now))) }
{
    let mut s = Reading {
        count: from,
        chars: 0,
    };
    // By index: where a segment is wrong its place in the whole text is told, so that an iterator would count too.
    for i in from..text.len() {
        match read_byte(out, s, text[i]) {
            Some(t) => s = t,
            None => return Err(AmlError::InvalidNameSeg(i - s.chars)),
        }
    }
    if s.chars == 0 {
        return Err(AmlError::InvalidNameSeg(text.len()));
    }
    Ok(s.count + 1)
}

// A `\` or a `^`, by the first byte of a component: one byte of text.
fn is_mark(lead: u8) -> bool
    ensures { result ≡ is_mark lead }
{
    (lead == ROOT_CHAR) | (lead == PREFIX_CHAR)
}

// How many bytes a component has in text: one, or four and a dot if more follows.
#[tactic(auto, unfolding(crate::specs::Inside::length_of_piece))]
fn piece_length(more: bool, lead: u8) -> usize
    ensures { result ≡ length_of_piece more lead }
{
    if is_mark(lead) {
        1
    } else if more {
        5
    } else {
        4
    }
}

// The text of a component from an offset on; where it ends.
fn write_piece(out: &mut [u8], at: usize, more: bool, four: [u8; 4]) -> usize
    requires { at + length_of_piece more (slice_index four 0) ≤ length out.old }
    ensures { (out.new ≡ sets out.old at (piece more four)) × (result ≡ at + length_of_piece more (slice_index four 0)) }
{
    if is_mark(four[0]) {
        out[at] = four[0];
        return at + 1;
    }
    out[at..at + 4].copy_from_slice(&four);
    if more {
        out[at + 4] = DOT;
        return at + 5;
    }
    at + 4
}

impl<'a> Path<'a> {
    // How many bytes the text of the path has.
    pub(crate) fn text_length(&self) -> usize
        ensures { result ≡ length (text_of (path_of_name self.now.name.now)) }
    {
        let count = self.name.count;
        let mut n = 0;
        // By index, as `component` has it, and the last has no dot.
        for i in 0..count {
            n += piece_length(i + 1 < count, component(self.name, i)[0]);
        }
        n
    }

    // The text of the path, at the start of what is lent.
    pub(crate) fn write_text(&self, out: &mut [u8])
        requires { length (text_of (path_of_name self.now.name.now)) ≤ length out.old }
        ensures { out.new ≡ text_of (path_of_name self.now.name.now) ++ drop (length (text_of (path_of_name self.now.name.now))) out.old }
    {
        let count = self.name.count;
        let mut at = 0;
        // By index, for the same reasons.
        for i in 0..count {
            at = write_piece(out, at, i + 1 < count, component(self.name, i));
        }
    }
}
