// Frames in words.
ghost use Rattle.std.specs.Prelude.{◌≡◌, map, ◌++◌, drop};
ghost use Rattle.grammar.specs.Grammar.{cells};
ghost use Rattle.klem_c.specs.Result.{flag};
ghost use Rattle.klem_c.specs.Frames.{width_read, flags_at, frame_read, frame_words};

use crate::reply::Fault;
use crate::slices::FRAME;
use statement::frame::{CELLS, Frame, Width};

// Behind the flags and the numbers.
const WIDTH_AT: usize = 2 * CELLS;

// Its refusal is this library's own, 1004, and so it is no `TryFrom` of statement's.
pub(crate) fn width_in(bits: u64) -> Result<Width, Fault>
    ensures { result ≡ width_read bits }
{
    match bits {
        32 => Ok(Width::Bits32),
        64 => Ok(Width::Bits64),
        _ => Err(Fault::BadWidth(bits)),
    }
}

// Anything but 0 is set.
fn flags_in(words: &[u64; FRAME]) -> [bool; CELLS]
    ensures { result ≡ flags_at words.now }
{
    let mut set = [false; CELLS];
    // By index, here and below: of what a `zip` of `iter_mut` writes, the proof knows nothing behind the loop.
    for (cell, word) in words[..CELLS].iter().enumerate() {
        set[cell] = *word != 0;
    }
    set
}

fn put_flags(words: &mut [u64; FRAME], set: &[bool; CELLS])
    ensures { words.new ≡ map flag set.now ++ drop cells words.old }
{
    for (cell, flag) in set.iter().enumerate() {
        words[cell] = u64::from(*flag);
    }
}

// The frame that words hold. Inlined, here and below: a call that wants one cell or a fresh frame moves no other.
#[inline(always)]
pub(crate) fn frame_in(words: &[u64; FRAME]) -> Result<Frame, Fault>
    ensures { result ≡ frame_read words.now }
{
    let width = width_in(words[WIDTH_AT])?;
    let mut val = [0; CELLS];
    val.copy_from_slice(&words[CELLS..WIDTH_AT]);
    let set = flags_in(words);
    Ok(Frame { set, val, width })
}

#[inline(always)]
pub(crate) fn put_frame(words: &mut [u64; FRAME], frame: &Frame)
    ensures { words.new ≡ frame_words frame.now }
{
    put_flags(words, &frame.set);
    words[CELLS..WIDTH_AT].copy_from_slice(&frame.val);
    words[WIDTH_AT] = frame.width.into();
}
