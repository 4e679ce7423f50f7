// The words of a line, and what they spell.
ghost use Rattle.std.specs.Prelude.{◌<◌, ◌≤◌, length, IfSome};
ghost use Rattle.std.specs.Iterator.{at_most};

// No hex spells more bytes, and no call is given or gives more.
pub const MOST_BYTES: usize = 100_000;

fn is_blank(byte: u8) -> bool {
    matches!(byte, b' ' | b'\t')
}

// A line without the blanks and carriage returns at its end. `trim_ascii_end` would drop a form feed too, which is part of a word.
pub fn trimmed(line: &[u8]) -> &[u8] {
    let last = line.iter().rposition(|b| !is_blank(*b) && *b != b'\r');
    match last {
        Some(last) => &line[..=last],
        None => &[],
    }
}

// The words that are left of a line: each is a run of bytes that are no blanks.
#[derive(Clone, Copy)]
pub struct Words<'a> {
    rest: &'a [u8],
}

impl<'a> Words<'a> {
    pub fn of(line: &'a [u8]) -> Words<'a> {
        Words { rest: line }
    }

    // The bytes behind the blank that ends the last word.
    pub fn behind(self) -> &'a [u8] {
        match self.rest {
            [_, behind @ ..] => behind,
            [] => self.rest,
        }
    }
}

impl<'a> Iterator for Words<'a> {
    type Item = &'a [u8];

    ghost remaining = { λ s. at_most (length s.rest.now) };

    fn next(&mut self) -> Option<&'a [u8]> {
        let from = self.rest.iter().position(|b| !is_blank(*b))?;
        let word = &self.rest[from..];
        let (_first, behind) = word.split_first()?;
        let more = behind
            .iter()
            .position(|b| is_blank(*b))
            .unwrap_or(behind.len());
        self.rest = &behind[more..];
        word.get(..=more)
    }
}

fn digit(byte: u8, radix: u32) -> Option<u8>
    requires { (2 ≤ radix) × (radix ≤ 36) }
    ensures { IfSome result (λ d. d < radix) }
{
    let digit = char::from(byte).to_digit(radix)?;
    Some(digit as u8)
}

fn digits(word: &[u8], radix: u32) -> Option<u64>
    requires { (2 ≤ radix) × (radix ≤ 36) }
{
    if word.is_empty() {
        return None;
    }
    let mut number = 0u64;
    for byte in word {
        let digit = digit(*byte, radix)?;
        number = number
            .checked_mul(u64::from(radix))?
            .checked_add(u64::from(digit))?;
    }
    Some(number)
}

// A number of 64 bits: decimal, or `0x` and up to 16 hex digits. `parse` would take a sign too, which no script may write.
pub fn number(word: &[u8]) -> Option<u64> {
    match word {
        [b'0', b'x' | b'X', hex @ ..] if hex.len() <= 16 => digits(hex, 16),
        _ => digits(word, 10),
    }
}

// The byte that two hex digits spell.
fn pair([high, low]: [u8; 2]) -> Option<u8> {
    Some(digit(high, 16)? * 16 + digit(low, 16)?)
}

// The bytes that pairs of hex digits spell, written to the front of the room; `-` spells none.
pub fn decoded<'a>(word: &[u8], room: &'a mut [u8]) -> Option<&'a [u8]> {
    if matches!(word, [b'-']) {
        return Some(&[]);
    }
    let (pairs, odd) = word.as_chunks::<2>();
    if !odd.is_empty() {
        return None;
    }
    let bytes = room.get_mut(..pairs.len())?;
    for (byte, digits) in bytes.iter_mut().zip(pairs) {
        *byte = pair(*digits)?;
    }
    Some(bytes)
}
