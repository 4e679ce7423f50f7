// Where reading stands: what a part of a block has left.
ghost use Rattle.std.specs.Prelude.{◌≡◌, ◌+◌, ◌-◌, ◌≤◌, length, take, drop};
ghost use Rattle.pkg_length.specs.Refusal.{block_limit};

// The bytes of a part that are not read yet, and the place in the block where they begin.
#[derive(Clone, Copy)]
pub(crate) struct Unread<'a> {
    pub bytes: &'a [u8],
    pub place: usize,
    ghost short: { place + length bytes.now ≤ block_limit },
}

impl<'a> Unread<'a> {
    // Behind the next byte.
    pub(crate) fn next(&self) -> Unread<'a>
        requires { 1 ≤ length self.now.bytes.now }
        ensures place { result.place ≡ self.now.place + 1 }
        ensures bytes { result.bytes.now ≡ drop 1 self.now.bytes.now }
    {
        Unread {
            bytes: &self.bytes[1..],
            place: self.place + 1,
        }
    }

    // From a place on, to the end of the part.
    pub(crate) fn onward(&self, place: usize) -> Unread<'a>
        requires { (self.now.place ≤ place) × (place ≤ self.now.place + length self.now.bytes.now) }
        ensures place { result.place ≡ place }
        ensures bytes { result.bytes.now ≡ drop (place - self.now.place) self.now.bytes.now }
    {
        Unread {
            bytes: &self.bytes[place - self.place..],
            place,
        }
    }

    // A package's body, as a part of its own: from one place to another.
    pub(crate) fn body(&self, place: usize, end: usize) -> Unread<'a>
        requires { (self.now.place ≤ place) × ((place ≤ end) × (end ≤ self.now.place + length self.now.bytes.now)) }
        ensures place { result.place ≡ place }
        ensures bytes { result.bytes.now ≡ take (end - place) (drop (place - self.now.place) self.now.bytes.now) }
    {
        Unread {
            bytes: &self.bytes[place - self.place..end - self.place],
            place,
        }
    }
}
