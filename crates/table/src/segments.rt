// Segments as numbers: four characters in base 37, in byte order.
ghost use Rattle.std.specs.Prelude.{◌≡◌, ◌<◌, slice_index};
ghost use Rattle.table.specs.Tree.{number_of_char, number};
ghost use Rattle.table.specs.Levels.{char_of_number, characters_of_segment, bytes_of_segment};

// A letter's number is its byte, less this.
const LETTERS: u8 = b'A' - 10;

// A character's number: 0-9, A-Z, `_`. The digits end before 0x3A, the letters before 0x5B.
#[tactic(auto, using(std::proofs::lemmas::Bool::Decides::nat_tests), unfolding(crate::specs::Tree::number_of_char))]
fn char_number(c: u8) -> u64
    ensures { (result ≡ number_of_char c) × (result < 37) }
{
    if c < 0x3A {
        return (c % 16) as u64;
    }
    if c < 0x5B {
        return (c - LETTERS) as u64;
    }
    36
}

// A segment's number.
pub fn number(characters: [u8; 4]) -> u64
    ensures { result ≡ number (slice_index characters 0) (slice_index characters 1) (slice_index characters 2) (slice_index characters 3) }
{
    let first = char_number(characters[0]);
    let second = char_number(characters[1]);
    let third = char_number(characters[2]);
    let fourth = char_number(characters[3]);
    ((first * 37 + second) * 37 + third) * 37 + fourth
}

// The character of a digit in base 37.
#[tactic(auto, using(std::proofs::lemmas::Bool::Decides::nat_tests), unfolding(crate::specs::Levels::char_of_number))]
fn char_of(digit: u64) -> u8
    ensures { result ≡ char_of_number digit }
{
    if digit < 10 {
        return digit as u8 + b'0';
    }
    if digit < 36 {
        return digit as u8 + LETTERS;
    }
    b'_'
}

// The four characters of a number.
pub fn characters(segment: u64) -> [u8; 4]
    ensures { result ≡ characters_of_segment segment }
{
    let first = char_of(segment / 37 / 37 / 37);
    let second = char_of(segment / 37 / 37 % 37);
    let third = char_of(segment / 37 % 37);
    let fourth = char_of(segment % 37);
    [first, second, third, fourth]
}

// A segment's four bytes; the root, whose number is 0, has none.
#[tactic(auto, using(std::proofs::lemmas::Bool::Decides::nat_tests), unfolding(crate::specs::Levels::bytes_of_segment))]
pub fn bytes(segment: u64) -> [u8; 4]
    ensures { result ≡ bytes_of_segment segment }
{
    if segment == 0 {
        [0; 4]
    } else {
        characters(segment)
    }
}
