// Segments: four characters in an image, the first one highest, and a number in base 37 in the table.
ghost use Rattle.std.specs.Prelude.{◌≡◌, ◌^◌, ◌<◌};
ghost use Rattle.image.specs.Image.{bytes_of_segment};
ghost use Rattle.image.specs.Reader.{are_chars_ok, segment_number};

// Four characters that are a segment. path's `is_segment` is the same test, private to path: nothing else here goes by paths.
pub(crate) fn chars_ok(v: u64) -> bool
    requires { v < 2 ^ 32 }
    ensures { result ≡ are_chars_ok v }
{
    let characters = (v as u32).to_be_bytes();
    name_object::is_lead_name_char(characters[0])
        & name_object::is_name_char(characters[1])
        & name_object::is_name_char(characters[2])
        & name_object::is_name_char(characters[3])
}

// Their number.
pub(crate) fn number(v: u64) -> u64
    requires { v < 2 ^ 32 }
    ensures { result ≡ segment_number v }
{
    table::segments::number((v as u32).to_be_bytes())
}

// The four characters of a segment's number.
pub(crate) fn chars(s: u64) -> u64
    ensures { (result ≡ bytes_of_segment s) × (result < 2 ^ 32) }
{
    u64::from(u32::from_be_bytes(table::segments::characters(s)))
}
