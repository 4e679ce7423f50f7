// Names in byte code: the name part of name_object.rs. Any bytes become a path or a numbered refusal.
#![tactic(auto)]

ghost use Rattle.std.specs.Prelude.{◌≡◌, ◌+◌, ◌*◌, ◌<◌, ◌≤◌, length};
ghost use Rattle.pkg_length.specs.Refusal.{said, said_as};
ghost use Rattle.name_object.specs.Component.{component_limit, lead_ok, digit_ok, char_ok};
ghost use Rattle.name_object.specs.Memory.{name_of, told};
ghost use Rattle.name_object.specs.Name.{byte_at, name_read, prefix_of, run_at, judged, name_string_answer};
ghost use Rattle.name_object.specs.Inside.{seg_char, name_at, segment_end, segments_end};

use pkg_length::AmlError;

pub mod inner;

// A path has at most so many components.
pub const COMPONENTS: usize = 32;

// Four bytes for each.
pub const PATH_BYTES: usize = 4 * COMPONENTS;

const NULL_NAME: u8 = 0x00;

const DUAL_NAME_PREFIX: u8 = 0x2E;

const MULTI_NAME_PREFIX: u8 = 0x2F;

// The first of a component's four bytes, where it is the root. No enum: a component is four bytes of a path's memory (`path_ok`).
pub const ROOT_CHAR: u8 = 0x5C;

// The same, where it leads to the scope above.
pub const PREFIX_CHAR: u8 = 0x5E;

// A segment of a name: a lead, then three of lead or digit.
#[derive(Clone, Copy, Debug, PartialEq, Eq)]
pub struct NameSeg(pub [u8; 4]);

// A path: how many components, and four bytes for each: a segment, or 5C or 5E and zeros. Spare bytes are zero, so equal paths are equal values.
// An array and a count: no heap (docs/DECISIONS.md), and `from_components`, klem.h's path and `path_of_name` speak of both. Any memory is taken and tested (26), by `path_ok`.
#[derive(Clone, Copy, Debug, PartialEq, Eq)]
pub struct AmlName {
    pub count: usize,
    pub bytes: [u8; PATH_BYTES],
}

// A path that was read, and the bytes used.
#[derive(Clone, Copy, Debug, PartialEq, Eq)]
pub struct NameRead {
    pub name: AmlName,
    pub used: usize,
}

// That many segments from an offset on.
#[derive(Clone, Copy)]
struct Run {
    from: usize,
    count: usize,
}

#[tactic(auto, unfolding(crate::specs::Component::lead_ok))]
pub fn is_lead_name_char(byte: u8) -> bool
    ensures { result ≡ lead_ok byte }
{
    (byte == b'_') | ((b'A' <= byte) & (byte <= b'Z'))
}

#[tactic(auto, unfolding(crate::specs::Component::digit_ok))]
pub fn is_digit_char(byte: u8) -> bool
    ensures { result ≡ digit_ok byte }
{
    (b'0' <= byte) & (byte <= b'9')
}

#[tactic(auto, unfolding(crate::specs::Component::char_ok))]
pub fn is_name_char(byte: u8) -> bool
    ensures { result ≡ char_ok byte }
{
    is_lead_name_char(byte) | is_digit_char(byte)
}

// Character k of a segment: the first is a lead.
#[tactic(auto, unfolding(crate::specs::Inside::seg_char))]
fn is_seg_char(k: usize, byte: u8) -> bool
    ensures { result ≡ seg_char k byte }
{
    if k == 0 {
        return is_lead_name_char(byte);
    }
    is_name_char(byte)
}

// The byte at an offset, or that the part ends before it.
#[tactic(auto, unfolding(crate::specs::Name::byte_at))]
fn byte_at(input: &[u8], at: usize) -> Result<u8, AmlError>
    ensures { said result ≡ byte_at input.now at }
{
    if input.len() <= at {
        return Err(AmlError::UnexpectedEndOfStream(input.len()));
    }
    Ok(input[at])
}

// One segment at `at`; the offset after it.
fn name_seg(input: &[u8], at: usize) -> Result<usize, AmlError>
    requires { at ≤ length input.now }
    ensures { said result ≡ segment_end input.now at }
{
    // By index: the byte behind the last is asked for too, and is refused (1).
    for k in 0..4 {
        let i = at + k;
        if !is_seg_char(k, byte_at(input, i)?) {
            return Err(AmlError::BadNameByte(i));
        }
    }
    Ok(at + 4)
}

// The segments of a run: all are read, however many a path may hold. The offset after them.
fn name_segs(input: &[u8], run: Run) -> Result<usize, AmlError>
    requires { run.from ≤ length input.now }
    ensures { said result ≡ segments_end input.now run.from run.count }
{
    let mut at = run.from;
    for _done in 0..run.count {
        at = name_seg(input, at)?;
    }
    Ok(at)
}

// Where the segments of a NamePath start, and how many there are. NamePath := NullName | DualNamePath | MultiNamePath | NameSeg;
// NullName := 0x00; DualNamePath := 0x2e NameSeg NameSeg; MultiNamePath := 0x2f ByteData{SegCount} NameSeg(SegCount)
fn name_path(input: &[u8], at: usize) -> Result<Run, AmlError>
    requires { at ≤ length input.now }
    ensures { said result ≡ run_at input.now at }
{
    match byte_at(input, at)? {
        NULL_NAME => Ok(Run {
            from: at + 1,
            count: 0,
        }),
        DUAL_NAME_PREFIX => Ok(Run {
            from: at + 1,
            count: 2,
        }),
        MULTI_NAME_PREFIX => {
            let count = byte_at(input, at + 1)?;
            Ok(Run {
                from: at + 2,
                count: usize::from(count),
            })
        }
        _ => Ok(Run { from: at, count: 1 }),
    }
}

// The bytes before the NamePath: one `\`, or the `^`s.
fn prefixes(input: &[u8]) -> usize
    ensures { (result ≡ length (prefix_of input.now)) × (result ≤ length input.now) }
{
    if !input.is_empty() && input[0] == ROOT_CHAR {
        return 1;
    }
    input.iter().take_while(|b| **b == PREFIX_CHAR).count()
}

// The path of `pre` bytes of prefix and a run of segments.
fn build(input: &[u8], pre: usize, run: Run) -> AmlName
    requires { (pre ≡ length (prefix_of input.now)) × (pre ≤ length input.now) × (run.from + 4 * run.count ≤ length input.now) × (pre + run.count ≤ component_limit) }
    ensures { result ≡ name_of component_limit (name_at input.now run.from run.count).path }
{
    let mut name = inner::empty();
    for byte in &input[..pre] {
        name = inner::push(name, [*byte, 0, 0, 0]);
    }
    // By index: a run is places in the input, as `name_at` has it.
    for j in 0..run.count {
        let at = run.from + 4 * j;
        name = inner::push(
            name,
            [input[at], input[at + 1], input[at + 2], input[at + 3]],
        );
    }
    name
}

// The name of `pre` bytes of prefix and a run of segments, all of which were read: how many components it has decides.
fn named(input: &[u8], pre: usize, run: Run) -> Result<NameRead, AmlError>
    requires { (pre ≡ length (prefix_of input.now)) × (pre ≤ length input.now) × (run.from + 4 * run.count ≤ length input.now) }
    ensures { said_as name_read result ≡ told component_limit (judged component_limit (name_at input.now run.from run.count)) }
{
    if pre + run.count == 0 {
        return Err(AmlError::EmptyNamesAreInvalid);
    }
    if COMPONENTS < pre + run.count {
        return Err(AmlError::TooManyComponents);
    }
    Ok(NameRead {
        name: build(input, pre, run),
        used: run.from + 4 * run.count,
    })
}

// NameString := <RootChar('\\') NamePath> | <PrefixPath NamePath>; PrefixPath := Nothing | <'^' PrefixPath>
pub fn name_string(input: &[u8]) -> Result<NameRead, AmlError>
    ensures { said_as name_read result ≡ told component_limit (name_string_answer component_limit input.now) }
{
    let pre = prefixes(input);
    let run = name_path(input, pre)?;
    name_segs(input, run)?;
    named(input, pre, run)
}
