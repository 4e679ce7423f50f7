// Paths: what namespace.rs does with `AmlName`. Any memory is taken; what holds no path is refused (26) before anything else.
#![tactic(auto)]

ghost use Rattle.std.specs.Prelude.{◌≡◌, [], ◌∷◌, length};
ghost use Rattle.pkg_length.specs.Refusal.{gives, and_then, said};
ghost use Rattle.name_object.specs.Component.{root, component_limit};
ghost use Rattle.name_object.specs.Memory.{name_of, named, path_in_answer};
ghost use Rattle.path.specs.Normal.{normal, resolved, parent_of, absolute, is_normal_path, one_segment, segment_path};
ghost use Rattle.pkg_length.specs.Wrote.{wrote};
ghost use Rattle.path.specs.Text.{text_within, from_text};

use inner::Path;
use name_object::inner::{empty, pop, push};
use name_object::{AmlName, COMPONENTS, NameSeg, PATH_BYTES, ROOT_CHAR};
use pkg_length::AmlError;

mod climb;
pub mod inner;
mod memory;
mod text;
mod valid;

// The longest text of a path: four bytes for each component, and a dot between two.
pub const TEXT_BYTES: usize = 5 * COMPONENTS - 1;

// `\`.
pub fn root() -> AmlName
    ensures { result ≡ name_of component_limit (root ∷ []) }
{
    push(empty(), [ROOT_CHAR, 0, 0, 0])
}

pub fn from_name_seg(seg: NameSeg) -> Result<AmlName, AmlError>
    ensures { said result ≡ named component_limit (segment_path seg.0) }
{
    if !valid::is_segment(seg.0) {
        return Err(AmlError::BadPath);
    }
    Ok(push(empty(), seg.0))
}

// Any count and bytes. The Rust asserts that there is a component; here the empty path is a path.
pub fn from_components(count: usize, bytes: [u8; PATH_BYTES]) -> Result<AmlName, AmlError>
    ensures { said result ≡ named component_limit (path_in_answer component_limit (record { count = count; bytes = bytes })) }
{
    let name = AmlName { count, bytes };
    Path::of(&name)?;
    Ok(name)
}

// Text: an optional `\`, then dot-separated parts, each any number of `^` and a segment.
pub fn from_str(text: &[u8]) -> Result<AmlName, AmlError>
    ensures { said result ≡ named component_limit (from_text component_limit text.now) }
{
    if text.is_empty() {
        return Err(AmlError::EmptyNamesAreInvalid);
    }
    let mut made = empty();
    made.count = text::read_root(&mut made.bytes, text[0]);
    if made.count < text.len() {
        made.count = text::read_parts(&mut made.bytes, text, made.count)?;
    }
    memory::fits(made.count)?;
    Ok(made)
}

// The text of a path, at the start of `out`; the answer gives its length, at most TEXT_BYTES.
pub fn as_string(name: AmlName, out: &mut [u8]) -> Result<usize, AmlError>
    ensures { record { out = out.new; said = said result } ≡ wrote out.old (and_then (path_in_answer component_limit name) (text_within (length out.old))) }
{
    let path = Path::of(&name)?;
    let n = path.text_length();
    if out.len() < n {
        return Err(AmlError::OutTooSmall(0));
    }
    path.write_text(out);
    Ok(n)
}

// The next three are twins in form alone: a function that takes the question as a closure has a longer contract than they have bodies.
// No `^` in it.
pub fn is_normal(name: AmlName) -> Result<bool, AmlError>
    ensures { said result ≡ and_then (path_in_answer component_limit name) (λ cs. gives (is_normal_path cs)) }
{
    let path = Path::of(&name)?;
    Ok(path.is_normal())
}

// It starts at `\`.
pub fn is_absolute(name: AmlName) -> Result<bool, AmlError>
    ensures { said result ≡ and_then (path_in_answer component_limit name) (λ cs. gives (absolute cs)) }
{
    let path = Path::of(&name)?;
    Ok(path.is_absolute())
}

// It is one bare segment, which a search asks for in each enclosing scope.
pub fn search_rules_apply(name: AmlName) -> Result<bool, AmlError>
    ensures { said result ≡ and_then (path_in_answer component_limit name) (λ cs. gives (one_segment cs)) }
{
    let path = Path::of(&name)?;
    Ok(path.is_one_segment())
}

// Without prefixes: left to right, each `^` takes away the segment before it.
pub fn normalize(name: AmlName) -> Result<AmlName, AmlError>
    ensures { said result ≡ named component_limit (and_then (path_in_answer component_limit name) (normal component_limit)) }
{
    let path = Path::of(&name)?;
    path.normal()
}

// Against a scope, which must be absolute. Where `name` is absolute it is normalised alone.
pub fn resolve(name: AmlName, scope: AmlName) -> Result<AmlName, AmlError>
    ensures { said result ≡ named component_limit (and_then (path_in_answer component_limit name) (λ cs. and_then (path_in_answer component_limit scope) (λ ss. resolved component_limit cs ss))) }
{
    let path = Path::of(&name)?;
    let below = Path::of(&scope)?;
    path.resolved(&below)
}

// The normal form without its last segment.
pub fn parent(name: AmlName) -> Result<AmlName, AmlError>
    ensures { said result ≡ named component_limit (and_then (path_in_answer component_limit name) (parent_of component_limit)) }
{
    let normal = normalize(name)?;
    if valid::is_top(&normal) {
        return Err(AmlError::RootHasNoParent);
    }
    Ok(pop(normal))
}
