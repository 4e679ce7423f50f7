// Whole tables that are written, and images of the namespace.
use crate::answer::Answer;
use crate::args::{Call, Hex, Length};
use crate::fault::Fault;

pub fn write<'a>(call: Call, bytes: &mut [u8], room: &'a mut [u8]) -> Result<Answer<'a>, Fault> {
    let words: (Hex, u8, Hex, Hex, Length) = call.five()?;
    let (signature, revision, rest, body, length) = words;
    let body = body.decoded(bytes)?;
    let signature = signature.exactly(Fault::FourBytes)?;
    let rest = rest.exactly(Fault::RestBytes)?;
    let out = room.get_mut(..length.0).ok_or(Fault::Length)?;
    let written = header::write(&signature, revision, &rest, body, out)?;
    Ok(Answer::Bytes(out.get(..written).unwrap_or_default()))
}

pub fn image<'a>(call: Call, table: &[u64], room: &'a mut [u8]) -> Result<Answer<'a>, Fault> {
    let length: Length = call.one()?;
    let out = room.get_mut(..length.0).ok_or(Fault::Length)?;
    let written = image::write(table, out)?;
    Ok(Answer::Bytes(out.get(..written).unwrap_or_default()))
}

// The table of an image.
pub fn load<'a>(call: Call, bytes: &mut [u8], table: &mut [u64]) -> Result<Answer<'a>, Fault> {
    Ok(Answer::Loaded(image::read(call.bytes(bytes)?, table)?))
}
