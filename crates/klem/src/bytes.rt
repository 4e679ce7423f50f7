// Package lengths, names, headers and blocks in their bytes.
use crate::answer::{Answer, Byte};
use crate::args::{Call, Length};
use crate::fault::Fault;
use name_object::NameSeg;
use pkg_length::PkgLength;
use statement::frame;

#[derive(Clone, Copy, PartialEq, Eq)]
pub enum OnBytes {
    Pkg,
    Raw,
    Fit,
    Still,
    Char,
    Name,
    Seg,
    Check,
    Table,
    Width,
    SsdtWidth,
}

impl OnBytes {
    pub fn answer<'a>(self, call: Call, bytes: &mut [u8]) -> Result<Answer<'a>, Fault> {
        let answer = match self {
            OnBytes::Pkg => Answer::Pkg(pkg_length::pkg_length(call.bytes(bytes)?)?),
            OnBytes::Raw => Answer::Raw(pkg_length::raw_pkg_length(call.bytes(bytes)?)?),
            OnBytes::Fit => Answer::Length(fit(call, bytes)?),
            OnBytes::Still => Answer::Is(still(call, bytes)?),
            OnBytes::Char => Answer::Byte(char(call.bytes(bytes)?)?),
            OnBytes::Name => Answer::Name(name_object::name_string(call.bytes(bytes)?)?),
            OnBytes::Seg => Answer::Path(path::from_name_seg(seg(call.bytes(bytes)?)?)?),
            OnBytes::Check => {
                grammar::check(call.bytes(bytes)?)?;
                Answer::Done
            }
            OnBytes::Table => Answer::Table(header::read(call.bytes(bytes)?)?),
            OnBytes::Width => Answer::Number(u64::from(frame::width_of(call.one()?))),
            OnBytes::SsdtWidth => {
                let (dsdt, ssdt) = call.two()?;
                Answer::Number(u64::from(frame::width_of_ssdt(dsdt, ssdt)))
            }
        };
        Ok(answer)
    }
}

// So many bytes, whatever they are.
fn stream(bytes: &[u8], length: Length) -> Result<&[u8], Fault> {
    bytes.get(..length.0).ok_or(Fault::Length)
}

fn fit(call: Call, bytes: &[u8]) -> Result<PkgLength, Fault> {
    let (length, raw): (Length, u64) = call.two()?;
    let stream = stream(bytes, length)?;
    Ok(PkgLength::from_raw_length(stream, raw as usize)?)
}

fn still(call: Call, bytes: &[u8]) -> Result<bool, Fault> {
    let (end, length): (u64, Length) = call.two()?;
    let package = PkgLength {
        raw_length: 0,
        end_offset: end as usize,
    };
    Ok(package.still_parsing(stream(bytes, length)?))
}

fn char(bytes: &[u8]) -> Result<Byte, Fault> {
    let [byte] = bytes else {
        return Err(Fault::OneByte);
    };
    Ok(Byte {
        is_lead: name_object::is_lead_name_char(*byte),
        is_digit: name_object::is_digit_char(*byte),
        is_name: name_object::is_name_char(*byte),
    })
}

// Not by `Hex::exactly`: it tells of the count before it tells of the digits.
fn seg(bytes: &[u8]) -> Result<NameSeg, Fault> {
    let [first, second, third, fourth] = bytes else {
        return Err(Fault::FourBytes);
    };
    Ok(NameSeg([*first, *second, *third, *fourth]))
}
