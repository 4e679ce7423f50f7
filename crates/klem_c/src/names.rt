// Names.
ghost use Rattle.std.specs.Prelude.{◌≡◌};
ghost use Rattle.name_object.specs.Component.{lead_ok, digit_ok, char_ok};
ghost use Rattle.klem_c.specs.Paths.{klem_name_string_after};

use crate::{reply, slices};

#[unsafe(no_mangle)]
pub extern "C" fn klem_is_lead_name_char(byte: u8) -> bool
    ensures { result ≡ lead_ok byte }
{
    name_object::is_lead_name_char(byte)
}

#[unsafe(no_mangle)]
pub extern "C" fn klem_is_digit_char(byte: u8) -> bool
    ensures { result ≡ digit_ok byte }
{
    name_object::is_digit_char(byte)
}

#[unsafe(no_mangle)]
pub extern "C" fn klem_is_name_char(byte: u8) -> bool
    ensures { result ≡ char_ok byte }
{
    name_object::is_name_char(byte)
}

#[unsafe(no_mangle)]
pub extern "C" fn klem_name_string(input: &[u8], out: &mut [u8], res: &mut [u64]) -> u64
    ensures { record { number = result; result = res.new; lent = out.new } ≡ klem_name_string_after input.now out.old res.old }
{
    let Some(res) = res.as_mut_array() else {
        return slices::BAD_SLICE;
    };
    let Some(out) = out.as_mut_array() else {
        return slices::BAD_SLICE;
    };
    reply::tell_path(out, res, name_object::name_string(input))
}
