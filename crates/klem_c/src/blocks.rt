// Control blocks and frames.
ghost use Rattle.std.specs.Prelude.{◌≡◌, []};
ghost use Rattle.statement.specs.Frames.{bits, width_of};
ghost use Rattle.klem_c.specs.Frames.{klem_frame_new_after, klem_frame_get_after, klem_frame_set_after};
ghost use Rattle.klem_c.specs.Blocks.{KlemCheck, KlemRun};

use crate::reply::Fault;
use crate::{frames, reply, slices};
use statement::frame;
use statement::frame::{CELLS, Frame};

#[unsafe(no_mangle)]
pub extern "C" fn klem_check(block: &[u8], res: &mut [u64]) -> u64
    ensures { KlemCheck block.now res.old (record { number = result; result = res.new; lent = [] }) }
{
    let Some(res) = res.as_mut_array() else {
        return slices::BAD_SLICE;
    };
    reply::tell(res, grammar::check(block))
}

#[unsafe(no_mangle)]
pub extern "C" fn klem_run(block: &[u8], frame: &mut [u64], budget: u64, res: &mut [u64]) -> u64
    ensures { KlemRun block.now frame.old budget res.old (record { number = result; result = res.new; lent = frame.new }) }
{
    let Some(res) = res.as_mut_array() else {
        return slices::BAD_SLICE;
    };
    let Some(frame) = frame.as_mut_array() else {
        return slices::BAD_SLICE;
    };
    let mut f = match frames::frame_in(frame) {
        Ok(f) => f,
        Err(fault) => return reply::refuse(res, fault),
    };
    match statement::run(block, &mut f, budget) {
        Ok(run) => {
            frames::put_frame(frame, &f);
            reply::write(res, reply::ran(run))
        }
        Err(e) => reply::write(res, reply::refused(e)),
    }
}

// The width in bits that a DSDT's revision says.
#[unsafe(no_mangle)]
pub extern "C" fn klem_width_of(revision: u8) -> u64
    ensures { result ≡ bits (width_of revision) }
{
    frame::width_of(revision).into()
}

// The same for an SSDT: its DSDT's.
#[unsafe(no_mangle)]
pub extern "C" fn klem_width_of_ssdt(dsdt: u8, ssdt: u8) -> u64
    ensures { result ≡ bits (width_of dsdt) }
{
    frame::width_of_ssdt(dsdt, ssdt).into()
}

#[unsafe(no_mangle)]
pub extern "C" fn klem_frame_new(frame: &mut [u64], width: u64, res: &mut [u64]) -> u64
    ensures { record { number = result; result = res.new; lent = frame.new } ≡ klem_frame_new_after frame.old width res.old }
{
    let Some(words) = frame.as_mut_array() else {
        return slices::BAD_SLICE;
    };
    let Some(res) = res.as_mut_array() else {
        return slices::BAD_SLICE;
    };
    match frames::width_in(width) {
        Ok(width) => {
            frames::put_frame(words, &Frame::new(width));
            reply::tell(res, Ok(()))
        }
        Err(fault) => reply::refuse(res, fault),
    }
}

#[unsafe(no_mangle)]
pub extern "C" fn klem_frame_get(frame: &[u64], cell: usize, res: &mut [u64]) -> u64
    ensures { record { number = result; result = res.new; lent = [] } ≡ klem_frame_get_after frame.now cell res.old }
{
    let (Some(res), Some(frame)) = (res.as_mut_array(), frame.as_array()) else {
        return slices::BAD_SLICE;
    };
    match frames::frame_in(frame) {
        Ok(f) => reply::tell(res, f.get(cell)),
        Err(fault) => reply::refuse(res, fault),
    }
}

#[unsafe(no_mangle)]
pub extern "C" fn klem_frame_set(
    frame: &mut [u64],
    cell: usize,
    number: u64,
    res: &mut [u64],
) -> u64
    ensures { record { number = result; result = res.new; lent = frame.new } ≡ klem_frame_set_after frame.old cell number res.old }
{
    let Some(res) = res.as_mut_array() else {
        return slices::BAD_SLICE;
    };
    let Some(frame) = frame.as_mut_array() else {
        return slices::BAD_SLICE;
    };
    match frames::frame_in(frame) {
        Ok(f) if cell < CELLS => {
            frames::put_frame(frame, &f.with(cell, number));
            reply::tell(res, Ok(()))
        }
        Ok(_) => reply::refuse(res, Fault::BadCell(cell)),
        Err(fault) => reply::refuse(res, fault),
    }
}
