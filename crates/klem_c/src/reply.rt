// What a result says, and its eight words.
ghost use Rattle.std.specs.Prelude.{◌≡◌, ℕ, List, [], ◌∷◌, true};
ghost use Rattle.pkg_length.specs.Refusal.{gives, refuses, refused, said};
ghost use Rattle.name_object.specs.declared.AmlName.{AmlName};
ghost use Rattle.klem_c.specs.Result.{result_of, valued, nothing, one, flag, leaves, answers, fault_said};
ghost use Rattle.klem_c.specs.Paths.{out_of};
ghost use Rattle.klem_c.specs.Headers.{signature_number, header_words};
ghost use Rattle.klem_c.specs.Lengths.{raw_words, length_words, pkg_words};
ghost use Rattle.klem_c.specs.Images.{counts_words};
ghost use Rattle.klem_c.specs.Tables.{hit_words};
ghost use Rattle.klem_c.specs.Blocks.{run_words};
ghost use Rattle.namespace.specs.Search.{found_hit};
ghost use Rattle.statement.specs.Promise.{end_said};

use crate::slices;
use crate::slices::{PATH, RESULT};
use header::{Header, Signature};
use image::Counts;
use name_object::{AmlName, NameRead};
use namespace::{AmlHandle, Found, LevelFound};
use pkg_length::{AmlError, Pkg, PkgLength, Raw, Refusal};
use statement::{End, Execution};

// The library's own refusals, which the paper doesn't number.
#[derive(Clone, Copy, Debug, PartialEq, Eq)]
pub(crate) enum Fault {
    // A level's type is over 5.
    BadType,
    // A frame has no such cell.
    BadCell(usize),
    // A frame's width is neither 32 nor 64.
    BadWidth(u64),
}

// What stands in a result where a call gives a value: up to three words behind 0 and 0.
pub(crate) trait Words {
    ghost words: { Self → List ℕ };

    fn reply(self) -> [u64; RESULT]
        ensures { result ≡ result_of (gives (words self)) };
}

// A value with a path, which goes to `out`.
pub(crate) trait Named: Words {
    ghost path: { Self → AmlName };

    fn name(&self) -> &AmlName
        ensures { result.now ≡ path self.now };
}

fn given(first: u64, second: u64, third: u64) -> [u64; RESULT]
    ensures { result ≡ 0 ∷ 0 ∷ first ∷ second ∷ third ∷ 0 ∷ 0 ∷ 0 ∷ [] }
{
    [0, 0, first, second, third, 0, 0, 0]
}

fn refusal(number: u64, place: u64) -> [u64; RESULT]
    ensures { result ≡ result_of (refuses number place) }
{
    [number, place, 0, 0, 0, 0, 0, 0]
}

pub(crate) fn refused(e: AmlError) -> [u64; RESULT]
    ensures { result ≡ result_of (refused e) }
{
    let Refusal(number, place) = e.into();
    refusal(number as u64, place as u64)
}

// Writes the result, and gives its first word.
pub(crate) fn write(res: &mut [u64; RESULT], words: [u64; RESULT]) -> u64
    ensures { record { number = result; result = res.new; lent = [] } ≡ leaves true res.old [] words [] }
{
    *res = words;
    words[0]
}

fn answered<T: Words>(answer: Result<T, AmlError>) -> [u64; RESULT]
    ensures { result ≡ result_of (valued T.words (said answer)) }
{
    match answer {
        Ok(value) => value.reply(),
        Err(e) => refused(e),
    }
}

// What the layer below answers.
pub(crate) fn tell<T: Words>(res: &mut [u64; RESULT], answer: Result<T, AmlError>) -> u64
    ensures { record { number = result; result = res.new; lent = [] } ≡ answers true res.old (valued T.words (said answer)) }
{
    write(res, answered(answer))
}

// The same, and the path to `out` where there is one. Inlined, and so is `put_path`: a path that a call makes goes to `out` and nowhere else.
#[inline(always)]
pub(crate) fn tell_path<T: Named>(
    out: &mut [u8; PATH],
    res: &mut [u64; RESULT],
    answer: Result<T, AmlError>,
) -> u64
    ensures { record { number = result; result = res.new; lent = out.new } ≡ leaves true res.old out.old (result_of (valued T.Words.words (said answer))) (out_of T.path out.old (said answer)) }
{
    match answer {
        Ok(value) => {
            slices::put_path(out, value.name());
            write(res, value.reply())
        }
        Err(e) => write(res, refused(e)),
    }
}

// Numbered as in klem.h, past any number of the paper's.
pub(crate) fn refuse(res: &mut [u64; RESULT], fault: Fault) -> u64
    ensures { record { number = result; result = res.new; lent = [] } ≡ answers true res.old (fault_said fault) }
{
    match fault {
        Fault::BadType => write(res, refusal(1002, 0)),
        Fault::BadCell(cell) => write(res, refusal(1003, cell as u64)),
        Fault::BadWidth(width) => write(res, refusal(1004, width)),
    }
}

impl Words for () {
    ghost words = { nothing };

    fn reply(self) -> [u64; RESULT] {
        given(0, 0, 0)
    }
}

impl Words for u64 {
    ghost words = { one };

    fn reply(self) -> [u64; RESULT] {
        given(self, 0, 0)
    }
}

impl Words for usize {
    ghost words = { one };

    fn reply(self) -> [u64; RESULT] {
        given(self as u64, 0, 0)
    }
}

impl Words for bool {
    ghost words = { λ b. one (flag b) };

    fn reply(self) -> [u64; RESULT] {
        given(u64::from(self), 0, 0)
    }
}

impl Words for AmlHandle {
    ghost words = { λ h. one h.0 };

    fn reply(self) -> [u64; RESULT] {
        given(self.0 as u64, 0, 0)
    }
}

// A signature's number is klem.h's, and so it stands here and not as a `From` of header's.
fn kind(s: Signature) -> u64
    ensures { result ≡ signature_number s }
{
    match s {
        Signature::Dsdt => 0,
        Signature::Ssdt => 1,
    }
}

impl Words for Header {
    ghost words = { header_words };

    fn reply(self) -> [u64; RESULT] {
        given(kind(self.signature), self.revision as u64, self.end as u64)
    }
}

impl Words for PkgLength {
    ghost words = { length_words };

    fn reply(self) -> [u64; RESULT] {
        given(self.raw_length as u64, self.end_offset as u64, 0)
    }
}

impl Words for Counts {
    ghost words = { counts_words };

    fn reply(self) -> [u64; RESULT] {
        let Counts {
            levels,
            bindings,
            objects,
        } = self;
        given(levels as u64, bindings as u64, objects as u64)
    }
}

// Nothing stands beside the path.
impl Words for AmlName {
    ghost words = { nothing };

    fn reply(self) -> [u64; RESULT] {
        ().reply()
    }
}

impl Named for AmlName {
    ghost path = { λ n. n };

    fn name(&self) -> &AmlName {
        self
    }
}

impl Words for Raw {
    ghost words = { raw_words };

    fn reply(self) -> [u64; RESULT] {
        given(self.raw as u64, self.used as u64, 0)
    }
}

impl Words for Pkg {
    ghost words = { pkg_words };

    fn reply(self) -> [u64; RESULT] {
        let l = self.length_read;
        given(l.raw_length as u64, l.end_offset as u64, self.used as u64)
    }
}

impl Words for NameRead {
    ghost words = { λ r. one r.used };

    fn reply(self) -> [u64; RESULT] {
        given(self.used as u64, 0, 0)
    }
}

impl Named for NameRead {
    ghost path = { λ r. r.name };

    fn name(&self) -> &AmlName {
        &self.name
    }
}

impl Words for Found {
    ghost words = { λ f. hit_words (found_hit f).value };

    fn reply(self) -> [u64; RESULT] {
        given(self.handle.0 as u64, self.asked as u64, 0)
    }
}

impl Named for Found {
    ghost path = { λ f. f.name };

    fn name(&self) -> &AmlName {
        &self.name
    }
}

impl Words for LevelFound {
    ghost words = { λ f. one f.asked };

    fn reply(self) -> [u64; RESULT] {
        given(self.asked as u64, 0, 0)
    }
}

impl Named for LevelFound {
    ghost path = { λ f. f.name };

    fn name(&self) -> &AmlName {
        &self.name
    }
}

// How a run ended, with its units. Numbered as in klem.h.
pub(crate) fn ran(run: Execution) -> [u64; RESULT]
    ensures { result ≡ run_words (end_said run.end) run.units }
{
    let units = run.units;
    match run.end {
        Ok(End::Finished) => given(0, 0, units),
        Ok(End::Returned(n)) => given(1, n, units),
        Ok(End::BreakOut) => given(2, 0, units),
        Ok(End::ContinueOut) => given(3, 0, units),
        Err(e) => {
            let mut words = refused(e);
            words[4] = units;
            words
        }
    }
}
