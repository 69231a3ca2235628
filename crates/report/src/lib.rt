// What the program `chain` prints, as a function on slices.
#![tactic(auto)]

ghost use Rattle.std.specs.Prelude.{◌≡◌, ◌≤◌, length};
ghost use Rattle.std.proofs.lemmas.List.Edits.{sets};
ghost use Rattle.report_run.specs.Reports.{Written};
ghost use Rattle.report.specs.Text as Text;

use checks::Refusal;
use element_bytes::ELEMENT_SIZE;
use report_text::lines::LINE;
use sgal3::{Element, REP_SIZE};

// The longest chain that the program reads: 744 blocks.
pub const MOST_BYTES: usize = 744 * ELEMENT_SIZE;

// As much of an input as is read: one byte more is enough to refuse a longer one.
pub const SPACE: usize = MOST_BYTES + 1;

// A line for each value of an element.
pub const PAGE: usize = REP_SIZE * LINE;

fn put_answer(out: &mut [u8; PAGE], answer: Result<Element, Refusal>) -> usize
    ensures value { result ≡ length (Text.text answer) }
    ensures out_after { out.new ≡ sets out.old 0 (Text.text answer) }
{
    match answer {
        Ok(e) => {
            report_text::lines::put_lines(out, &e.coeffs());
            PAGE
        }
        Err(r) => report_text::lines::put_refusal(out, r.number() as u64),
    }
}

// Puts what is printed for an input at the start of out, and answers how many bytes it is. There is no heap, so out is
// the caller's.
#[tactic(auto, unfolding(crate::specs::Text::report_of))]
pub fn report(input: &[u8], out: &mut [u8; PAGE]) -> usize
    ensures { Written result out.new (Text.report_of input.now) }
{
    put_answer(
        out,
        byte_chain::chain(input, MOST_BYTES, checks::quaternion_norm_tolerance()),
    )
}
