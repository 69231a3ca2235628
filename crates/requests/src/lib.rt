// A request answered: every public call by its number, on blocks of values, and its outcome as bytes. None where there is no such call.
// `make calls` lists the numbers, which are the format's: an enum or a table of the calls would list them a second time, and functions of one type would
// hide their contracts. Each range of them has a crate of its own. Calls that differ in their group alone, as 0 and 1, have numbers of their own.
#![tactic(auto)]

ghost use Rattle.outcomes.specs.Outcomes as Outcomes;
ghost use Rattle.requests.specs.Requests as Requests;

use manifold::LieGroup;
use outcomes::{LONGEST, Request};

// The checks of a block, and an element as given.
#[tactic(auto, unfolding(crate::specs::Requests::check_call, outcomes::specs::Outcomes::Answered, outcomes::specs::Outcomes::of, sgal3_calls::specs::Outcomes::element))]
fn check_call(r: Request<'_>, out: &mut [u8; LONGEST]) -> Option<usize>
    ensures { Outcomes.Answered result out.old out.new (Requests.check_call r.entry) }
{
    match r.call {
        0 => Some(outcomes::put_check(out, sgal3::Element::validate_params(r.left, r.tolerance()))),
        1 => Some(outcomes::put_check(out, so3::Element::validate_params(r.left, r.tolerance()))),
        2 => Some(outcomes::put(out, sgal3::Element::from_param_slice(r.left))),
        _ => None,
    }
}

#[tactic(auto, unfolding(crate::specs::Requests::answer, outcomes::specs::Outcomes::Answered))]
pub fn answer(r: Request<'_>, out: &mut [u8; LONGEST]) -> Option<usize>
    ensures { Outcomes.Answered result out.old out.new (Requests.answer r.entry) }
{
    if r.call < 10 {
        return check_call(r, out);
    }
    if r.call < 70 {
        return so3_requests::answer(r, out);
    }
    sgal3_requests::answer(r, out)
}
