// A request on the Galilean group answered: the calls 70 to 114 by their numbers, and the outcome of each as bytes. None where there is no such
// call. The numbers are the format's: an enum or a table of the calls would list them a second time. In parts, and not shared with
// `so3_requests`: the reasons stand there.
#![tactic(auto)]

ghost use Rattle.outcomes.specs.Outcomes as Outcomes;
ghost use Rattle.sgal3_requests.specs.Requests as Requests;

use manifold::{LieGroup, Tangent as _};
use outcomes::{LONGEST, Request};
use sgal3::{Element, Tangent};

// Elements of the Galilean group: compose, inverse, the chain, and the parts of one.
#[tactic(auto, unfolding(crate::specs::Requests::element_call, outcomes::specs::Outcomes::Answered, outcomes::specs::Outcomes::of, manifold::specs::Outcomes::vector, manifold::specs::Outcomes::number, manifold::specs::Outcomes::matrix, manifold::specs::Outcomes::listed, so3::specs::Outcomes::element, sgal3_calls::specs::Outcomes::element))]
fn element_call(r: Request<'_>, out: &mut [u8; LONGEST]) -> Option<usize>
    ensures { Outcomes.Answered result out.old out.new (Requests.element_call r.entry) }
{
    let tolerance = r.tolerance();
    match r.call {
        70 => Some(outcomes::put(
            out,
            sgal3_calls::composition::compose(r.left, r.right, tolerance),
        )),
        71 => Some(outcomes::put(out, sgal3_calls::composition::inverse(r.left, tolerance))),
        72 => Some(outcomes::put(out, sgal3_calls::composition::chain(r.left, tolerance))),
        73 => Some(outcomes::put(out, sgal3_calls::parts::translation(r.left, tolerance))),
        74 => Some(outcomes::put(out, sgal3_calls::parts::velocity(r.left, tolerance))),
        75 => Some(outcomes::put(out, sgal3_calls::parts::time(r.left, tolerance))),
        76 => Some(outcomes::put(
            out,
            sgal3_calls::parts::rotation_quaternion(r.left, tolerance),
        )),
        77 => Some(outcomes::put(
            out,
            manifold_calls::rotation_matrix::<Element>(r.left, tolerance),
        )),
        78 => Some(outcomes::put(out, sgal3_calls::parts::coeffs(r.left, tolerance))),
        _ => None,
    }
}

// The logarithm of an element of the Galilean group, and what it acts on.
#[tactic(auto, unfolding(crate::specs::Requests::log_call, outcomes::specs::Outcomes::Answered, outcomes::specs::Outcomes::of, manifold::specs::Outcomes::vector, manifold::specs::Outcomes::matrix, sgal3::specs::Outcomes::tangent, sgal3_calls::specs::Outcomes::element))]
fn log_call(r: Request<'_>, out: &mut [u8; LONGEST]) -> Option<usize>
    ensures { Outcomes.Answered result out.old out.new (Requests.log_call r.entry) }
{
    let tolerance = r.tolerance();
    match r.call {
        79 => Some(outcomes::put(out, manifold_calls::log::<Element>(r.left, tolerance))),
        80 => Some(outcomes::put(out, manifold_calls::vee::<Element>(r.left, tolerance))),
        81 => Some(outcomes::put(
            out,
            manifold_calls::act::<Element>(r.left, r.right, tolerance),
        )),
        82 => Some(outcomes::put(
            out,
            manifold_calls::act_jacobian_vector::<Element>(r.left, r.right, tolerance),
        )),
        83 => Some(outcomes::put(out, manifold_calls::normalize::<Element>(r.left, tolerance))),
        84 => Some(outcomes::put_valid(
            out,
            manifold_calls::is_valid::<Element>(r.left, tolerance),
        )),
        _ => None,
    }
}

// A tangent of the Galilean group, and what takes no block.
#[tactic(auto, unfolding(crate::specs::Requests::tangent_call, outcomes::specs::Outcomes::Answered, outcomes::specs::Outcomes::of, sgal3::specs::Outcomes::tangent, sgal3_calls::specs::Outcomes::element))]
fn tangent_call(r: Request<'_>, out: &mut [u8; LONGEST]) -> Option<usize>
    ensures { Outcomes.Answered result out.old out.new (Requests.tangent_call r.entry) }
{
    match r.call {
        85 => Some(outcomes::put(out, manifold_calls::exp::<Tangent>(r.left))),
        86 => Some(outcomes::put(out, manifold_calls::lie_bracket::<Tangent>(r.left, r.right))),
        87 => Some(outcomes::put(out, manifold_calls::normalize_tangent::<Tangent>(r.left))),
        88 => Some(outcomes::put(out, manifold_calls::normalized_tangent::<Tangent>(r.left))),
        89 => Some(outcomes::put(out, manifold::answered(Tangent::zero()))),
        90 => Some(outcomes::put(out, manifold::answered(Element::identity()))),
        _ => None,
    }
}

// The matrices of the Galilean group.
#[tactic(auto, unfolding(crate::specs::Requests::matrix_call, outcomes::specs::Outcomes::Answered, outcomes::specs::Outcomes::of, manifold::specs::Outcomes::listed, sgal3::specs::Outcomes::matrix10))]
fn matrix_call(r: Request<'_>, out: &mut [u8; LONGEST]) -> Option<usize>
    ensures { Outcomes.Answered result out.old out.new (Requests.matrix_call r.entry) }
{
    let tolerance = r.tolerance();
    match r.call {
        91 => Some(outcomes::put(out, Ok(Tangent::generator(r.extra as usize)))),
        92 => Some(outcomes::put(out, sgal3_calls::parts::matrix(r.left, tolerance))),
        93 => Some(outcomes::put(out, manifold_calls::adjoint::<Element>(r.left, tolerance))),
        94 => Some(outcomes::put(
            out,
            manifold_calls::inverse_jacobian::<Element>(r.left, tolerance),
        )),
        95 => Some(outcomes::put(
            out,
            manifold_calls::compose_jacobian_self::<Element>(r.left, r.right, tolerance),
        )),
        96 => Some(outcomes::put(
            out,
            manifold_calls::compose_jacobian_other::<Element>(r.left, r.right, tolerance),
        )),
        97 => Some(outcomes::put(
            out,
            manifold_calls::act_jacobian_self::<Element>(r.left, r.right, tolerance),
        )),
        98 => Some(outcomes::put(out, manifold_calls::hat::<Tangent>(r.left))),
        99 => Some(outcomes::put(out, manifold_calls::small_adj::<Tangent>(r.left))),
        _ => None,
    }
}

// Plus of an element and a tangent, and minus of two elements, from either side.
#[tactic(auto, unfolding(crate::specs::Requests::plus_call, outcomes::specs::Outcomes::Answered, outcomes::specs::Outcomes::of, sgal3::specs::Outcomes::tangent, sgal3::specs::Outcomes::matrix10, sgal3_calls::specs::Outcomes::element))]
fn plus_call(r: Request<'_>, out: &mut [u8; LONGEST]) -> Option<usize>
    ensures { Outcomes.Answered result out.old out.new (Requests.plus_call r.entry) }
{
    let tolerance = r.tolerance();
    match r.call {
        100 => Some(outcomes::put(
            out,
            manifold_calls::right_plus::<Element>(r.left, r.right, tolerance),
        )),
        101 => Some(outcomes::put(
            out,
            manifold_calls::right_plus_jacobian_self::<Element>(r.left, r.right, tolerance),
        )),
        102 => Some(outcomes::put(
            out,
            manifold_calls::left_plus::<Element>(r.left, r.right, tolerance),
        )),
        103 => Some(outcomes::put(
            out,
            manifold_calls::left_plus_jacobian_self::<Element>(r.left, r.right, tolerance),
        )),
        104 => Some(outcomes::put(
            out,
            manifold_calls::right_minus::<Element>(r.left, r.right, tolerance),
        )),
        105 => Some(outcomes::put(
            out,
            manifold_calls::left_minus::<Element>(r.left, r.right, tolerance),
        )),
        _ => None,
    }
}

// What leads from one element to another; plus and minus of elements by their short names.
#[tactic(auto, unfolding(crate::specs::Requests::between_call, outcomes::specs::Outcomes::Answered, outcomes::specs::Outcomes::of, sgal3::specs::Outcomes::tangent, sgal3::specs::Outcomes::matrix10, sgal3_calls::specs::Outcomes::element))]
fn between_call(r: Request<'_>, out: &mut [u8; LONGEST]) -> Option<usize>
    ensures { Outcomes.Answered result out.old out.new (Requests.between_call r.entry) }
{
    let tolerance = r.tolerance();
    match r.call {
        106 => Some(outcomes::put(
            out,
            manifold_calls::between::<Element>(r.left, r.right, tolerance),
        )),
        107 => Some(outcomes::put(
            out,
            manifold_calls::between_jacobian_self::<Element>(r.left, r.right, tolerance),
        )),
        108 => Some(outcomes::put(
            out,
            manifold_calls::between_jacobian_other::<Element>(r.left, r.right, tolerance),
        )),
        109 => Some(outcomes::put(
            out,
            manifold_calls::plus::<Element>(r.left, r.right, tolerance),
        )),
        110 => Some(outcomes::put(
            out,
            manifold_calls::plus_jacobian_self::<Element>(r.left, r.right, tolerance),
        )),
        111 => Some(outcomes::put(
            out,
            manifold_calls::minus::<Element>(r.left, r.right, tolerance),
        )),
        _ => None,
    }
}

// The adjoints without their zeros.
#[tactic(auto, unfolding(crate::specs::Requests::short_call, outcomes::specs::Outcomes::Answered))]
fn short_call(r: Request<'_>, out: &mut [u8; LONGEST]) -> Option<usize>
    ensures { Outcomes.Answered result out.old out.new (Requests.short_call r.entry) }
{
    let tolerance = r.tolerance();
    match r.call {
        112 => Some(outcomes::put(
            out,
            manifold_calls::short_adjoint::<Element>(r.left, tolerance),
        )),
        113 => Some(outcomes::put(
            out,
            manifold_calls::short_compose_jacobian_self::<Element>(r.left, r.right, tolerance),
        )),
        114 => Some(outcomes::put(
            out,
            manifold_calls::short_right_plus_jacobian_self::<Element>(r.left, r.right, tolerance),
        )),
        _ => None,
    }
}

// How an element acts on an event.
#[tactic(auto, unfolding(crate::specs::Requests::event_call, outcomes::specs::Outcomes::Answered, outcomes::specs::Outcomes::of, sgal3::specs::Outcomes::event))]
fn event_call(r: Request<'_>, out: &mut [u8; LONGEST]) -> Option<usize>
    ensures { Outcomes.Answered result out.old out.new (Requests.event_call r.entry) }
{
    match r.call {
        115 => Some(outcomes::put(
            out,
            sgal3_calls::events::act_event(r.left, r.right, r.tolerance()),
        )),
        _ => None,
    }
}

#[tactic(auto, unfolding(crate::specs::Requests::answer, outcomes::specs::Outcomes::Answered))]
pub fn answer(r: Request<'_>, out: &mut [u8; LONGEST]) -> Option<usize>
    ensures { Outcomes.Answered result out.old out.new (Requests.answer r.entry) }
{
    if r.call < 79 {
        return element_call(r, out);
    }
    if r.call < 85 {
        return log_call(r, out);
    }
    if r.call < 91 {
        return tangent_call(r, out);
    }
    if r.call < 100 {
        return matrix_call(r, out);
    }
    if r.call < 106 {
        return plus_call(r, out);
    }
    if r.call < 112 {
        return between_call(r, out);
    }
    if r.call < 115 {
        return short_call(r, out);
    }
    event_call(r, out)
}
