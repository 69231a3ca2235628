// A request on rotations, or for a sine or a cosine, answered: the calls 10 to 63 by their numbers, and the outcome of each as bytes. None where there is no such call.
// The numbers are the format's: an enum or a table of the calls would list them a second time. In parts, since each arm is a case of its function's
// proof. The calls of the other group have numbers of their own, so an arm that differs from one there in its type alone can't stand once for both.
#![tactic(auto)]

ghost use Rattle.outcomes.specs.Outcomes as Outcomes;
ghost use Rattle.so3_requests.specs.Requests as Requests;

use manifold::{LieGroup, Tangent as _};
use outcomes::{LONGEST, Request};
use so3::{Element, Tangent};

// A rotation, and two composed.
#[tactic(auto, unfolding(crate::specs::Requests::rotation_call, outcomes::specs::Outcomes::Answered, outcomes::specs::Outcomes::of, manifold::specs::Outcomes::matrix, so3::specs::Outcomes::element))]
fn rotation_call(r: Request<'_>, out: &mut [u8; LONGEST]) -> Option<usize>
    ensures { Outcomes.Answered result out.old out.new (Requests.rotation_call r.entry) }
{
    let tolerance = r.tolerance();
    match r.call {
        10 => quaternion_call(r, out),
        11 => Some(outcomes::put_valid(
            out,
            manifold_calls::is_valid::<Element>(r.left, tolerance),
        )),
        12 => Some(outcomes::put(
            out,
            manifold_calls::rotation_matrix::<Element>(r.left, tolerance),
        )),
        13 => Some(outcomes::put(out, manifold_calls::inverse::<Element>(r.left, tolerance))),
        14 => Some(outcomes::put(
            out,
            manifold_calls::inverse_jacobian::<Element>(r.left, tolerance),
        )),
        15 => Some(outcomes::put(
            out,
            manifold_calls::compose::<Element>(r.left, r.right, tolerance),
        )),
        16 => Some(outcomes::put(
            out,
            manifold_calls::compose_jacobian_self::<Element>(r.left, r.right, tolerance),
        )),
        17 => Some(outcomes::put(
            out,
            manifold_calls::compose_jacobian_other::<Element>(r.left, r.right, tolerance),
        )),
        _ => None,
    }
}

// The logarithm of a rotation, and what a rotation acts on.
#[tactic(auto, unfolding(crate::specs::Requests::rotation_log_call, outcomes::specs::Outcomes::Answered, outcomes::specs::Outcomes::of, manifold::specs::Outcomes::vector, manifold::specs::Outcomes::matrix, so3::specs::Outcomes::element, so3::specs::Outcomes::tangent))]
fn rotation_log_call(r: Request<'_>, out: &mut [u8; LONGEST]) -> Option<usize>
    ensures { Outcomes.Answered result out.old out.new (Requests.rotation_log_call r.entry) }
{
    let tolerance = r.tolerance();
    match r.call {
        18 => Some(outcomes::put(out, manifold_calls::log::<Element>(r.left, tolerance))),
        19 => Some(outcomes::put(out, manifold_calls::vee::<Element>(r.left, tolerance))),
        20 => Some(outcomes::put(out, so3_calls::log_jacobian(r.left, tolerance))),
        21 => Some(outcomes::put(
            out,
            manifold_calls::act::<Element>(r.left, r.right, tolerance),
        )),
        22 => Some(outcomes::put(
            out,
            manifold_calls::act_jacobian_self::<Element>(r.left, r.right, tolerance),
        )),
        23 => Some(outcomes::put(
            out,
            manifold_calls::act_jacobian_vector::<Element>(r.left, r.right, tolerance),
        )),
        24 => Some(outcomes::put(out, manifold_calls::adjoint::<Element>(r.left, tolerance))),
        25 => Some(outcomes::put(out, manifold_calls::normalize::<Element>(r.left, tolerance))),
        _ => None,
    }
}

// The exponential of a tangent of the rotations, and its Jacobians.
#[tactic(auto, unfolding(crate::specs::Requests::rotation_exp_call, outcomes::specs::Outcomes::Answered, outcomes::specs::Outcomes::of, manifold::specs::Outcomes::matrix, so3::specs::Outcomes::element))]
fn rotation_exp_call(r: Request<'_>, out: &mut [u8; LONGEST]) -> Option<usize>
    ensures { Outcomes.Answered result out.old out.new (Requests.rotation_exp_call r.entry) }
{
    match r.call {
        26 => Some(outcomes::put(out, manifold_calls::exp::<Tangent>(r.left))),
        27 => Some(outcomes::put(out, so3_calls::exp_jacobian(r.left))),
        28 => Some(outcomes::put(out, so3_calls::left_jacobian(r.left))),
        29 => Some(outcomes::put(out, so3_calls::right_jacobian(r.left))),
        30 => Some(outcomes::put(out, so3_calls::left_jacobian_inv(r.left))),
        31 => Some(outcomes::put(out, so3_calls::right_jacobian_inv(r.left))),
        _ => None,
    }
}

// The algebra of the rotations, and what takes no block.
#[tactic(auto, unfolding(crate::specs::Requests::rotation_tangent_call, outcomes::specs::Outcomes::Answered, outcomes::specs::Outcomes::of, manifold::specs::Outcomes::matrix, so3::specs::Outcomes::element, so3::specs::Outcomes::tangent))]
fn rotation_tangent_call(r: Request<'_>, out: &mut [u8; LONGEST]) -> Option<usize>
    ensures { Outcomes.Answered result out.old out.new (Requests.rotation_tangent_call r.entry) }
{
    match r.call {
        32 => Some(outcomes::put(out, manifold_calls::hat::<Tangent>(r.left))),
        33 => Some(outcomes::put(out, manifold_calls::small_adj::<Tangent>(r.left))),
        34 => Some(outcomes::put(out, manifold_calls::lie_bracket::<Tangent>(r.left, r.right))),
        35 => Some(outcomes::put(out, manifold_calls::normalize_tangent::<Tangent>(r.left))),
        36 => Some(outcomes::put(out, manifold_calls::normalized_tangent::<Tangent>(r.left))),
        37 => Some(outcomes::put(
            out,
            manifold::answered(Tangent::generator(r.extra as usize)),
        )),
        38 => Some(outcomes::put(out, manifold::answered(Tangent::zero()))),
        39 => Some(outcomes::put(out, manifold::answered(Element::identity()))),
        _ => None,
    }
}

// Plus of a rotation and a tangent, from either side.
#[tactic(auto, unfolding(crate::specs::Requests::rotation_plus_call, outcomes::specs::Outcomes::Answered, outcomes::specs::Outcomes::of, manifold::specs::Outcomes::matrix, so3::specs::Outcomes::element))]
fn rotation_plus_call(r: Request<'_>, out: &mut [u8; LONGEST]) -> Option<usize>
    ensures { Outcomes.Answered result out.old out.new (Requests.rotation_plus_call r.entry) }
{
    let tolerance = r.tolerance();
    match r.call {
        40 => Some(outcomes::put(
            out,
            manifold_calls::right_plus::<Element>(r.left, r.right, tolerance),
        )),
        41 => Some(outcomes::put(
            out,
            manifold_calls::right_plus_jacobian_self::<Element>(r.left, r.right, tolerance),
        )),
        42 => Some(outcomes::put(
            out,
            so3_calls::right_plus_jacobian_tangent(r.left, r.right, tolerance),
        )),
        43 => Some(outcomes::put(
            out,
            manifold_calls::left_plus::<Element>(r.left, r.right, tolerance),
        )),
        44 => Some(outcomes::put(
            out,
            so3_calls::left_plus_jacobian_tangent(r.left, r.right, tolerance),
        )),
        45 => Some(outcomes::put(
            out,
            manifold_calls::left_plus_jacobian_self::<Element>(r.left, r.right, tolerance),
        )),
        _ => None,
    }
}

// Minus of two rotations, from either side.
#[tactic(auto, unfolding(crate::specs::Requests::rotation_minus_call, outcomes::specs::Outcomes::Answered, outcomes::specs::Outcomes::of, manifold::specs::Outcomes::matrix, so3::specs::Outcomes::tangent))]
fn rotation_minus_call(r: Request<'_>, out: &mut [u8; LONGEST]) -> Option<usize>
    ensures { Outcomes.Answered result out.old out.new (Requests.rotation_minus_call r.entry) }
{
    let tolerance = r.tolerance();
    match r.call {
        46 => Some(outcomes::put(
            out,
            manifold_calls::right_minus::<Element>(r.left, r.right, tolerance),
        )),
        47 => Some(outcomes::put(
            out,
            so3_calls::right_minus_jacobian_self(r.left, r.right, tolerance),
        )),
        48 => Some(outcomes::put(
            out,
            so3_calls::right_minus_jacobian_other(r.left, r.right, tolerance),
        )),
        49 => Some(outcomes::put(
            out,
            manifold_calls::left_minus::<Element>(r.left, r.right, tolerance),
        )),
        50 => Some(outcomes::put(
            out,
            so3_calls::left_minus_jacobian_self(r.left, r.right, tolerance),
        )),
        51 => Some(outcomes::put(
            out,
            so3_calls::left_minus_jacobian_other(r.left, r.right, tolerance),
        )),
        _ => None,
    }
}

// What leads from one rotation to another; plus and minus of rotations by their short names.
#[tactic(auto, unfolding(crate::specs::Requests::rotation_between_call, outcomes::specs::Outcomes::Answered, outcomes::specs::Outcomes::of, manifold::specs::Outcomes::matrix, so3::specs::Outcomes::element, so3::specs::Outcomes::tangent))]
fn rotation_between_call(r: Request<'_>, out: &mut [u8; LONGEST]) -> Option<usize>
    ensures { Outcomes.Answered result out.old out.new (Requests.rotation_between_call r.entry) }
{
    let tolerance = r.tolerance();
    match r.call {
        52 => Some(outcomes::put(
            out,
            manifold_calls::between::<Element>(r.left, r.right, tolerance),
        )),
        53 => Some(outcomes::put(
            out,
            manifold_calls::between_jacobian_self::<Element>(r.left, r.right, tolerance),
        )),
        54 => Some(outcomes::put(
            out,
            manifold_calls::between_jacobian_other::<Element>(r.left, r.right, tolerance),
        )),
        55 => Some(outcomes::put(
            out,
            manifold_calls::plus::<Element>(r.left, r.right, tolerance),
        )),
        56 => Some(outcomes::put(
            out,
            manifold_calls::plus_jacobian_self::<Element>(r.left, r.right, tolerance),
        )),
        57 => Some(outcomes::put(
            out,
            so3_calls::plus_jacobian_tangent(r.left, r.right, tolerance),
        )),
        58 => Some(outcomes::put(
            out,
            manifold_calls::minus::<Element>(r.left, r.right, tolerance),
        )),
        59 => Some(outcomes::put(
            out,
            so3_calls::minus_jacobian_self(r.left, r.right, tolerance),
        )),
        60 => Some(outcomes::put(
            out,
            so3_calls::minus_jacobian_other(r.left, r.right, tolerance),
        )),
        _ => None,
    }
}

// Sine and cosine, of one value.
#[tactic(auto, unfolding(crate::specs::Requests::sine_call, outcomes::specs::Outcomes::Answered, outcomes::specs::Outcomes::of, manifold::specs::Outcomes::number))]
fn sine_call(r: Request<'_>, out: &mut [u8; LONGEST]) -> Option<usize>
    ensures { Outcomes.Answered result out.old out.new (Requests.sine_call r.entry) }
{
    let x = r.left;
    if x.len() != 1 {
        return None;
    }
    match r.call {
        61 => Some(outcomes::put(out, so3_calls::sine(x[0]))),
        62 => Some(outcomes::put(out, so3_calls::cosine(x[0]))),
        _ => None,
    }
}

// The half-angle of a rotation.
#[tactic(auto, unfolding(crate::specs::Requests::half_angle_call, outcomes::specs::Outcomes::Answered, outcomes::specs::Outcomes::of, manifold::specs::Outcomes::number))]
fn half_angle_call(r: Request<'_>, out: &mut [u8; LONGEST]) -> Option<usize>
    ensures { Outcomes.Answered result out.old out.new (Requests.half_angle_call r.entry) }
{
    match r.call {
        63 => Some(outcomes::put(out, so3_calls::half_angle(r.left, r.tolerance()))),
        _ => None,
    }
}

// Of four values: the one call that takes no block.
#[tactic(auto, unfolding(crate::specs::Requests::quaternion_call, outcomes::specs::Outcomes::Answered, outcomes::specs::Outcomes::of, so3::specs::Outcomes::element))]
fn quaternion_call(r: Request<'_>, out: &mut [u8; LONGEST]) -> Option<usize>
    ensures { Outcomes.Answered result out.old out.new (Requests.quaternion_call r.entry) }
{
    let q = r.left;
    if q.len() != 4 {
        return None;
    }
    let tolerance = r.tolerance();
    Some(outcomes::put(
        out,
        so3_calls::try_from_quaternion_wxyz(q[0], q[1], q[2], q[3], tolerance),
    ))
}

#[tactic(auto, unfolding(crate::specs::Requests::answer, outcomes::specs::Outcomes::Answered))]
pub fn answer(r: Request<'_>, out: &mut [u8; LONGEST]) -> Option<usize>
    ensures { Outcomes.Answered result out.old out.new (Requests.answer r.entry) }
{
    if r.call < 18 {
        return rotation_call(r, out);
    }
    if r.call < 26 {
        return rotation_log_call(r, out);
    }
    if r.call < 32 {
        return rotation_exp_call(r, out);
    }
    if r.call < 40 {
        return rotation_tangent_call(r, out);
    }
    if r.call < 46 {
        return rotation_plus_call(r, out);
    }
    if r.call < 52 {
        return rotation_minus_call(r, out);
    }
    if r.call < 61 {
        return rotation_between_call(r, out);
    }
    if r.call < 63 {
        return sine_call(r, out);
    }
    half_angle_call(r, out)
}
