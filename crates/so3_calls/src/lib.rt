// The calls on blocks that SO(3) alone has: a rotation of four values, the half-angle, and the Jacobians of log, exp, plus and minus; and sine and
// cosine, of a number. Each refuses, or answers with an operation of `so3`, `manifold` or `trigonometry`: that of its name, where there is one.
#![tactic(auto)]

ghost use Rattle.std.specs.Prelude.{◌≡◌};
ghost use Rattle.so3_calls.specs.Calls as Calls;

use checks::Refusal;
use linear::Mat3;
use manifold::{LieGroup, Tangent as _};
use so3::{Element, Tangent};

// The one call of four values instead of a block: normalised once.
#[tactic(auto, unfolding(crate::specs::Calls::try_from_quaternion_wxyz))]
pub fn try_from_quaternion_wxyz(
    w: f64,
    x: f64,
    y: f64,
    z: f64,
    tolerance: f64,
) -> Result<Element, Refusal>
    ensures { result ≡ Calls.try_from_quaternion_wxyz w x y z tolerance }
{
    checks::check_unit_quaternion(&[w, x, y, z], tolerance)?;
    manifold::answered(Element::from_quaternion_wxyz(w, x, y, z))
}

// The half-angle of the unit quaternion that log reads. It is finite for every block that is not refused (crate `comes_back`).
#[tactic(auto, unfolding(crate::specs::Calls::half_angle))]
pub fn half_angle(block: &[f64], tolerance: f64) -> Result<f64, Refusal>
    ensures { result ≡ Calls.half_angle block.now tolerance }
{
    let a = Element::try_from_param_slice(block, tolerance)?;
    Ok(a.half_angle())
}

// ---- Jacobians of log and exp: they refuse 4 where log and exp do. These calls, as those below, are alike but for the operation that each names; with
// the operation as a parameter the contract would be the caller's to state.

// The inverse of the right Jacobian, at log's answer.
#[tactic(auto, unfolding(crate::specs::Calls::log_jacobian))]
pub fn log_jacobian(block: &[f64], tolerance: f64) -> Result<Mat3, Refusal>
    ensures { result ≡ Calls.log_jacobian block.now tolerance }
{
    let t = manifold_calls::within_log::<Element>(block, tolerance)?;
    manifold::answered(t.right_jacobian_inv())
}

#[tactic(auto, unfolding(crate::specs::Calls::left_jacobian))]
pub fn left_jacobian(tangent: &[f64]) -> Result<Mat3, Refusal>
    ensures { result ≡ Calls.left_jacobian tangent.now }
{
    manifold::answered(manifold_calls::within_exp::<Tangent>(tangent)?.left_jacobian())
}

#[tactic(auto, unfolding(crate::specs::Calls::right_jacobian))]
pub fn right_jacobian(tangent: &[f64]) -> Result<Mat3, Refusal>
    ensures { result ≡ Calls.right_jacobian tangent.now }
{
    manifold::answered(manifold_calls::within_exp::<Tangent>(tangent)?.right_jacobian())
}

// Exp's is the right one.
pub fn exp_jacobian(tangent: &[f64]) -> Result<Mat3, Refusal>
    ensures { result ≡ Calls.right_jacobian tangent.now }
{
    right_jacobian(tangent)
}

#[tactic(auto, unfolding(crate::specs::Calls::left_jacobian_inv))]
pub fn left_jacobian_inv(tangent: &[f64]) -> Result<Mat3, Refusal>
    ensures { result ≡ Calls.left_jacobian_inv tangent.now }
{
    manifold::answered(manifold_calls::within_exp::<Tangent>(tangent)?.left_jacobian_inv())
}

#[tactic(auto, unfolding(crate::specs::Calls::right_jacobian_inv))]
pub fn right_jacobian_inv(tangent: &[f64]) -> Result<Mat3, Refusal>
    ensures { result ≡ Calls.right_jacobian_inv tangent.now }
{
    manifold::answered(manifold_calls::within_exp::<Tangent>(tangent)?.right_jacobian_inv())
}

// ---- Of plus with respect to its tangent

#[tactic(auto, unfolding(crate::specs::Calls::right_plus_jacobian_tangent))]
pub fn right_plus_jacobian_tangent(
    block: &[f64],
    tangent: &[f64],
    tolerance: f64,
) -> Result<Mat3, Refusal>
    ensures { result ≡ Calls.right_plus_jacobian_tangent block.now tangent.now tolerance }
{
    let (_, t) = manifold_calls::within_plus::<Element>(block, tangent, tolerance)?;
    manifold::answered(t.right_jacobian())
}

// Plus is the one on the right.
pub fn plus_jacobian_tangent(
    block: &[f64],
    tangent: &[f64],
    tolerance: f64,
) -> Result<Mat3, Refusal>
    ensures { result ≡ Calls.right_plus_jacobian_tangent block.now tangent.now tolerance }
{
    right_plus_jacobian_tangent(block, tangent, tolerance)
}

#[tactic(auto, unfolding(crate::specs::Calls::left_plus_jacobian_tangent))]
pub fn left_plus_jacobian_tangent(
    block: &[f64],
    tangent: &[f64],
    tolerance: f64,
) -> Result<Mat3, Refusal>
    ensures { result ≡ Calls.left_plus_jacobian_tangent block.now tangent.now tolerance }
{
    let (a, t) = manifold_calls::within_plus::<Element>(block, tangent, tolerance)?;
    manifold::answered(a.left_plus_jacobian_tangent(t))
}

// ---- Of minus, at its answer: they refuse 4 where minus does

#[tactic(auto, unfolding(crate::specs::Calls::right_minus_jacobian_self))]
pub fn right_minus_jacobian_self(
    left: &[f64],
    right: &[f64],
    tolerance: f64,
) -> Result<Mat3, Refusal>
    ensures { result ≡ Calls.right_minus_jacobian_self left.now right.now tolerance }
{
    let t = manifold_calls::within_right_minus::<Element>(left, right, tolerance)?;
    manifold::answered(t.right_jacobian_inv())
}

// Minus is the one on the right.
pub fn minus_jacobian_self(left: &[f64], right: &[f64], tolerance: f64) -> Result<Mat3, Refusal>
    ensures { result ≡ Calls.right_minus_jacobian_self left.now right.now tolerance }
{
    right_minus_jacobian_self(left, right, tolerance)
}

#[tactic(auto, unfolding(crate::specs::Calls::right_minus_jacobian_other))]
pub fn right_minus_jacobian_other(
    left: &[f64],
    right: &[f64],
    tolerance: f64,
) -> Result<Mat3, Refusal>
    ensures { result ≡ Calls.right_minus_jacobian_other left.now right.now tolerance }
{
    let t = manifold_calls::within_right_minus::<Element>(left, right, tolerance)?;
    manifold::answered(t.right_minus_jacobian_other())
}

pub fn minus_jacobian_other(left: &[f64], right: &[f64], tolerance: f64) -> Result<Mat3, Refusal>
    ensures { result ≡ Calls.right_minus_jacobian_other left.now right.now tolerance }
{
    right_minus_jacobian_other(left, right, tolerance)
}

#[tactic(auto, unfolding(crate::specs::Calls::left_minus_jacobian_self))]
pub fn left_minus_jacobian_self(
    left: &[f64],
    right: &[f64],
    tolerance: f64,
) -> Result<Mat3, Refusal>
    ensures { result ≡ Calls.left_minus_jacobian_self left.now right.now tolerance }
{
    let (t, b) = manifold_calls::within_left_minus::<Element>(left, right, tolerance)?;
    manifold::answered(t.left_minus_jacobian_self(b))
}

#[tactic(auto, unfolding(crate::specs::Calls::left_minus_jacobian_other))]
pub fn left_minus_jacobian_other(
    left: &[f64],
    right: &[f64],
    tolerance: f64,
) -> Result<Mat3, Refusal>
    ensures { result ≡ Calls.left_minus_jacobian_other left.now right.now tolerance }
{
    let (t, b) = manifold_calls::within_left_minus::<Element>(left, right, tolerance)?;
    manifold::answered(t.left_minus_jacobian_other(b))
}

// ---- Sine and cosine, of a number that is finite and of magnitude at most 4

#[tactic(auto, unfolding(crate::specs::Calls::check_angle))]
pub fn check_angle(x: f64) -> Result<(), Refusal>
    ensures { result ≡ Calls.check_angle x }
{
    if !float::is_finite(x) {
        return Err(Refusal::NotFinite);
    }
    manifold::within(float::magnitude(x) > 4.0)
}

#[tactic(auto, unfolding(crate::specs::Calls::sine))]
pub fn sine(x: f64) -> Result<f64, Refusal>
    ensures { result ≡ Calls.sine x }
{
    check_angle(x)?;
    Ok(trigonometry::sine(x))
}

#[tactic(auto, unfolding(crate::specs::Calls::cosine))]
pub fn cosine(x: f64) -> Result<f64, Refusal>
    ensures { result ≡ Calls.cosine x }
{
    check_angle(x)?;
    Ok(trigonometry::cosine(x))
}
