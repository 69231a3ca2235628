// The calls on blocks that SGal(3) alone has (sgal3.rs), but for the chain: the parts of an element, and its matrix. Each refuses, or answers with
// the part or the operation of `sgal3` of the same name.

ghost use Rattle.std.specs.Prelude.{◌≡◌};
ghost use Rattle.sgal3_calls.specs.Parts as Parts;

use checks::Refusal;
use linear::Vec3;
use manifold::LieGroup;
use sgal3::{Element, REP_SIZE};

// Translation and velocity are alike but for the field that each names; with the field as a parameter the contract would be the caller's to state.
#[tactic(auto, unfolding(crate::specs::Parts::translation))]
pub fn translation(block: &[f64], tolerance: f64) -> Result<Vec3, Refusal>
    ensures { result ≡ Parts.translation block.now tolerance }
{
    manifold::answered(Element::try_from_param_slice(block, tolerance)?.translation)
}

#[tactic(auto, unfolding(crate::specs::Parts::velocity))]
pub fn velocity(block: &[f64], tolerance: f64) -> Result<Vec3, Refusal>
    ensures { result ≡ Parts.velocity block.now tolerance }
{
    manifold::answered(Element::try_from_param_slice(block, tolerance)?.velocity)
}

#[tactic(auto, unfolding(crate::specs::Parts::time))]
pub fn time(block: &[f64], tolerance: f64) -> Result<f64, Refusal>
    ensures { result ≡ Parts.time block.now tolerance }
{
    Ok(Element::try_from_param_slice(block, tolerance)?.time)
}

// As a rotation whose params it is.
#[tactic(auto, unfolding(crate::specs::Parts::rotation_quaternion))]
pub fn rotation_quaternion(block: &[f64], tolerance: f64) -> Result<so3::Element, Refusal>
    ensures { result ≡ Parts.rotation_quaternion block.now tolerance }
{
    let a = Element::try_from_param_slice(block, tolerance)?;
    manifold::answered(so3::Element::new(a.rotation_quaternion()))
}

// The eleven values, as given.
#[tactic(auto, unfolding(crate::specs::Parts::coeffs))]
pub fn coeffs(block: &[f64], tolerance: f64) -> Result<[f64; REP_SIZE], Refusal>
    ensures { result ≡ Parts.coeffs block.now tolerance }
{
    Ok(Element::try_from_param_slice(block, tolerance)?.coeffs())
}

// Five rows of five, by row.
#[tactic(auto, unfolding(crate::specs::Parts::matrix))]
pub fn matrix(block: &[f64], tolerance: f64) -> Result<[f64; 25], Refusal>
    ensures { result ≡ Parts.matrix block.now tolerance }
{
    manifold::answered(Element::try_from_param_slice(block, tolerance)?.matrix())
}
