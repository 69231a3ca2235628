// The calls on blocks, for any group: an element's values, a tangent's, a vector's three. Each refuses, or answers with the operation of its
// name, where there is one. The calls with a definition of their own are in `so3_calls` and `sgal3_calls`.
#![tactic(auto)]

ghost use Rattle.std.specs.Prelude.{◌≡◌};
ghost use Rattle.manifold_calls.specs.Calls as Calls;

use checks::Refusal;
use linear::{Mat3, Vec3};
use manifold::{LieGroup, Tangent};

#[tactic(auto, unfolding(crate::specs::Calls::vector), using(checks::proofs::Passed::values_passed))]
fn vector(s: &[f64]) -> Result<Vec3, Refusal>
    ensures { result ≡ Calls.vector s.now }
{
    checks::check_values(s, 3)?;
    Ok(manifold::vector_at(s, 0))
}

// ---- Elements

pub fn elements<G: LieGroup>(left: &[f64], right: &[f64], tolerance: f64) -> Result<(G, G), Refusal>
    ensures { result ≡ Calls.elements G.group left.now right.now tolerance }
{
    checks::both(
        G::try_from_param_slice(left, tolerance),
        G::try_from_param_slice(right, tolerance),
    )
}

pub fn element_and_vector<G: LieGroup>(
    block: &[f64],
    s: &[f64],
    tolerance: f64,
) -> Result<(G, Vec3), Refusal>
    ensures { result ≡ Calls.element_and_vector G.group block.now s.now tolerance }
{
    checks::both(G::try_from_param_slice(block, tolerance), vector(s))
}

// Any values, and any tolerance: refuses a wrong length only.
#[tactic(auto, unfolding(crate::specs::Calls::is_valid))]
pub fn is_valid<G: LieGroup>(block: &[f64], tolerance: f64) -> Result<bool, Refusal>
    ensures { result ≡ Calls.is_valid G.group block.now tolerance }
{
    let a = G::from_param_slice(block)?;
    Ok(a.is_valid(tolerance))
}

#[tactic(auto, unfolding(crate::specs::Calls::inverse))]
pub fn inverse<G: LieGroup>(block: &[f64], tolerance: f64) -> Result<G, Refusal>
    ensures { result ≡ Calls.inverse G.group G.values block.now tolerance }
{
    inverse_answer(G::try_from_param_slice(block, tolerance))
}

// Inverts the answer of a block.
#[tactic(auto, unfolding(crate::specs::Calls::inverse_answer))]
pub fn inverse_answer<G: LieGroup>(answer: Result<G, Refusal>) -> Result<G, Refusal>
    ensures { result ≡ Calls.inverse_answer G.group G.values answer }
{
    manifold::answered(answer?.inverse())
}

// Composes the answers of two blocks, or of a chain so far and a block.
#[tactic(auto, unfolding(crate::specs::Calls::compose_answers))]
pub fn compose_answers<G: LieGroup>(
    left: Result<G, Refusal>,
    right: Result<G, Refusal>,
) -> Result<G, Refusal>
    ensures { result ≡ Calls.compose_answers G.group G.values left right }
{
    let (a, b) = checks::both(left, right)?;
    manifold::answered(a.compose(b))
}

#[tactic(auto, unfolding(crate::specs::Calls::compose))]
pub fn compose<G: LieGroup>(left: &[f64], right: &[f64], tolerance: f64) -> Result<G, Refusal>
    ensures { result ≡ Calls.compose G.group G.values left.now right.now tolerance }
{
    let a = G::try_from_param_slice(left, tolerance);
    let b = G::try_from_param_slice(right, tolerance);
    compose_answers(a, b)
}

#[tactic(auto, unfolding(crate::specs::Calls::normalize))]
pub fn normalize<G: LieGroup>(block: &[f64], tolerance: f64) -> Result<G, Refusal>
    ensures { result ≡ Calls.normalize G.group G.values block.now tolerance }
{
    let a = G::try_from_param_slice(block, tolerance)?;
    manifold::answered(a.normalize())
}

// Log's answer, if its turn is not too large.
#[tactic(auto, unfolding(crate::specs::Calls::within_log))]
pub fn within_log<G: LieGroup>(block: &[f64], tolerance: f64) -> Result<G::TangentVector, Refusal>
    ensures { result ≡ Calls.within_log G.group G.TangentVector.tangents block.now tolerance }
{
    let answer = G::try_from_param_slice(block, tolerance)?.log();
    answer.within_turn()
}

#[tactic(auto, unfolding(crate::specs::Calls::log))]
pub fn log<G: LieGroup>(block: &[f64], tolerance: f64) -> Result<G::TangentVector, Refusal>
    ensures { result ≡ Calls.log G.group G.TangentVector.tangents G.TangentVector.values block.now tolerance }
{
    manifold::answered(within_log::<G>(block, tolerance)?)
}

// Vee is log.
pub fn vee<G: LieGroup>(block: &[f64], tolerance: f64) -> Result<G::TangentVector, Refusal>
    ensures { result ≡ Calls.log G.group G.TangentVector.tangents G.TangentVector.values block.now tolerance }
{
    log::<G>(block, tolerance)
}

#[tactic(auto, unfolding(crate::specs::Calls::act))]
pub fn act<G: LieGroup>(block: &[f64], vector: &[f64], tolerance: f64) -> Result<Vec3, Refusal>
    ensures { result ≡ Calls.act G.group block.now vector.now tolerance }
{
    let (a, p) = element_and_vector::<G>(block, vector, tolerance)?;
    manifold::answered(a.act(p))
}

#[tactic(auto, unfolding(crate::specs::Calls::rotation_matrix))]
pub fn rotation_matrix<G: LieGroup>(block: &[f64], tolerance: f64) -> Result<Mat3, Refusal>
    ensures { result ≡ Calls.rotation_matrix G.group block.now tolerance }
{
    let a = G::try_from_param_slice(block, tolerance)?;
    manifold::answered(a.rotation_matrix())
}

// ---- Their Jacobians. These calls, as those above and below, are alike but for the operation that each names in its last line; with the operation as
// a parameter the contract would be the caller's to state.

// The short form of the adjoint; the next opens it.
#[tactic(auto, unfolding(crate::specs::Calls::short_adjoint))]
pub fn short_adjoint<G: LieGroup>(block: &[f64], tolerance: f64) -> Result<G::Adjoint, Refusal>
    ensures { result ≡ Calls.short_adjoint G.group G.Adjoint.values block.now tolerance }
{
    let a = G::try_from_param_slice(block, tolerance)?;
    manifold::answered(a.adjoint())
}

#[tactic(auto, unfolding(crate::specs::Calls::adjoint))]
pub fn adjoint<G: LieGroup>(block: &[f64], tolerance: f64) -> Result<G::JacobianMatrix, Refusal>
    ensures { result ≡ Calls.adjoint G.group G.JacobianMatrix.values G.Adjoint.opened block.now tolerance }
{
    let a = G::try_from_param_slice(block, tolerance)?;
    manifold::answered_open(a.adjoint())
}

#[tactic(auto, unfolding(crate::specs::Calls::inverse_jacobian))]
pub fn inverse_jacobian<G: LieGroup>(
    block: &[f64],
    tolerance: f64,
) -> Result<G::JacobianMatrix, Refusal>
    ensures { result ≡ Calls.inverse_jacobian G.group G.JacobianMatrix.values block.now tolerance }
{
    let a = G::try_from_param_slice(block, tolerance)?;
    manifold::answered(a.inverse_jacobian())
}

// Of compose with respect to its left operand, an adjoint: its short form, and opened.
#[tactic(auto, unfolding(crate::specs::Calls::short_compose_jacobian_self))]
pub fn short_compose_jacobian_self<G: LieGroup>(
    left: &[f64],
    right: &[f64],
    tolerance: f64,
) -> Result<G::Adjoint, Refusal>
    ensures { result ≡ Calls.short_compose_jacobian_self G.group G.Adjoint.values left.now right.now tolerance }
{
    let (a, b) = elements::<G>(left, right, tolerance)?;
    manifold::answered(a.compose_jacobian_self(b))
}

#[tactic(auto, unfolding(crate::specs::Calls::compose_jacobian_self))]
pub fn compose_jacobian_self<G: LieGroup>(
    left: &[f64],
    right: &[f64],
    tolerance: f64,
) -> Result<G::JacobianMatrix, Refusal>
    ensures { result ≡ Calls.compose_jacobian_self G.group G.JacobianMatrix.values G.Adjoint.opened left.now right.now tolerance }
{
    let (a, b) = elements::<G>(left, right, tolerance)?;
    manifold::answered_open(a.compose_jacobian_self(b))
}

// Of compose with respect to its right operand.
#[tactic(auto, unfolding(crate::specs::Calls::compose_jacobian_other))]
pub fn compose_jacobian_other<G: LieGroup>(
    left: &[f64],
    right: &[f64],
    tolerance: f64,
) -> Result<G::JacobianMatrix, Refusal>
    ensures { result ≡ Calls.compose_jacobian_other G.group G.JacobianMatrix.values left.now right.now tolerance }
{
    elements::<G>(left, right, tolerance)?;
    manifold::answered(G::jacobian_identity())
}

// Of act with respect to the element.
#[tactic(auto, unfolding(crate::specs::Calls::act_jacobian_self))]
pub fn act_jacobian_self<G: LieGroup>(
    block: &[f64],
    vector: &[f64],
    tolerance: f64,
) -> Result<G::ActJacobian, Refusal>
    ensures { result ≡ Calls.act_jacobian_self G.group G.ActJacobian.values block.now vector.now tolerance }
{
    let (a, p) = element_and_vector::<G>(block, vector, tolerance)?;
    manifold::answered(a.act_jacobian_self(p))
}

// Of act with respect to the vector.
#[tactic(auto, unfolding(crate::specs::Calls::act_jacobian_vector))]
pub fn act_jacobian_vector<G: LieGroup>(
    block: &[f64],
    vector: &[f64],
    tolerance: f64,
) -> Result<Mat3, Refusal>
    ensures { result ≡ Calls.act_jacobian_vector G.group block.now vector.now tolerance }
{
    let (a, _) = element_and_vector::<G>(block, vector, tolerance)?;
    manifold::answered(a.rotation_matrix())
}

// ---- Tangents

pub fn tangents<T: Tangent>(left: &[f64], right: &[f64]) -> Result<(T, T), Refusal>
    ensures { result ≡ Calls.two_tangents T.tangents left.now right.now }
{
    checks::both(T::try_from_slice(left), T::try_from_slice(right))
}

// The tangent, if its turn is not too large.
#[tactic(auto, unfolding(crate::specs::Calls::within_exp))]
pub fn within_exp<T: Tangent>(tangent: &[f64]) -> Result<T, Refusal>
    ensures { result ≡ Calls.within_exp T.tangents tangent.now }
{
    T::try_from_slice(tangent)?.within_turn()
}

#[tactic(auto, unfolding(crate::specs::Calls::exp))]
pub fn exp<T: Tangent>(tangent: &[f64]) -> Result<T::Group, Refusal>
    ensures { result ≡ Calls.exp T.tangents T.Group.values tangent.now }
{
    manifold::answered(within_exp::<T>(tangent)?.exp())
}

#[tactic(auto, unfolding(crate::specs::Calls::hat))]
pub fn hat<T: Tangent>(tangent: &[f64]) -> Result<T::LieAlgebra, Refusal>
    ensures { result ≡ Calls.hat T.tangents T.LieAlgebra.values tangent.now }
{
    let t = T::try_from_slice(tangent)?;
    manifold::answered(t.hat())
}

#[tactic(auto, unfolding(crate::specs::Calls::small_adj))]
pub fn small_adj<T: Tangent>(tangent: &[f64]) -> Result<T::JacobianMatrix, Refusal>
    ensures { result ≡ Calls.small_adj T.tangents T.JacobianMatrix.values tangent.now }
{
    let t = T::try_from_slice(tangent)?;
    manifold::answered(t.small_adj())
}

#[tactic(auto, unfolding(crate::specs::Calls::lie_bracket))]
pub fn lie_bracket<T: Tangent>(left: &[f64], right: &[f64]) -> Result<T, Refusal>
    ensures { result ≡ Calls.lie_bracket T.tangents T.values left.now right.now }
{
    let (t, u) = tangents::<T>(left, right)?;
    manifold::answered(t.lie_bracket(u))
}

#[tactic(auto, unfolding(crate::specs::Calls::normalize_tangent))]
pub fn normalize_tangent<T: Tangent>(tangent: &[f64]) -> Result<T, Refusal>
    ensures { result ≡ Calls.normalize_tangent T.tangents T.values tangent.now }
{
    let t = T::try_from_slice(tangent)?;
    manifold::answered(t.normalize())
}

#[tactic(auto, unfolding(crate::specs::Calls::normalized_tangent))]
pub fn normalized_tangent<T: Tangent>(tangent: &[f64]) -> Result<T, Refusal>
    ensures { result ≡ Calls.normalized_tangent T.tangents T.values tangent.now }
{
    let t = T::try_from_slice(tangent)?;
    manifold::answered(t.normalized())
}

// ---- Between, and minus: it refuses 4 where its answer's turn is too large

#[tactic(auto, unfolding(crate::specs::Calls::between))]
pub fn between<G: LieGroup>(left: &[f64], right: &[f64], tolerance: f64) -> Result<G, Refusal>
    ensures { result ≡ Calls.between G.group G.values left.now right.now tolerance }
{
    let (a, b) = elements::<G>(left, right, tolerance)?;
    manifold::answered(a.between(b))
}

#[tactic(auto, unfolding(crate::specs::Calls::between_jacobian_self))]
pub fn between_jacobian_self<G: LieGroup>(
    left: &[f64],
    right: &[f64],
    tolerance: f64,
) -> Result<G::JacobianMatrix, Refusal>
    ensures { result ≡ Calls.between_jacobian_self G.group G.JacobianMatrix.values G.Adjoint.opened G.JacobianMatrix.negated left.now right.now tolerance }
{
    let (a, b) = elements::<G>(left, right, tolerance)?;
    manifold::answered(a.between_jacobian_self(b))
}

// As compose's with respect to its right operand.
pub fn between_jacobian_other<G: LieGroup>(
    left: &[f64],
    right: &[f64],
    tolerance: f64,
) -> Result<G::JacobianMatrix, Refusal>
    ensures { result ≡ Calls.compose_jacobian_other G.group G.JacobianMatrix.values left.now right.now tolerance }
{
    compose_jacobian_other::<G>(left, right, tolerance)
}

// The answer of minus, if its turn is not too large: of the one on the right, and of the one on the left with the element that it takes away, which
// the Jacobians need.
#[tactic(auto, unfolding(crate::specs::Calls::within_right_minus))]
pub fn within_right_minus<G: LieGroup>(
    left: &[f64],
    right: &[f64],
    tolerance: f64,
) -> Result<G::TangentVector, Refusal>
    ensures { result ≡ Calls.within_right_minus G.group G.TangentVector.tangents left.now right.now tolerance }
{
    let (a, b) = elements::<G>(left, right, tolerance)?;
    a.right_minus(b).within_turn()
}

#[tactic(auto, unfolding(crate::specs::Calls::within_left_minus))]
pub fn within_left_minus<G: LieGroup>(
    left: &[f64],
    right: &[f64],
    tolerance: f64,
) -> Result<(G::TangentVector, G), Refusal>
    ensures { result ≡ Calls.within_left_minus G.group G.TangentVector.tangents left.now right.now tolerance }
{
    let (a, b) = elements::<G>(left, right, tolerance)?;
    let t = a.left_minus(b).within_turn()?;
    Ok((t, b))
}

#[tactic(auto, unfolding(crate::specs::Calls::right_minus))]
pub fn right_minus<G: LieGroup>(
    left: &[f64],
    right: &[f64],
    tolerance: f64,
) -> Result<G::TangentVector, Refusal>
    ensures { result ≡ Calls.right_minus G.group G.TangentVector.tangents G.TangentVector.values left.now right.now tolerance }
{
    manifold::answered(within_right_minus::<G>(left, right, tolerance)?)
}

#[tactic(auto, unfolding(crate::specs::Calls::left_minus))]
pub fn left_minus<G: LieGroup>(
    left: &[f64],
    right: &[f64],
    tolerance: f64,
) -> Result<G::TangentVector, Refusal>
    ensures { result ≡ Calls.left_minus G.group G.TangentVector.tangents G.TangentVector.values left.now right.now tolerance }
{
    let (t, _) = within_left_minus::<G>(left, right, tolerance)?;
    manifold::answered(t)
}

// Minus is the one on the right.
pub fn minus<G: LieGroup>(
    left: &[f64],
    right: &[f64],
    tolerance: f64,
) -> Result<G::TangentVector, Refusal>
    ensures { result ≡ Calls.right_minus G.group G.TangentVector.tangents G.TangentVector.values left.now right.now tolerance }
{
    right_minus::<G>(left, right, tolerance)
}

// ---- Plus: it refuses 4 where its tangent's turn is too large

pub fn element_and_tangent<G: LieGroup>(
    block: &[f64],
    tangent: &[f64],
    tolerance: f64,
) -> Result<(G, G::TangentVector), Refusal>
    ensures { result ≡ Calls.element_and_tangent G.group G.TangentVector.tangents block.now tangent.now tolerance }
{
    checks::both(
        G::try_from_param_slice(block, tolerance),
        G::TangentVector::try_from_slice(tangent),
    )
}

// The element and the tangent, if the turn is not too large.
#[tactic(auto, unfolding(crate::specs::Calls::within_plus))]
pub fn within_plus<G: LieGroup>(
    block: &[f64],
    tangent: &[f64],
    tolerance: f64,
) -> Result<(G, G::TangentVector), Refusal>
    ensures { result ≡ Calls.within_plus G.group G.TangentVector.tangents block.now tangent.now tolerance }
{
    let (a, t) = element_and_tangent::<G>(block, tangent, tolerance)?;
    Ok((a, t.within_turn()?))
}

#[tactic(auto, unfolding(crate::specs::Calls::right_plus))]
pub fn right_plus<G: LieGroup>(block: &[f64], tangent: &[f64], tolerance: f64) -> Result<G, Refusal>
    ensures { result ≡ Calls.right_plus G.group G.TangentVector.tangents G.values block.now tangent.now tolerance }
{
    let (a, t) = within_plus::<G>(block, tangent, tolerance)?;
    manifold::answered(a.right_plus(t))
}

// Of right_plus with respect to the element, an adjoint: its short form, and opened.
#[tactic(auto, unfolding(crate::specs::Calls::short_right_plus_jacobian_self))]
pub fn short_right_plus_jacobian_self<G: LieGroup>(
    block: &[f64],
    tangent: &[f64],
    tolerance: f64,
) -> Result<G::Adjoint, Refusal>
    ensures { result ≡ Calls.short_right_plus_jacobian_self G.group G.TangentVector.tangents G.Adjoint.values block.now tangent.now tolerance }
{
    let (a, t) = within_plus::<G>(block, tangent, tolerance)?;
    manifold::answered(a.right_plus_jacobian_self(t))
}

#[tactic(auto, unfolding(crate::specs::Calls::right_plus_jacobian_self))]
pub fn right_plus_jacobian_self<G: LieGroup>(
    block: &[f64],
    tangent: &[f64],
    tolerance: f64,
) -> Result<G::JacobianMatrix, Refusal>
    ensures { result ≡ Calls.right_plus_jacobian_self G.group G.TangentVector.tangents G.JacobianMatrix.values G.Adjoint.opened block.now tangent.now tolerance }
{
    let (a, t) = within_plus::<G>(block, tangent, tolerance)?;
    manifold::answered_open(a.right_plus_jacobian_self(t))
}

#[tactic(auto, unfolding(crate::specs::Calls::left_plus))]
pub fn left_plus<G: LieGroup>(block: &[f64], tangent: &[f64], tolerance: f64) -> Result<G, Refusal>
    ensures { result ≡ Calls.left_plus G.group G.TangentVector.tangents G.values block.now tangent.now tolerance }
{
    let (a, t) = within_plus::<G>(block, tangent, tolerance)?;
    manifold::answered(a.left_plus(t))
}

#[tactic(auto, unfolding(crate::specs::Calls::left_plus_jacobian_self))]
pub fn left_plus_jacobian_self<G: LieGroup>(
    block: &[f64],
    tangent: &[f64],
    tolerance: f64,
) -> Result<G::JacobianMatrix, Refusal>
    ensures { result ≡ Calls.left_plus_jacobian_self G.group G.TangentVector.tangents G.JacobianMatrix.values block.now tangent.now tolerance }
{
    within_plus::<G>(block, tangent, tolerance)?;
    manifold::answered(G::jacobian_identity())
}

// Plus is the one on the right.
pub fn plus<G: LieGroup>(block: &[f64], tangent: &[f64], tolerance: f64) -> Result<G, Refusal>
    ensures { result ≡ Calls.right_plus G.group G.TangentVector.tangents G.values block.now tangent.now tolerance }
{
    right_plus(block, tangent, tolerance)
}

pub fn plus_jacobian_self<G: LieGroup>(
    block: &[f64],
    tangent: &[f64],
    tolerance: f64,
) -> Result<G::JacobianMatrix, Refusal>
    ensures { result ≡ Calls.right_plus_jacobian_self G.group G.TangentVector.tangents G.JacobianMatrix.values G.Adjoint.opened block.now tangent.now tolerance }
{
    right_plus_jacobian_self::<G>(block, tangent, tolerance)
}
