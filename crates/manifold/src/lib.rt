// The Lie groups of lib.rs as traits: what SO(3) and SGal(3) have in common. An operation by value answers any input; the calls on blocks,
// with their refusals, are in `manifold_calls`.
#![tactic(auto)]

ghost use Rattle.std.specs.Prelude.{◌≡◌, refl, ◌+◌, ◌≤◌, List, [], ◌∷◌, length, Float};
ghost use Rattle.checks.specs.Checks.{all_finite};
ghost use Rattle.linear.specs.Matrices as Matrices;
ghost use Rattle.linear.specs.Records as Records;
ghost use Rattle.manifold.specs.Answers as Answers;
ghost use Rattle.manifold.specs.Group as Group;
ghost use Rattle.manifold.specs.Operations as Operations;
ghost use Rattle.ten_rows.proofs.Opened.{opened-finite};
ghost use Rattle.ten_rows.specs.Adjoints as Adjoints;
ghost use Rattle.ten_rows.specs.TenRows as TenRows;

use checks::Refusal;
use linear::{Mat3, Quaternion, Vec3};
use ten_rows::Adjoint;

// ---- What is answered

// What a call may answer: values that can be tested.
pub trait Values: Copy {
    ghost values: { Self → List Float };

    fn is_finite(&self) -> bool
        ensures { result ≡ all_finite (values self.now) };
}

// The vector of the three values from place i on.
#[tactic(auto, unfolding(crate::specs::Answers::vector_at))]
pub fn vector_at(s: &[f64], i: usize) -> Vec3
    requires { i + 3 ≤ length s.now }
    ensures { result ≡ Answers.vector_at s.now i }
{
    Vec3 {
        x: s[i],
        y: s[i + 1],
        z: s[i + 2],
    }
}

// The quaternion w, x, y, z of the four values from place i on.
#[tactic(auto, unfolding(crate::specs::Answers::quaternion_at))]
pub fn quaternion_at(s: &[f64], i: usize) -> Quaternion
    requires { i + 4 ≤ length s.now }
    ensures { result ≡ Answers.quaternion_at s.now i }
{
    Quaternion {
        w: s[i],
        x: s[i + 1],
        y: s[i + 2],
        z: s[i + 3],
    }
}

pub fn vector_values(v: Vec3) -> [f64; 3]
    ensures { result ≡ Records.vector_values v }
{
    [v.x, v.y, v.z]
}

// By row.
pub fn matrix_values(m: Mat3) -> [f64; 9]
    ensures { result ≡ Records.matrix_values m }
{
    let a = m.row0;
    let b = m.row1;
    let c = m.row2;
    [a.x, a.y, a.z, b.x, b.y, b.z, c.x, c.y, c.z]
}

impl Values for Vec3 {
    ghost values = { Records.vector_values };

    fn is_finite(&self) -> bool {
        checks::all_finite(&vector_values(*self))
    }
}

impl Values for Mat3 {
    ghost values = { Records.matrix_values };

    fn is_finite(&self) -> bool {
        checks::all_finite(&matrix_values(*self))
    }
}

impl Values for f64 {
    ghost values = { λ x. x ∷ [] };

    fn is_finite(&self) -> bool {
        checks::all_finite(&[*self])
    }
}

// A matrix listed by row.
impl<const N: usize> Values for [f64; N] {
    ghost values = { λ m. m };

    fn is_finite(&self) -> bool {
        checks::all_finite(self)
    }
}

impl Values for [[f64; 10]; 10] {
    ghost values = { TenRows.values };

    fn is_finite(&self) -> bool {
        ten_rows::all_finite(self)
    }
}

// An answer whose values are finite, or the refusal. Inlined, so that no answer goes through memory on its way through the test.
#[inline(always)]
#[tactic(auto, unfolding(crate::specs::Answers::answered))]
pub fn answered<A: Values>(a: A) -> Result<A, Refusal>
    ensures { result ≡ Answers.answered A.values a }
{
    if a.is_finite() {
        Ok(a)
    } else {
        Err(Refusal::Overflow)
    }
}

// ---- Where a series is left, and where a turn is too large

// Above the limit, SMALL_ANGLE_THRESHOLD of lib.rs, a series is left.
#[tactic(auto, unfolding(crate::specs::Answers::leaves_series))]
pub fn leaves_series(squared: f64) -> bool
    ensures { result ≡ Answers.leaves_series squared }
{
    squared > 1e-10
}

// Whether an angle with this square is too large: exp, plus, log and minus refuse it.
#[tactic(auto, unfolding(crate::specs::Answers::turn_too_large))]
pub fn turn_too_large(squared: f64) -> bool
    ensures { result ≡ Answers.turn_too_large squared }
{
    squared > 9.0
}

// The turn test, of a turn or of a number's magnitude that is too large: 4.
#[tactic(auto, unfolding(crate::specs::Answers::within))]
pub fn within(refused: bool) -> Result<(), Refusal>
    ensures { result ≡ Answers.within refused }
{
    if refused { Err(Refusal::Turn) } else { Ok(()) }
}

// ---- The groups

// A Jacobian.
pub trait Jacobian: Values {
    ghost negated: { Self → Self };

    fn neg(self) -> Self
        ensures { result ≡ negated self };
}

impl Jacobian for Mat3 {
    ghost negated = { Matrices.neg };

    fn neg(self) -> Mat3 {
        Mat3::neg(self)
    }
}

impl Jacobian for [[f64; 10]; 10] {
    ghost negated = { TenRows.neg };

    fn neg(self) -> [[f64; 10]; 10] {
        ten_rows::neg(self)
    }
}

// The short form of an adjoint: of SO(3) the matrix, of SGal(3) its blocks alone.
pub trait ShortForm: Values {
    type Matrix: Jacobian;

    ghost opened: { Self → Self.Matrix };

    // The whole matrix.
    fn open(self) -> Self::Matrix
        ensures { result ≡ opened self };

    // Both are finite, or neither.
    ghost opened_finite: { (a : Self) → all_finite (Self.Matrix.values (opened a)) ≡ all_finite (Self.values a) };
}

impl ShortForm for Mat3 {
    type Matrix = Mat3;

    ghost opened = { λ m. m };

    fn open(self) -> Mat3 {
        self
    }

    ghost opened_finite = { λ m. refl };
}

// Block by block, so that no array of the 39 numbers has to be filled for the test.
impl Values for Adjoint {
    ghost values = { Adjoints.values };

    #[tactic(auto, using(ten_rows::proofs::Opened::values_finite))]
    fn is_finite(&self) -> bool {
        self.rotation.is_finite()
            && self.rho_nu.is_finite()
            && self.rho_theta.is_finite()
            && self.nu_theta.is_finite()
            && self.rho_s.is_finite()
    }
}

impl ShortForm for Adjoint {
    type Matrix = [[f64; 10]; 10];

    ghost opened = { Adjoints.opened };

    fn open(self) -> [[f64; 10]; 10] {
        Adjoint::open(self)
    }

    ghost opened_finite = { opened-finite };
}

// The whole matrix, or the refusal. The short form is tested: by `opened_finite` that says the same. By way of `answered`, or with an early return, this
// takes at least 400 bytes of stack more (docs/PERFORMANCE.md).
#[tactic(auto, unfolding(crate::specs::Answers::answered))]
pub fn answered_open<A: ShortForm>(short: A) -> Result<A::Matrix, Refusal>
    ensures { result ≡ Answers.answered A.Matrix.values (A.opened short) }
{
    if short.is_finite() {
        Ok(short.open())
    } else {
        Err(Refusal::Overflow)
    }
}

pub trait Tangent: Values {
    type Group: Values;

    type JacobianMatrix: Jacobian;

    type LieAlgebra: Values;

    ghost tangents: { Group.Tangents Self.Group Self Self.JacobianMatrix Self.LieAlgebra };

    // How many values a block has.
    fn dim() -> usize
        ensures { result ≡ tangents.dim };

    fn tangent_of(s: &[f64]) -> Self
        requires { length s.now ≡ tangents.dim }
        ensures { result ≡ tangents.tangent_of s.now };

    // The tangent of a block that is not refused. Here and in LieGroup under the source's names: TryFrom would be one more implementation for each
    // group, where this is once for all.
    #[tactic(auto, unfolding(crate::specs::Group::try_from_slice), using(checks::proofs::Passed::values_passed))]
    fn try_from_slice(s: &[f64]) -> Result<Self, Refusal>
        ensures { result ≡ Group.try_from_slice tangents s.now }
    {
        checks::check_values(s, Self::dim())?;
        Ok(Self::tangent_of(s))
    }

    fn zero() -> Self
        ensures { result ≡ tangents.zero };

    fn exp(self) -> Self::Group
        ensures { result ≡ tangents.exp self };

    // Whether its turn is too large: exp and plus refuse it, log and minus refuse to answer with it.
    fn turn_too_large(self) -> bool
        ensures { result ≡ tangents.turn_too_large self };

    // The tangent itself, if its turn is not too large: the one turn test of exp, plus, log and minus, and of their Jacobians.
    #[tactic(auto, unfolding(crate::specs::Group::within_turn))]
    fn within_turn(self) -> Result<Self, Refusal>
        ensures { result ≡ Group.within_turn tangents self }
    {
        within(self.turn_too_large())?;
        Ok(self)
    }

    fn hat(self) -> Self::LieAlgebra
        ensures { result ≡ tangents.hat self };

    // The generator of place i of a tangent; the zero matrix where there is no such place.
    fn generator(i: usize) -> Self::LieAlgebra
        ensures { result ≡ tangents.generator i };

    fn small_adj(self) -> Self::JacobianMatrix
        ensures { result ≡ tangents.small_adj self };

    fn lie_bracket(self, other: Self) -> Self
        ensures { result ≡ tangents.lie_bracket self other };

    fn normalize(self) -> Self
        ensures { result ≡ tangents.normalize self };

    fn normalized(self) -> Self
        ensures { result ≡ tangents.normalized self };
}

pub trait LieGroup: Values {
    type TangentVector: Tangent<Group = Self, JacobianMatrix = Self::JacobianMatrix>;

    type JacobianMatrix: Jacobian;

    type ActJacobian: Values;

    type Adjoint: ShortForm<Matrix = Self::JacobianMatrix>;

    ghost group: { Group.Group Self Self.TangentVector Self.JacobianMatrix Self.ActJacobian Self.Adjoint };

    // How many values a block has, and the place of its quaternion.
    fn rep_size() -> usize
        ensures { result ≡ group.rep_size };

    fn quaternion_place() -> usize
        ensures value { result ≡ group.quaternion_place }
        ensures fits { group.quaternion_place + 4 ≤ group.rep_size };

    fn element_of(s: &[f64]) -> Self
        requires { length s.now ≡ group.rep_size }
        ensures { result ≡ group.element_of s.now };

    // Any values: refuses a wrong length only.
    #[tactic(auto, unfolding(crate::specs::Group::from_param_slice), using(checks::proofs::Passed::length_passed))]
    fn from_param_slice(s: &[f64]) -> Result<Self, Refusal>
        ensures { result ≡ Group.from_param_slice group s.now }
    {
        checks::check_length(s, Self::rep_size())?;
        Ok(Self::element_of(s))
    }

    // Refuses 1, 2, 7 and 3.
    #[tactic(auto, unfolding(crate::specs::Group::validate_params))]
    fn validate_params(s: &[f64], tolerance: f64) -> Result<(), Refusal>
        ensures { result ≡ Group.validate_params group s.now tolerance }
    {
        checks::check_param_block(s, Self::rep_size(), Self::quaternion_place(), tolerance)
    }

    // The element of a block that is not refused.
    #[tactic(auto, unfolding(crate::specs::Group::try_from_param_slice, crate::specs::Group::validate_params), using(checks::proofs::Passed::passed_length))]
    fn try_from_param_slice(s: &[f64], tolerance: f64) -> Result<Self, Refusal>
        ensures { result ≡ Group.try_from_param_slice group s.now tolerance }
    {
        Self::validate_params(s, tolerance)?;
        Ok(Self::element_of(s))
    }

    fn identity() -> Self
        ensures { result ≡ group.identity };

    fn compose(self, other: Self) -> Self
        ensures { result ≡ group.compose self other };

    fn inverse(self) -> Self
        ensures { result ≡ group.inverse self };

    fn log(self) -> Self::TangentVector
        ensures { result ≡ group.log self };

    fn act(self, vector: Vec3) -> Vec3
        ensures { result ≡ group.act self vector };

    fn rotation_matrix(self) -> Mat3
        ensures { result ≡ group.rotation_matrix self };

    fn normalize(self) -> Self
        ensures { result ≡ group.normalize self };

    fn is_valid(self, tolerance: f64) -> bool
        ensures { result ≡ group.is_valid self tolerance };

    fn jacobian_identity() -> Self::JacobianMatrix
        ensures { result ≡ group.jacobian_identity };

    fn adjoint(self) -> Self::Adjoint
        ensures { result ≡ group.adjoint self };

    fn inverse_jacobian(self) -> Self::JacobianMatrix
        ensures { result ≡ group.inverse_jacobian self };

    // Of compose with respect to self.
    fn compose_jacobian_self(self, other: Self) -> Self::Adjoint
        ensures { result ≡ group.compose_jacobian_self self other };

    // Of act with respect to self.
    fn act_jacobian_self(self, vector: Vec3) -> Self::ActJacobian
        ensures { result ≡ group.act_jacobian_self self vector };

    // ---- Plus, minus and between, the same in every group

    #[tactic(auto, unfolding(crate::specs::Operations::right_plus))]
    fn right_plus(self, t: Self::TangentVector) -> Self
        ensures { result ≡ Operations.right_plus group Self.TangentVector.tangents self t }
    {
        self.compose(t.exp())
    }

    #[tactic(auto, unfolding(crate::specs::Operations::right_plus_jacobian_self))]
    fn right_plus_jacobian_self(self, t: Self::TangentVector) -> Self::Adjoint
        ensures { result ≡ Operations.right_plus_jacobian_self group Self.TangentVector.tangents self t }
    {
        self.compose_jacobian_self(t.exp())
    }

    #[tactic(auto, unfolding(crate::specs::Operations::left_plus))]
    fn left_plus(self, t: Self::TangentVector) -> Self
        ensures { result ≡ Operations.left_plus group Self.TangentVector.tangents self t }
    {
        t.exp().compose(self)
    }

    // What leads from self to other.
    #[tactic(auto, unfolding(crate::specs::Operations::between))]
    fn between(self, other: Self) -> Self
        ensures { result ≡ Operations.between group self other }
    {
        self.inverse().compose(other)
    }

    #[tactic(auto, unfolding(crate::specs::Operations::between_jacobian_self))]
    fn between_jacobian_self(self, other: Self) -> Self::JacobianMatrix
        ensures { result ≡ Operations.between_jacobian_self group Self.Adjoint.opened Self.JacobianMatrix.negated self other }
    {
        self.between(other).inverse().adjoint().open().neg()
    }

    #[tactic(auto, unfolding(crate::specs::Operations::left_between))]
    fn left_between(self, other: Self) -> Self
        ensures { result ≡ Operations.left_between group self other }
    {
        self.compose(other.inverse())
    }

    #[tactic(auto, unfolding(crate::specs::Operations::right_minus))]
    fn right_minus(self, other: Self) -> Self::TangentVector
        ensures { result ≡ Operations.right_minus group self other }
    {
        other.between(self).log()
    }

    #[tactic(auto, unfolding(crate::specs::Operations::left_minus))]
    fn left_minus(self, other: Self) -> Self::TangentVector
        ensures { result ≡ Operations.left_minus group self other }
    {
        self.left_between(other).log()
    }
}
