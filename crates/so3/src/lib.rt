// Rotations SO(3): elements and tangents by value (so3.rs). An element's four values are kept as given; each operation
// normalises them first.
#![tactic(auto)]

ghost use Rattle.std.specs.Prelude.{◌≡◌};
ghost use Rattle.so3.specs.Angles as Angles;
ghost use Rattle.so3.specs.Elements as Elements;
ghost use Rattle.so3.specs.Group as So3;
ghost use Rattle.so3.specs.Jacobians as Jacobians;
ghost use Rattle.so3.specs.Tangents as Tangents;

use linear::{Mat3, Quaternion, Vec3};
use manifold::{LieGroup, Tangent as _, Values};

// How many values a tangent has.
pub const DOF: usize = 3;

// How many values an element has.
pub const REP_SIZE: usize = 4;

// The quaternion w, x, y, z, as it is stored.
#[derive(Clone, Copy)]
pub struct Element {
    pub params: Quaternion,
}

// The rotation vector theta: its direction is the axis, its norm the angle.
#[derive(Clone, Copy)]
pub struct Tangent {
    pub theta: Vec3,
}

impl Element {
    // Kept as given.
    #[tactic(auto, unfolding(crate::specs::Elements::new))]
    pub fn new(quaternion: Quaternion) -> Element
        ensures { result ≡ Elements.new quaternion }
    {
        Element { params: quaternion }
    }

    // Normalised once.
    #[tactic(auto, unfolding(crate::specs::Elements::from_quaternion_wxyz, linear::specs::Quaternions::normalize, law::specs::Rotation::unit_quaternion))]
    pub fn from_quaternion_wxyz(w: f64, x: f64, y: f64, z: f64) -> Element
        ensures { result ≡ Elements.from_quaternion_wxyz w x y z }
    {
        let q = Quaternion { w, x, y, z };
        Element {
            params: q.normalize(),
        }
    }

    // Its four values w, x, y, z.
    #[tactic(auto, unfolding(crate::specs::Elements::values))]
    pub fn coeffs(self) -> [f64; REP_SIZE]
        ensures { result ≡ Elements.values self }
    {
        let q = self.params;
        [q.w, q.x, q.y, q.z]
    }

    #[tactic(auto, unfolding(crate::specs::Elements::unit_quaternion, linear::specs::Quaternions::normalize, law::specs::Rotation::unit_quaternion))]
    pub fn unit_quaternion(self) -> Quaternion
        ensures { result ≡ Elements.unit_quaternion self }
    {
        self.params.normalize()
    }

    // Half of the angle, from 0 to 1.6: q and -q have the same.
    #[tactic(auto, unfolding(crate::specs::Elements::half_angle, crate::specs::Elements::half_angle_of, crate::specs::Elements::sin_angle_squared, linear::specs::Quaternions::vector, linear::specs::Vectors::norm_squared))]
    pub fn half_angle(self) -> f64
        ensures { result ≡ Elements.half_angle self }
    {
        let q = self.unit_quaternion();
        let s = float::general_sqrt(q.vector().norm_squared());
        half_angle::half_angle(s, float::magnitude(q.w))
    }

    // ---- Of plus with respect to its tangent, on the left; on the right it is the tangent's right Jacobian

    #[tactic(auto, unfolding(crate::specs::Jacobians::left_plus_jacobian_tangent))]
    pub fn left_plus_jacobian_tangent(self, t: Tangent) -> Mat3
        ensures { result ≡ Jacobians.left_plus_jacobian_tangent self t }
    {
        self.inverse().adjoint().mul(t.right_jacobian())
    }
}

impl Values for Element {
    ghost values = { Elements.values };

    fn is_finite(&self) -> bool {
        checks::all_finite(&self.coeffs())
    }
}

impl Values for Tangent {
    ghost values = { Tangents.values };

    #[tactic(auto, unfolding(crate::specs::Tangents::values))]
    fn is_finite(&self) -> bool {
        self.theta.is_finite()
    }
}

impl LieGroup for Element {
    type TangentVector = Tangent;

    type JacobianMatrix = Mat3;

    type ActJacobian = Mat3;

    // Nine places, none of them empty.
    type Adjoint = Mat3;

    ghost group = { So3.group };

    fn rep_size() -> usize {
        REP_SIZE
    }

    fn quaternion_place() -> usize {
        0
    }

    #[tactic(auto, unfolding(crate::specs::Elements::element_of))]
    fn element_of(s: &[f64]) -> Element {
        Element {
            params: manifold::quaternion_at(s, 0),
        }
    }

    fn jacobian_identity() -> Mat3 {
        Mat3::identity()
    }

    #[tactic(auto, unfolding(crate::specs::Elements::identity, linear::specs::Quaternions::identity))]
    fn identity() -> Element {
        Element {
            params: Quaternion::identity(),
        }
    }

    // A product is not normalised again.
    fn compose(self, other: Element) -> Element {
        Element {
            params: self.unit_quaternion().mul(other.unit_quaternion()),
        }
    }

    #[tactic(auto, unfolding(crate::specs::Elements::inverse, crate::specs::Elements::unit_quaternion, linear::specs::Quaternions::conjugate, law::specs::Rotation::inverse))]
    fn inverse(self) -> Element {
        Element {
            params: self.unit_quaternion().conjugate(),
        }
    }

    fn log(self) -> Tangent {
        let q = self.unit_quaternion();
        Tangent {
            theta: q.vector().scale(log_coeff(q)),
        }
    }

    #[tactic(auto, unfolding(crate::specs::Elements::act, crate::specs::Elements::unit_quaternion, linear::specs::Quaternions::rotate, law::specs::Rotation::act))]
    fn act(self, vector: Vec3) -> Vec3 {
        self.unit_quaternion().rotate(vector)
    }

    fn rotation_matrix(self) -> Mat3 {
        self.unit_quaternion().rotation_matrix()
    }

    // Divides by the norm twice.
    fn normalize(self) -> Element {
        Element {
            params: self.params.normalize().normalize(),
        }
    }

    // A tolerance that is not finite is met by nothing.
    #[tactic(auto, unfolding(crate::specs::Elements::is_valid, checks::specs::Checks::norm_of))]
    fn is_valid(self, tolerance: f64) -> bool {
        if !float::is_finite(tolerance) {
            return false;
        }
        let q = self.params;
        let norm = float::sqrt(q.w * q.w + q.x * q.x + q.y * q.y + q.z * q.z);
        float::magnitude(norm - 1.0) < tolerance
    }

    #[tactic(auto, unfolding(crate::specs::Elements::adjoint, crate::specs::Elements::rotation_matrix, law::specs::Rotation::adjoint))]
    fn adjoint(self) -> Mat3 {
        self.rotation_matrix()
    }

    // ---- Jacobians
    // These two as in sgal3: each group's paper has its formulas, so each has its definition, and a trait's method for both would have to know that they
    // agree.
    fn inverse_jacobian(self) -> Mat3 {
        self.adjoint().neg()
    }

    // Of compose with respect to self.
    fn compose_jacobian_self(self, other: Element) -> Mat3 {
        other.inverse().adjoint()
    }

    // Of act with respect to self: the rotation is negated before the product.
    fn act_jacobian_self(self, vector: Vec3) -> Mat3 {
        self.rotation_matrix().neg().mul(Mat3::hat(vector))
    }
}

// An angle with its square, its sine and its cosine: what the closed forms are made of.
#[derive(Clone, Copy)]
pub struct Angle {
    pub squared: f64,
    pub angle: f64,
    pub sine: f64,
    pub cosine: f64,
}

impl Angle {
    // Of the angle with this square.
    #[tactic(auto, unfolding(crate::specs::Angles::of_square))]
    pub fn of_square(squared: f64) -> Angle
        ensures { result ≡ Angles.of_square squared }
    {
        let angle = float::general_sqrt(squared);
        Angle {
            squared,
            angle,
            sine: trigonometry::sine(angle),
            cosine: trigonometry::cosine(angle),
        }
    }
}

// Negated where w is below zero: q and -q are the same rotation.
#[tactic(auto, unfolding(crate::specs::Elements::mirrored))]
fn mirrored(w: f64, a: f64) -> f64
    ensures { result ≡ Elements.mirrored w a }
{
    if w < 0.0 { -a } else { a }
}

// What log multiplies the vector part of a unit quaternion by.
#[tactic(auto, unfolding(crate::specs::Elements::log_coeff, crate::specs::Elements::half_angle_of, crate::specs::Elements::sin_angle_squared, linear::specs::Quaternions::vector, linear::specs::Vectors::norm_squared, law::specs::ClosedForms::log_coefficient))]
fn log_coeff(q: Quaternion) -> f64
    ensures { result ≡ Elements.log_coeff q }
{
    let sin_angle_squared = q.vector().norm_squared();
    if manifold::leaves_series(sin_angle_squared) {
        let sin_angle = float::general_sqrt(sin_angle_squared);
        let a = half_angle::half_angle(sin_angle, float::magnitude(q.w));
        2.0 * mirrored(q.w, a) / sin_angle
    } else {
        mirrored(q.w, 2.0)
    }
}

impl Tangent {
    // Divided by its norm, or `small` where that is not above 2^-52.
    #[tactic(auto, unfolding(crate::specs::Tangents::unit_or, linear::specs::Vectors::norm, linear::specs::Vectors::divide))]
    fn unit_or(self, small: Tangent) -> Tangent
        ensures { result ≡ Tangents.unit_or self small }
    {
        let norm = self.theta.norm();
        if norm > 2.220446049250313e-16 {
            Tangent {
                theta: self.theta.divide(norm),
            }
        } else {
            small
        }
    }

    // The squared angle: what exp and the Jacobians test.
    #[tactic(auto, unfolding(crate::specs::Tangents::theta_squared, linear::specs::Vectors::norm_squared))]
    pub fn theta_squared(self) -> f64
        ensures { result ≡ Tangents.theta_squared self }
    {
        self.theta.norm_squared()
    }

    // Whether exp and the Jacobians leave their series.
    #[tactic(auto, unfolding(crate::specs::Tangents::leaves_series))]
    pub fn leaves_series(self) -> bool
        ensures { result ≡ Tangents.leaves_series self }
    {
        manifold::leaves_series(self.theta_squared())
    }

    // ---- Exp, the left Jacobian and its inverse, each by its series and by its closed form

    #[tactic(auto, unfolding(crate::specs::Tangents::exp_series, linear::specs::Quaternions::normalize, law::specs::Series::exp, law::specs::Rotation::unit_quaternion))]
    pub fn exp_series(self) -> Element
        ensures { result ≡ Tangents.exp_series self }
    {
        let theta = self.theta;
        let q = Quaternion {
            w: 1.0,
            x: theta.x / 2.0,
            y: theta.y / 2.0,
            z: theta.z / 2.0,
        };
        Element {
            params: q.normalize(),
        }
    }

    // nalgebra's from_scaled_axis, by a textbook: not normalised.
    pub fn exp_closed(self) -> Element
        ensures { result ≡ Tangents.exp_closed self }
    {
        let half = self.theta.divide(2.0);
        let n = Angle::of_square(half.norm_squared());
        let v = half.scale(n.sine / n.angle);
        let q = Quaternion {
            w: n.cosine,
            x: v.x,
            y: v.y,
            z: v.z,
        };
        Element { params: q }
    }

    pub fn left_jacobian_series(self) -> Mat3
        ensures { result ≡ Tangents.left_jacobian_series self }
    {
        Mat3::identity().add(self.hat().scale(0.5))
    }

    // Over an angle that is given: SGal(3)'s exp needs it elsewhere too.
    pub fn left_jacobian_closed(self, w: Angle) -> Mat3
        ensures { result ≡ Tangents.left_jacobian_closed w self }
    {
        let skew = self.hat();
        let a = (1.0 - w.cosine) / w.squared;
        let b = (w.angle - w.sine) / (w.squared * w.angle);
        Mat3::identity()
            .add(skew.scale(a))
            .add(skew.scale(b).mul(skew))
    }

    #[tactic(auto, unfolding(crate::specs::Tangents::left_jacobian))]
    pub fn left_jacobian(self) -> Mat3
        ensures { result ≡ Tangents.left_jacobian self }
    {
        if self.leaves_series() {
            self.left_jacobian_closed(Angle::of_square(self.theta_squared()))
        } else {
            self.left_jacobian_series()
        }
    }

    #[tactic(auto, unfolding(crate::specs::Tangents::right_jacobian))]
    pub fn right_jacobian(self) -> Mat3
        ensures { result ≡ Tangents.right_jacobian self }
    {
        self.left_jacobian().transpose()
    }

    pub fn left_jacobian_inv_series(self) -> Mat3
        ensures { result ≡ Tangents.left_jacobian_inv_series self }
    {
        Mat3::identity().sub(self.hat().scale(0.5))
    }

    // Over an angle that is given: SGal(3)'s log needs it elsewhere too.
    pub fn left_jacobian_inv_closed(self, w: Angle) -> Mat3
        ensures { result ≡ Tangents.left_jacobian_inv_closed w self }
    {
        let skew = self.hat();
        let k = 1.0 / w.squared - (1.0 + w.cosine) / (2.0 * w.angle * w.sine);
        self.left_jacobian_inv_series().add(skew.scale(k).mul(skew))
    }

    #[tactic(auto, unfolding(crate::specs::Tangents::left_jacobian_inv))]
    pub fn left_jacobian_inv(self) -> Mat3
        ensures { result ≡ Tangents.left_jacobian_inv self }
    {
        if self.leaves_series() {
            self.left_jacobian_inv_closed(Angle::of_square(self.theta_squared()))
        } else {
            self.left_jacobian_inv_series()
        }
    }

    #[tactic(auto, unfolding(crate::specs::Tangents::right_jacobian_inv))]
    pub fn right_jacobian_inv(self) -> Mat3
        ensures { result ≡ Tangents.right_jacobian_inv self }
    {
        self.left_jacobian_inv().transpose()
    }

    // ---- Jacobians of minus, at its answer. Of the one on the right with respect to self, and of log, it is the inverse of the right Jacobian

    #[tactic(auto, unfolding(crate::specs::Jacobians::right_minus_jacobian_other))]
    pub fn right_minus_jacobian_other(self) -> Mat3
        ensures { result ≡ Jacobians.right_minus_jacobian_other self }
    {
        self.left_jacobian_inv().neg()
    }

    #[tactic(auto, unfolding(crate::specs::Jacobians::left_minus_jacobian_self))]
    pub fn left_minus_jacobian_self(self, other: Element) -> Mat3
        ensures { result ≡ Jacobians.left_minus_jacobian_self self other }
    {
        self.right_jacobian_inv().mul(other.adjoint())
    }

    #[tactic(auto, unfolding(crate::specs::Jacobians::left_minus_jacobian_other))]
    pub fn left_minus_jacobian_other(self, other: Element) -> Mat3
        ensures { result ≡ Jacobians.left_minus_jacobian_other self other }
    {
        self.left_minus_jacobian_self(other).neg()
    }
}

impl manifold::Tangent for Tangent {
    type Group = Element;

    type JacobianMatrix = Mat3;

    type LieAlgebra = Mat3;

    ghost tangents = { So3.tangents };

    fn dim() -> usize {
        DOF
    }

    #[tactic(auto, unfolding(crate::specs::Tangents::tangent_of))]
    fn tangent_of(s: &[f64]) -> Tangent {
        Tangent {
            theta: manifold::vector_at(s, 0),
        }
    }

    #[tactic(auto, unfolding(crate::specs::Tangents::turn_too_large))]
    fn turn_too_large(self) -> bool {
        manifold::turn_too_large(self.theta_squared())
    }

    fn generator(i: usize) -> Mat3 {
        generator(i)
    }

    #[tactic(auto, unfolding(crate::specs::Tangents::zero, linear::specs::Vectors::zero))]
    fn zero() -> Tangent {
        Tangent {
            theta: Vec3::zero(),
        }
    }

    #[tactic(auto, unfolding(crate::specs::Tangents::exp))]
    fn exp(self) -> Element {
        if self.leaves_series() {
            self.exp_closed()
        } else {
            self.exp_series()
        }
    }

    #[tactic(auto, unfolding(crate::specs::Tangents::hat, linear::specs::Matrices::hat))]
    fn hat(self) -> Mat3 {
        Mat3::hat(self.theta)
    }

    #[tactic(auto, unfolding(crate::specs::Tangents::small_adj))]
    fn small_adj(self) -> Mat3 {
        self.hat()
    }

    #[tactic(auto, unfolding(crate::specs::Tangents::lie_bracket, crate::specs::Tangents::small_adj, crate::specs::Tangents::hat, linear::specs::Matrices::apply, law::specs::Rotation::lie_bracket))]
    fn lie_bracket(self, other: Tangent) -> Tangent {
        Tangent {
            theta: self.small_adj().apply(other.theta),
        }
    }

    // Kept as it is where its norm is not above 2^-52.
    #[tactic(auto, unfolding(crate::specs::Tangents::normalize))]
    fn normalize(self) -> Tangent {
        self.unit_or(self)
    }

    // Zero where its norm is not above 2^-52.
    #[tactic(auto, unfolding(crate::specs::Tangents::normalized))]
    fn normalized(self) -> Tangent {
        self.unit_or(Tangent::zero())
    }
}

// ---- Generators: turns about an axis
// Three constants, written out: the hat of a unit vector has -0 where these have +0.
#[tactic(auto, unfolding(crate::specs::Tangents::about_x))]
fn about_x() -> Mat3
    ensures { result ≡ Tangents.about_x }
{
    Mat3 {
        row0: Vec3 {
            x: 0.0,
            y: 0.0,
            z: 0.0,
        },
        row1: Vec3 {
            x: 0.0,
            y: 0.0,
            z: -1.0,
        },
        row2: Vec3 {
            x: 0.0,
            y: 1.0,
            z: 0.0,
        },
    }
}

#[tactic(auto, unfolding(crate::specs::Tangents::about_y))]
fn about_y() -> Mat3
    ensures { result ≡ Tangents.about_y }
{
    Mat3 {
        row0: Vec3 {
            x: 0.0,
            y: 0.0,
            z: 1.0,
        },
        row1: Vec3 {
            x: 0.0,
            y: 0.0,
            z: 0.0,
        },
        row2: Vec3 {
            x: -1.0,
            y: 0.0,
            z: 0.0,
        },
    }
}

#[tactic(auto, unfolding(crate::specs::Tangents::about_z))]
fn about_z() -> Mat3
    ensures { result ≡ Tangents.about_z }
{
    Mat3 {
        row0: Vec3 {
            x: 0.0,
            y: -1.0,
            z: 0.0,
        },
        row1: Vec3 {
            x: 1.0,
            y: 0.0,
            z: 0.0,
        },
        row2: Vec3 {
            x: 0.0,
            y: 0.0,
            z: 0.0,
        },
    }
}

// The generator of turns about axis i; the zero matrix from i = 3.
#[tactic(auto, unfolding(crate::specs::Tangents::generator))]
fn generator(i: usize) -> Mat3
    ensures { result ≡ Tangents.generator i }
{
    match i {
        0 => about_x(),
        1 => about_y(),
        2 => about_z(),
        _ => Mat3::zero(),
    }
}
