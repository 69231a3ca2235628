// The Galilean group SGal(3): elements and tangents by value (sgal3.rs). A block's quaternion is kept as given; rotation_impl
// normalises it, and an operation of SO(3) on that once more.
#![tactic(auto)]

ghost use Rattle.std.specs.Prelude.{◌≡◌, length};
ghost use Rattle.sgal3.specs.Algebra as Algebra;
ghost use Rattle.sgal3.specs.Elements as Elements;
ghost use Rattle.sgal3.specs.Events as Events;
ghost use Rattle.sgal3.specs.Group as SGal3;
ghost use Rattle.sgal3.specs.Matrices as Matrices;
ghost use Rattle.sgal3.specs.Tangents as Tangents;

use linear::{Mat3, Quaternion, Vec3};
use manifold::{Jacobian, LieGroup, Tangent as _, Values};
use so3::Angle;
use ten_rows::Adjoint;

// How many values a tangent has.
pub const DOF: usize = 10;

// How many values an element has.
pub const REP_SIZE: usize = 11;

// How many values an event has.
pub const EVENT_SIZE: usize = 4;

// A block's values in their order: translation, quaternion w, x, y, z, velocity, time.
#[derive(Clone, Copy)]
pub struct Element {
    pub translation: Vec3,
    pub rotation: Quaternion,
    pub velocity: Vec3,
    pub time: f64,
}

// A tangent's values in their order.
#[derive(Clone, Copy)]
pub struct Tangent {
    pub rho: Vec3,
    pub nu: Vec3,
    pub theta: Vec3,
    pub s: f64,
}

// A point with a time of its own. A block's values in their order.
#[derive(Clone, Copy)]
pub struct Event {
    pub point: Vec3,
    pub time: f64,
}

impl Event {
    // The four values of a block.
    #[tactic(auto, unfolding(crate::specs::Events::coeffs))]
    pub fn coeffs(self) -> [f64; EVENT_SIZE]
        ensures { result ≡ Events.coeffs self }
    {
        let p = self.point;
        [p.x, p.y, p.z, self.time]
    }

    #[tactic(auto, unfolding(crate::specs::Events::event_of))]
    pub fn event_of(s: &[f64]) -> Event
        requires { length s.now ≡ EVENT_SIZE }
        ensures { result ≡ Events.event_of s.now }
    {
        Event {
            point: manifold::vector_at(s, 0),
            time: s[3],
        }
    }
}

impl Values for Event {
    ghost values = { Events.coeffs };

    fn is_finite(&self) -> bool {
        checks::all_finite(&self.coeffs())
    }
}

impl Element {
    // The rotation, normalised once.
    #[tactic(auto, unfolding(crate::specs::Elements::rotation_impl, so3::specs::Elements::from_quaternion_wxyz, law::specs::Galilean::rotation_impl, law::specs::Rotation::unit_quaternion))]
    pub fn rotation_impl(self) -> so3::Element
        ensures { result ≡ Elements.rotation_impl self }
    {
        let q = self.rotation;
        so3::Element::from_quaternion_wxyz(q.w, q.x, q.y, q.z)
    }

    // Normalised by rotation_impl, and once more by SO(3)'s unit_quaternion.
    pub fn rotation_quaternion(self) -> Quaternion
        ensures { result ≡ Elements.rotation_quaternion self }
    {
        self.rotation.normalize().normalize()
    }

    // The eleven values of a block.
    #[tactic(auto, unfolding(crate::specs::Elements::coeffs))]
    pub fn coeffs(self) -> [f64; REP_SIZE]
        ensures { result ≡ Elements.coeffs self }
    {
        let t = self.translation;
        let q = self.rotation;
        let v = self.velocity;
        [t.x, t.y, t.z, q.w, q.x, q.y, q.z, v.x, v.y, v.z, self.time]
    }

    // The point is taken at the event's own time: (R·p + v·tau) + t, where act adds t before v·s.
    pub fn act_event(self, event: Event) -> Event
        ensures { result ≡ Events.act_event self event }
    {
        let point = self
            .rotation_quaternion()
            .rotate(event.point)
            .add(self.velocity.scale(event.time))
            .add(self.translation);
        Event {
            point,
            time: event.time + self.time,
        }
    }

    // Log by the rotation's own, and the inverse of the left Jacobian and M of its theta.
    fn log_by(self, turn: so3::Tangent, v_inv: Mat3, coupling: Mat3) -> Tangent
        ensures { result ≡ Elements.log_by turn v_inv coupling self }
    {
        let nu = v_inv.apply(self.velocity);
        let rho = v_inv.apply(self.translation.sub(coupling.apply(nu).scale(self.time)));
        Tangent {
            rho,
            nu,
            theta: turn.theta,
            s: self.time,
        }
    }

    // Velocity in column 3, translation in column 4.
    #[tactic(auto, unfolding(crate::specs::Matrices::matrix, crate::specs::Elements::rotation_matrix, law::specs::Galilean::matrix, law::specs::Galilean::matrix_at, law::specs::Galilean::row5, law::specs::Galilean::rotation_matrix, law::specs::Rotation::rotation_matrix, law::specs::Rows::by_row, law::specs::Vector::zero))]
    pub fn matrix(self) -> [f64; 25]
        ensures { result ≡ Matrices.matrix self }
    {
        let r = self.rotation_matrix();
        let v = self.velocity;
        let t = self.translation;
        let x = r.row0;
        let y = r.row1;
        let z = r.row2;
        [
            x.x, x.y, x.z, v.x, t.x, y.x, y.y, y.z, v.y, t.y, z.x, z.y, z.z, v.z, t.z, 0.0, 0.0,
            0.0, 1.0, self.time, 0.0, 0.0, 0.0, 0.0, 1.0,
        ]
    }
}

impl Values for Element {
    ghost values = { Elements.coeffs };

    // Whether all values are finite. A sum with one that is not is not finite, so one test tells of all, unless the sum itself overflows. It
    // is taken in pairs, as the compiler holds the values.
    fn is_finite(&self) -> bool {
        let t = self.translation;
        let q = self.rotation;
        let v = self.velocity;
        let first = t.x + q.w + (q.y + v.x);
        let second = t.y + q.x + (q.z + v.y);
        if float::is_finite(first + second + (t.z + v.z + self.time)) {
            return true;
        }
        let values = self.coeffs();
        checks::all_finite(&values)
    }
}

impl Values for Tangent {
    ghost values = { Tangents.coeffs };

    fn is_finite(&self) -> bool {
        checks::all_finite(&self.coeffs())
    }
}

impl LieGroup for Element {
    type TangentVector = Tangent;

    type JacobianMatrix = [[f64; DOF]; DOF];

    type ActJacobian = [f64; 30];

    type Adjoint = Adjoint;

    ghost group = { SGal3.group };

    fn rep_size() -> usize {
        REP_SIZE
    }

    fn quaternion_place() -> usize {
        3
    }

    #[tactic(auto, unfolding(crate::specs::Elements::element_of))]
    fn element_of(s: &[f64]) -> Element {
        Element {
            translation: manifold::vector_at(s, 0),
            rotation: manifold::quaternion_at(s, 3),
            velocity: manifold::vector_at(s, 7),
            time: s[10],
        }
    }

    #[tactic(auto, unfolding(crate::specs::Elements::identity, linear::specs::Vectors::zero, linear::specs::Quaternions::identity, law::specs::Galilean::identity))]
    fn identity() -> Element {
        Element {
            translation: Vec3::zero(),
            rotation: Quaternion::identity(),
            velocity: Vec3::zero(),
            time: 0.0,
        }
    }

    fn compose(self, other: Element) -> Element {
        let rot = self.rotation_quaternion();
        let v = self.velocity;
        let s2 = other.time;
        let rotation = rot.mul(other.rotation_quaternion());
        let translation = rot
            .rotate(other.translation)
            .add(self.translation)
            .add(v.scale(s2));
        let velocity = rot.rotate(other.velocity).add(v);
        Element {
            translation,
            rotation,
            velocity,
            time: self.time + s2,
        }
    }

    fn inverse(self) -> Element {
        let rotation = self.rotation_quaternion().conjugate();
        let rot_inv = rotation.normalize();
        let v = self.velocity;
        let s = self.time;
        let translation = rot_inv.rotate(self.translation.sub(v.scale(s))).neg();
        let velocity = rot_inv.rotate(v).neg();
        Element {
            translation,
            rotation,
            velocity,
            time: -s,
        }
    }

    // SO(3)'s log chooses its branch by x² + y² + z², the inverse Jacobian and M choose theirs by the squared theta of its answer; these two share the angle,
    // its sine and its cosine.
    fn log(self) -> Tangent {
        let turn = self.rotation_impl().log();
        if turn.leaves_series() {
            let w = Angle::of_square(turn.theta_squared());
            let v_inv = turn.left_jacobian_inv_closed(w);
            self.log_by(turn, v_inv, s_nu_coupling_closed(turn.theta, w))
        } else {
            let v_inv = turn.left_jacobian_inv_series();
            self.log_by(turn, v_inv, s_nu_coupling_series(turn.theta))
        }
    }

    // The point is taken at the element's own time.
    fn act(self, vector: Vec3) -> Vec3 {
        self.rotation_quaternion()
            .rotate(vector)
            .add(self.translation)
            .add(self.velocity.scale(self.time))
    }

    fn rotation_matrix(self) -> Mat3 {
        self.rotation_quaternion().rotation_matrix()
    }

    // Divides by the norm three times: rotation_impl once, SO(3)'s normalize twice.
    #[tactic(auto, unfolding(crate::specs::Elements::normalize, crate::specs::Elements::rotation_impl, so3::specs::Elements::normalize, law::specs::Galilean::normalize))]
    fn normalize(self) -> Element {
        let translation = self.translation;
        let rot = self.rotation_impl().normalize();
        let rotation = rot.params;
        let velocity = self.velocity;
        Element {
            translation,
            rotation,
            velocity,
            time: self.time,
        }
    }

    // Sees the quaternion after rotation_impl has normalised it.
    #[tactic(auto, unfolding(crate::specs::Elements::is_valid))]
    fn is_valid(self, tolerance: f64) -> bool {
        let t = self.translation;
        let v = self.velocity;
        let values = [t.x, t.y, t.z, v.x, v.y, v.z, self.time];
        if !checks::all_finite(&values) {
            return false;
        }
        self.rotation_impl().is_valid(tolerance)
    }

    #[tactic(auto, unfolding(crate::specs::Matrices::jacobian_identity, ten_rows::specs::TenRows::by_blocks, linear::specs::Matrices::identity, linear::specs::Matrices::zero, linear::specs::Vectors::zero, law::specs::Galilean::jacobian_identity))]
    fn jacobian_identity() -> [[f64; DOF]; DOF] {
        let z = Mat3::zero();
        ten_rows::by_blocks(Mat3::identity(), z, z, z, Vec3::zero(), 1.0)
    }

    fn adjoint(self) -> Adjoint {
        let rotation = self.rotation_matrix();
        let v = self.velocity;
        let rho_nu = rotation.scale(-self.time);
        let nu_skew = Mat3::hat(v);
        let rho_theta = Mat3::hat(self.translation)
            .sub(nu_skew.scale(self.time))
            .mul(rotation);
        Adjoint {
            rotation,
            rho_nu,
            rho_theta,
            nu_theta: nu_skew.mul(rotation),
            rho_s: v,
        }
    }

    // The adjoint is negated after it is opened. This and the next as in so3, where the reason stands.
    #[tactic(auto, unfolding(crate::specs::Matrices::inverse_jacobian, ten_rows::specs::Adjoints::opened, ten_rows::specs::TenRows::neg, crate::specs::Matrices::adjoint, law::specs::Galilean::inverse_jacobian))]
    fn inverse_jacobian(self) -> [[f64; DOF]; DOF] {
        self.adjoint().open().neg()
    }

    #[tactic(auto, unfolding(crate::specs::Matrices::compose_jacobian_self, crate::specs::Matrices::adjoint, crate::specs::Elements::inverse, law::specs::Galilean::compose_jacobian_self))]
    fn compose_jacobian_self(self, other: Element) -> Adjoint {
        other.inverse().adjoint()
    }

    // Of act with respect to self, three rows of ten; with respect to the vector it is the rotation matrix.
    fn act_jacobian_self(self, vector: Vec3) -> [f64; 30] {
        let r = self.rotation_matrix();
        let b = r.scale(self.time);
        let c = r.neg().mul(Mat3::hat(vector));
        let d = self.velocity.scale(2.0);
        let rx = r.row0;
        let ry = r.row1;
        let rz = r.row2;
        let bx = b.row0;
        let by = b.row1;
        let bz = b.row2;
        let cx = c.row0;
        let cy = c.row1;
        let cz = c.row2;
        [
            rx.x, rx.y, rx.z, bx.x, bx.y, bx.z, cx.x, cx.y, cx.z, d.x, ry.x, ry.y, ry.z, by.x,
            by.y, by.z, cy.x, cy.y, cy.z, d.y, rz.x, rz.y, rz.z, bz.x, bz.y, bz.z, cz.x, cz.y,
            cz.z, d.z,
        ]
    }
}

// ---- M of exp and log: what a velocity adds to the translation in a unit of time while the rotation turns

// By its coefficients.
fn coupling_by(theta: Vec3, a: f64, b: f64) -> Mat3
    ensures { result ≡ Tangents.coupling_by a b theta }
{
    let theta_skew = Mat3::hat(theta);
    Mat3::identity()
        .scale(0.5)
        .add(theta_skew.scale(a))
        .add(theta_skew.mul(theta_skew).scale(b))
}

#[tactic(auto, unfolding(crate::specs::Tangents::s_nu_coupling_series, crate::specs::Tangents::coupling_by, law::specs::GalileanSeries::s_nu_coupling, linear::specs::Vectors::norm_squared))]
fn s_nu_coupling_series(theta: Vec3) -> Mat3
    ensures { result ≡ Tangents.s_nu_coupling_series theta }
{
    let w_squared = theta.norm_squared();
    let a = 1.0 / 6.0 - w_squared / 120.0;
    let b = 1.0 / 24.0 - w_squared / 720.0;
    coupling_by(theta, a, b)
}

#[tactic(auto, unfolding(crate::specs::Tangents::s_nu_coupling_closed, crate::specs::Tangents::coupling_by, law::specs::ClosedForms::s_nu_coupling))]
fn s_nu_coupling_closed(theta: Vec3, w: Angle) -> Mat3
    ensures { result ≡ Tangents.s_nu_coupling_closed w theta }
{
    let a = (w.angle - w.sine) / (w.angle * w.angle * w.angle);
    let b = (w.squared + 2.0 * w.cosine - 2.0) / (2.0 * w.squared * w.squared);
    coupling_by(theta, a, b)
}

impl Tangent {
    // Exp by the rotation, and the left Jacobian and M of theta.
    fn exp_by(self, rot: so3::Element, v_matrix: Mat3, coupling: Mat3) -> Element
        ensures { result ≡ Tangents.exp_by rot v_matrix coupling self }
    {
        let nu = self.nu;
        let rotation = rot.params;
        let velocity = v_matrix.apply(nu);
        let translation = v_matrix
            .apply(self.rho)
            .add(coupling.apply(nu).scale(self.s));
        Element {
            translation,
            rotation,
            velocity,
            time: self.s,
        }
    }

    // Theta as a tangent of SO(3), and put back.
    #[tactic(auto, unfolding(crate::specs::Tangents::turn))]
    fn turn(self) -> so3::Tangent
        ensures { result ≡ Tangents.turn self }
    {
        so3::Tangent { theta: self.theta }
    }

    #[tactic(auto, unfolding(crate::specs::Tangents::with_theta))]
    fn with_theta(self, turn: so3::Tangent) -> Tangent
        ensures { result ≡ Tangents.with_theta self turn }
    {
        Tangent {
            theta: turn.theta,
            ..self
        }
    }

    // The ten values of a tangent.
    #[tactic(auto, unfolding(crate::specs::Tangents::coeffs))]
    pub fn coeffs(self) -> [f64; DOF]
        ensures { result ≡ Tangents.coeffs self }
    {
        let rho = self.rho;
        let nu = self.nu;
        let theta = self.theta;
        [
            rho.x, rho.y, rho.z, nu.x, nu.y, nu.z, theta.x, theta.y, theta.z, self.s,
        ]
    }
}

impl manifold::Tangent for Tangent {
    type Group = Element;

    type JacobianMatrix = [[f64; DOF]; DOF];

    type LieAlgebra = [f64; 36];

    ghost tangents = { SGal3.tangents };

    fn dim() -> usize {
        DOF
    }

    #[tactic(auto, unfolding(crate::specs::Tangents::tangent_of, manifold::specs::Answers::vector_at))]
    fn tangent_of(s: &[f64]) -> Tangent {
        Tangent {
            rho: manifold::vector_at(s, 0),
            nu: manifold::vector_at(s, 3),
            theta: manifold::vector_at(s, 6),
            s: s[9],
        }
    }

    #[tactic(auto, unfolding(crate::specs::Tangents::zero, linear::specs::Vectors::zero))]
    fn zero() -> Tangent {
        Tangent {
            rho: Vec3::zero(),
            nu: Vec3::zero(),
            theta: Vec3::zero(),
            s: 0.0,
        }
    }

    // The left Jacobian and M share the angle, its sine and its cosine.
    fn exp(self) -> Element {
        let turn = self.turn();
        if turn.leaves_series() {
            let w = Angle::of_square(turn.theta_squared());
            let v_matrix = turn.left_jacobian_closed(w);
            self.exp_by(
                turn.exp_closed(),
                v_matrix,
                s_nu_coupling_closed(self.theta, w),
            )
        } else {
            let v_matrix = turn.left_jacobian_series();
            self.exp_by(
                turn.exp_series(),
                v_matrix,
                s_nu_coupling_series(self.theta),
            )
        }
    }

    // The squared theta is tested.
    #[tactic(auto, unfolding(crate::specs::Group::turn_too_large))]
    fn turn_too_large(self) -> bool {
        self.turn().turn_too_large()
    }

    #[tactic(auto, unfolding(crate::specs::Algebra::hat, crate::specs::Algebra::lie_algebra, linear::specs::Matrices::hat, law::specs::Galilean::hat))]
    fn hat(self) -> [f64; 36] {
        lie_algebra(Mat3::hat(self.theta), self.rho, self.nu, self.s)
    }

    fn generator(i: usize) -> [f64; 36] {
        generator(i)
    }

    // -s I is nine products: where s is above zero its other six places hold -0.
    #[tactic(auto, unfolding(crate::specs::Algebra::small_adj, ten_rows::specs::TenRows::by_blocks, linear::specs::Matrices::hat, linear::specs::Matrices::identity, linear::specs::Matrices::scale, law::specs::Galilean::small_adj))]
    fn small_adj(self) -> [[f64; DOF]; DOF] {
        let nu = self.nu;
        let rho_skew = Mat3::hat(self.rho);
        let nu_skew = Mat3::hat(nu);
        let theta_skew = Mat3::hat(self.theta);
        let b = Mat3::identity().scale(-self.s);
        ten_rows::by_blocks(theta_skew, b, rho_skew, nu_skew, nu, 0.0)
    }

    #[tactic(auto, unfolding(crate::specs::Algebra::lie_bracket, crate::specs::Algebra::apply, crate::specs::Algebra::small_adj, law::specs::Galilean::lie_bracket))]
    fn lie_bracket(self, other: Tangent) -> Tangent {
        apply(self.small_adj(), other)
    }

    // Theta is kept as it is where its norm is not above 2^-52.
    #[tactic(auto, unfolding(crate::specs::Tangents::normalize))]
    fn normalize(self) -> Tangent {
        self.with_theta(self.turn().normalize())
    }

    // Theta is made zero where its norm is not above 2^-52.
    #[tactic(auto, unfolding(crate::specs::Tangents::normalized))]
    fn normalized(self) -> Tangent {
        self.with_theta(self.turn().normalized())
    }
}

// ---- The Lie algebra

// The layout of the algebra: a matrix top left, rho in column 3, nu in column 4, s at (3,5).
#[tactic(auto, unfolding(crate::specs::Algebra::lie_algebra, law::specs::Galilean::lie_algebra, law::specs::Rows::by_row, law::specs::Vector::zero))]
fn lie_algebra(h: Mat3, rho: Vec3, nu: Vec3, s: f64) -> [f64; 36]
    ensures { result ≡ Algebra.lie_algebra h rho nu s }
{
    let x = h.row0;
    let y = h.row1;
    let z = h.row2;
    [
        x.x, x.y, x.z, rho.x, nu.x, 0.0, y.x, y.y, y.z, rho.y, nu.y, 0.0, z.x, z.y, z.z, rho.z,
        nu.z, 0.0, 0.0, 0.0, 0.0, 0.0, 0.0, s, 0.0, 0.0, 0.0, 0.0, 0.0, 0.0, 0.0, 0.0, 0.0, 0.0,
        0.0, 0.0,
    ]
}

// A row times a tangent: the first product first, the others added to it from the left.
#[tactic(auto, unfolding(crate::specs::Algebra::dot, law::specs::Rows::dot, law::specs::Galilean::coeffs, law::specs::Galilean::row10, crate::specs::Tangents::coeffs), using(crate::proofs::Dots::no_row, crate::proofs::Dots::no_column))]
fn dot(r: [f64; DOF], t: Tangent) -> f64
    ensures { result ≡ Algebra.dot r t }
{
    let c = t.coeffs();
    let mut sum = r[0] * c[0];
    for (a, b) in r[1..].iter().zip(&c[1..]) {
        sum += *a * *b;
    }
    sum
}

#[tactic(auto, unfolding(crate::specs::Algebra::apply, crate::specs::Algebra::dot, law::specs::Galilean::apply_tangent, law::specs::Galilean::tangent, law::specs::Rows::apply))]
pub fn apply(m: [[f64; DOF]; DOF], t: Tangent) -> Tangent
    ensures { result ≡ Algebra.apply m t }
{
    let mut values = [0.0; DOF];
    for (i, row) in m.iter().enumerate() {
        values[i] = dot(*row, t);
    }
    Tangent::tangent_of(&values)
}

// The unit vector along axis i; zero from i = 3.
#[tactic(auto, unfolding(crate::specs::Algebra::axis))]
fn axis(i: usize) -> Vec3
    ensures { result ≡ Algebra.axis i }
{
    let e = Mat3::identity();
    match i {
        0 => e.row0,
        1 => e.row1,
        2 => e.row2,
        _ => Vec3::zero(),
    }
}

// The generator of place i of a tangent; the zero matrix from i = 10.
#[tactic(auto, unfolding(crate::specs::Algebra::generator))]
fn generator(i: usize) -> [f64; 36]
    ensures { result ≡ Algebra.generator i }
{
    let n = Vec3::zero();
    if i < 3 {
        return lie_algebra(Mat3::zero(), axis(i), n, 0.0);
    }
    if i < 6 {
        return lie_algebra(Mat3::zero(), n, axis(i - 3), 0.0);
    }
    if i == 9 {
        return lie_algebra(Mat3::zero(), n, n, 1.0);
    }
    lie_algebra(so3::Tangent::generator(i - 6), n, n, 0.0)
}
