// An element as 88 little-endian bytes: its values checked, read and stored.
#![tactic(auto)]

ghost use Rattle.std.specs.Prelude.{◌≡◌, true, ◌+◌, ◌≤◌, length};
ghost use Rattle.std.proofs.lemmas.List.Edits.{sets};
ghost use Rattle.checks.specs.Checks.{all_finite, check_param_block};
ghost use Rattle.linear.specs.Records.{vector_values};
ghost use Rattle.sgal3.specs.Elements.{coeffs, element_of};
ghost use Rattle.element_bytes.specs.Bytes as Bytes;
ghost use Rattle.element_bytes.specs.Steps as Steps;

use checks::Refusal;
use linear::{Quaternion, Vec3};
use sgal3::{Element, REP_SIZE};

// How many bytes an element has.
pub const ELEMENT_SIZE: usize = 8 * REP_SIZE;

// Whether the values of the element's bytes from start on are finite.
#[tactic(auto, using(crate::proofs::Values::stops, crate::proofs::Values::goes_on, crate::proofs::Values::none_left))]
fn values_finite(s: &[u8], start: usize) -> bool
    requires { start + ELEMENT_SIZE ≤ length s.now }
    ensures { result ≡ all_finite (Bytes.values_at REP_SIZE s.now start) }
{
    for i in 0..REP_SIZE {
        if !words::is_finite_at(s, start + i * 8) {
            return false;
        }
    }
    true
}

// The parts of a block are a slice and a place, as in words, and that their values are finite is a clause: a type for each part would be opened at
// once.

// The vector of the 24 bytes from at on. It and the quaternion are as `manifold` has them of values: a function of both would take the reader of a value, whose
// contract its caller would have to state.
#[tactic(auto, unfolding(crate::specs::Steps::vector_at, crate::specs::Bytes::values_at, checks::specs::Checks::all_finite))]
fn vector(s: &[u8], at: usize) -> Vec3
    requires at_in_bounds { at + 24 ≤ length s.now }
    requires at_value { all_finite (Bytes.values_at 3 s.now at) ≡ true }
    ensures { result ≡ Steps.vector_at s.now at }
{
    Vec3 {
        x: words::finite_value(s, at),
        y: words::finite_value(s, at + 8),
        z: words::finite_value(s, at + 16),
    }
}

// The quaternion of the 32 bytes from at on.
#[tactic(auto, unfolding(crate::specs::Steps::quaternion_at, crate::specs::Bytes::values_at, checks::specs::Checks::all_finite))]
fn quaternion(s: &[u8], at: usize) -> Quaternion
    requires at_in_bounds { at + 32 ≤ length s.now }
    requires at_value { all_finite (Bytes.values_at 4 s.now at) ≡ true }
    ensures { result ≡ Steps.quaternion_at s.now at }
{
    Quaternion {
        w: words::finite_value(s, at),
        x: words::finite_value(s, at + 8),
        y: words::finite_value(s, at + 16),
        z: words::finite_value(s, at + 24),
    }
}

// The element of the bytes from at on, whose values are finite.
#[tactic(auto, unfolding(sgal3::specs::Elements::element_of, manifold::specs::Answers::vector_at, manifold::specs::Answers::quaternion_at, crate::specs::Steps::vector_at, crate::specs::Steps::quaternion_at, crate::specs::Bytes::values_at, checks::specs::Checks::all_finite))]
pub fn element(s: &[u8], at: usize) -> Element
    requires at_in_bounds { at + ELEMENT_SIZE ≤ length s.now }
    requires at_value { all_finite (Bytes.values_at REP_SIZE s.now at) ≡ true }
    ensures { result ≡ element_of (Bytes.values_at REP_SIZE s.now at) }
{
    let translation = vector(s, at);
    let rotation = quaternion(s, at + 24);
    let velocity = vector(s, at + 56);
    Element {
        translation,
        rotation,
        velocity,
        time: words::finite_value(s, at + 80),
    }
}

// The check of the element's bytes from at on. It does not hand on the values: its callers read them where they use them, which is faster
// than through memory.
#[tactic(auto, unfolding(checks::specs::Checks::check_param_block, checks::specs::Checks::check_values, checks::specs::Checks::check_length, crate::specs::Bytes::values_at, sgal3::specs::Elements::coeffs, sgal3::specs::Elements::element_of, manifold::specs::Answers::vector_at, manifold::specs::Answers::quaternion_at))]
pub fn check_bytes(s: &[u8], at: usize, tolerance: f64) -> Result<(), Refusal>
    requires { at + ELEMENT_SIZE ≤ length s.now }
    ensures { result ≡ check_param_block (Bytes.values_at REP_SIZE s.now at) REP_SIZE 3 tolerance }
{
    if !values_finite(s, at) {
        return Err(Refusal::NotFinite);
    }
    let values = element(s, at).coeffs();
    checks::check_unit_quaternion(&values[3..7], tolerance)
}

#[tactic(auto, unfolding(checks::specs::Checks::all_finite))]
fn put_vector(out: &mut [u8], at: usize, a: Vec3)
    requires at_in_bounds { at + 24 ≤ length out.old }
    requires a_value { all_finite (vector_values a) ≡ true }
    ensures { out.new ≡ sets out.old at (Steps.vector_bytes a) }
{
    words::put_finite_value(out, at, a.x);
    words::put_finite_value(out, at + 8, a.y);
    words::put_finite_value(out, at + 16, a.z);
}

#[tactic(auto, unfolding(checks::specs::Checks::all_finite))]
fn put_quaternion(out: &mut [u8], at: usize, q: Quaternion)
    requires at_in_bounds { at + 32 ≤ length out.old }
    requires q_value { all_finite (Steps.quaternion_values q) ≡ true }
    ensures { out.new ≡ sets out.old at (Steps.quaternion_bytes q) }
{
    words::put_finite_value(out, at, q.w);
    words::put_finite_value(out, at + 8, q.x);
    words::put_finite_value(out, at + 16, q.y);
    words::put_finite_value(out, at + 24, q.z);
}

// Inlined, as `finish` of `handset` is: an element that is handed on by way of memory is copied there, on ARM by a call of memcpy.
#[inline(always)]
#[tactic(auto, unfolding(sgal3::specs::Elements::coeffs, checks::specs::Checks::all_finite))]
pub fn put_element(out: &mut [u8], at: usize, e: Element)
    requires at_in_bounds { at + ELEMENT_SIZE ≤ length out.old }
    requires e_value { all_finite (coeffs e) ≡ true }
    ensures { out.new ≡ sets out.old at (Bytes.element_bytes e) }
{
    put_vector(out, at, e.translation);
    put_quaternion(out, at + 24, e.rotation);
    put_vector(out, at + 56, e.velocity);
    words::put_finite_value(out, at + 80, e.time);
}
