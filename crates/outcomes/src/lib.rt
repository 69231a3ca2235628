// The outcome of a call, as bytes: little-endian words for the number, two figures, how many values follow, and their bits.
#![tactic(auto)]

ghost use Rattle.std.specs.Prelude.{◌≡◌, ℕ, ◌+◌, ◌*◌, ◌≤◌, length, replicate};
ghost use Rattle.std.proofs.lemmas.List.Edits.{sets};
ghost use Rattle.std.specs.Float.{binary64};
ghost use Rattle.std.specs.Float.Ieee.{to_bits};
ghost use Rattle.law.specs.Rounded.{rounded};
ghost use Rattle.words.specs.Word.{bytes_of};
ghost use Rattle.linear.specs.Records.{matrix_values};
ghost use Rattle.ten_rows.specs.TenRows as TenRows;
ghost use Rattle.so3.specs.Elements as So3Elements;
ghost use Rattle.so3.specs.Tangents as So3Tangents;
ghost use Rattle.sgal3.specs.Elements as Elements;
ghost use Rattle.sgal3.specs.Events as Events;
ghost use Rattle.sgal3.specs.Tangents as Tangents;
ghost use Rattle.outcomes.specs.Outcomes as Outcomes;

use checks::{Figures, Refusal};
use linear::{Mat3, Vec3};
use manifold::Values;
use ten_rows::Adjoint;

// The number of a call, its two blocks, and a word besides: the bits of a tolerance, or of a generator its place. The number is the format's own: an
// enum of the calls would list them a second time.
#[derive(Clone, Copy)]
pub struct Request<'a> {
    pub call: u64,
    pub left: &'a [f64],
    pub right: &'a [f64],
    pub extra: u64,
}

impl Request<'_> {
    #[tactic(auto, unfolding(crate::specs::Outcomes::tolerance))]
    pub fn tolerance(self) -> f64
        ensures { result ≡ Outcomes.tolerance self.entry }
    {
        words::of_bits(self.extra)
    }
}

// ---- Words. An outcome has two figures; a refusal with fewer has 0 there, as the format says.

#[tactic(auto, unfolding(crate::specs::Outcomes::first_figure))]
fn first_figure(figures: Figures) -> u64
    ensures { result ≡ Outcomes.first_figure figures }
{
    match figures {
        Figures::None => 0,
        Figures::Lengths {
            expected,
            actual: _,
        } => expected as u64,
        Figures::Norm(norm) => words::to_bits(norm),
    }
}

#[tactic(auto, unfolding(crate::specs::Outcomes::second_figure))]
fn second_figure(figures: Figures) -> u64
    ensures { result ≡ Outcomes.second_figure figures }
{
    match figures {
        Figures::None | Figures::Norm(_) => 0,
        Figures::Lengths {
            expected: _,
            actual,
        } => actual as u64,
    }
}

// The header: four words.
pub const HEADER: usize = 32;

// Two words, from `at` on.
fn put_pair(out: &mut [u8], at: usize, a: u64, b: u64)
    requires { at + 16 ≤ length out.old }
    ensures { out.new ≡ sets out.old at (Outcomes.pair a b) }
{
    words::put_word(out, at, a);
    words::put_word(out, at + 8, b);
}

fn put_four(out: &mut [u8], a: u64, b: u64, c: u64, d: u64)
    requires { HEADER ≤ length out.old }
    ensures { out.new ≡ sets out.old 0 (Outcomes.four a b c d) }
{
    put_pair(out, 0, a, b);
    put_pair(out, 16, c, d);
}

// The header of an answer with n values.
#[tactic(auto, unfolding(crate::specs::Outcomes::header_of, crate::specs::Outcomes::header, crate::specs::Outcomes::first_figure, crate::specs::Outcomes::second_figure, checks::specs::Outcomes::outcome))]
fn put_header(out: &mut [u8], c: Result<(), Refusal>, n: u64)
    requires { HEADER ≤ length out.old }
    ensures { out.new ≡ sets out.old 0 (Outcomes.header_of c n) }
{
    match c {
        Ok(()) => put_four(out, 0, 0, 0, n),
        Err(r) => {
            let figures = r.figures();
            put_four(
                out,
                r.number() as u64,
                first_figure(figures),
                second_figure(figures),
                n,
            )
        }
    }
}

fn put_values(out: &mut [u8], at: usize, values: &[f64])
    requires { at + length values.now * 8 ≤ length out.old }
    ensures { out.new ≡ sets out.old at (Outcomes.bits values.now) }
{
    for (k, x) in values.iter().enumerate() {
        words::put_value(out, at + k * 8, *x);
    }
}

// ---- An outcome: how many bytes it is, and the bytes at the start of out. There is no heap, so the buffer is the caller's.

// The longest outcome: the header and a hundred values.
pub const LONGEST: usize = HEADER + 100 * 8;

// Without values.
pub fn put_check(out: &mut [u8; LONGEST], c: Result<(), Refusal>) -> usize
    ensures { Outcomes.Put result out.old out.new (Outcomes.of_check c) }
{
    put_header(out, c, 0);
    HEADER
}

// A yes or no is a word, 1 for yes.
#[tactic(auto, unfolding(crate::specs::Outcomes::word_of))]
pub fn put_valid(out: &mut [u8; LONGEST], answer: Result<bool, Refusal>) -> usize
    ensures { Outcomes.Put result out.old out.new (Outcomes.of_valid answer) }
{
    match answer {
        Ok(b) => {
            put_header(out, Ok(()), 1);
            words::put_word(out, HEADER, u64::from(b));
            40
        }
        Err(r) => put_check(out, Err(r)),
    }
}

// What is put as COUNT values, or as ZEROS of +0 beside a refusal.
pub trait ToWords: Values {
    const COUNT: usize;

    const ZEROS: usize;

    ghost COUNT: { ℕ };

    ghost ZEROS: { ℕ };

    // After the header.
    fn store(&self, out: &mut [u8])
        requires { HEADER + COUNT * 8 ≤ length out.old }
        ensures count { length (Self.values self.now) ≡ COUNT }
        ensures stored { out.new ≡ sets out.old HEADER (Outcomes.bits (Self.values self.now)) };
}

// One +0. Not inlined: of a run of zeros that it sees whole the compiler makes a call of memset, and an archive for C needs nothing from outside.
#[inline(never)]
fn put_zero(out: &mut [u8], at: usize)
    requires { at + 8 ≤ length out.old }
    ensures { out.new ≡ sets out.old at (bytes_of (to_bits binary64 rounded.zero)) }
{
    words::put_value(out, at, 0.0);
}

fn put_zeros(out: &mut [u8], at: usize, n: usize)
    requires { at + n * 8 ≤ length out.old }
    ensures { out.new ≡ sets out.old at (Outcomes.bits (replicate n rounded.zero)) }
{
    for k in 0..n {
        put_zero(out, at + k * 8);
    }
}

// Not inlined, so that `put` is small enough to be: else each answer goes to it by way of memory.
#[inline(never)]
fn put_refusal(out: &mut [u8], r: Refusal, zeros: usize) -> usize
    requires { HEADER + zeros * 8 ≤ length out.old }
    ensures { Outcomes.Put result out.old out.new (Outcomes.of_refusal r zeros) }
{
    put_header(out, Err(r), zeros as u64);
    put_zeros(out, HEADER, zeros);
    HEADER + zeros * 8
}

// Into an array with room for it.
pub fn put<A: ToWords, const N: usize>(out: &mut [u8; N], answer: Result<A, Refusal>) -> usize
    requires count_fits { HEADER + A.COUNT * 8 ≤ N }
    requires zeros_fit { HEADER + A.ZEROS * 8 ≤ N }
    ensures { Outcomes.Put result out.old out.new (Outcomes.of A.values A.ZEROS answer) }
{
    match answer {
        Ok(a) => {
            put_header(out, Ok(()), A::COUNT as u64);
            a.store(out);
            HEADER + A::COUNT * 8
        }
        Err(r) => put_refusal(out, r, A::ZEROS),
    }
}

// ---- What the calls answer

impl ToWords for f64 {
    const COUNT: usize = 1;

    const ZEROS: usize = 0;

    ghost COUNT = { 1 };

    ghost ZEROS = { 0 };

    fn store(&self, out: &mut [u8]) {
        put_values(out, HEADER, &[*self]);
    }
}

impl ToWords for Vec3 {
    const COUNT: usize = 3;

    const ZEROS: usize = 0;

    ghost COUNT = { 3 };

    ghost ZEROS = { 0 };

    fn store(&self, out: &mut [u8]) {
        put_values(out, HEADER, &manifold::vector_values(*self));
    }
}

impl ToWords for Mat3 {
    const COUNT: usize = 9;

    const ZEROS: usize = 9;

    ghost COUNT = { 9 };

    ghost ZEROS = { 9 };

    fn store(&self, out: &mut [u8]) {
        put_matrix(out, HEADER, *self);
    }
}

// A matrix listed by row, or the values of an element.
impl<const N: usize> ToWords for [f64; N] {
    const COUNT: usize = N;

    const ZEROS: usize = N;

    ghost COUNT = { N };

    ghost ZEROS = { N };

    fn store(&self, out: &mut [u8]) {
        put_values(out, HEADER, self);
    }
}

impl ToWords for [[f64; 10]; 10] {
    const COUNT: usize = 100;

    const ZEROS: usize = 100;

    ghost COUNT = { 100 };

    ghost ZEROS = { 100 };

    fn store(&self, out: &mut [u8]) {
        put_rows(out, self);
    }
}

// The 39 numbers, block after block.
impl ToWords for Adjoint {
    const COUNT: usize = 39;

    const ZEROS: usize = 39;

    ghost COUNT = { 39 };

    ghost ZEROS = { 39 };

    fn store(&self, out: &mut [u8]) {
        put_matrix(out, HEADER, self.rotation);
        put_matrix(out, 104, self.rho_nu);
        put_matrix(out, 176, self.rho_theta);
        put_matrix(out, 248, self.nu_theta);
        put_values(out, 320, &manifold::vector_values(self.rho_s));
    }
}

// Elements and tangents have no trait in common that gives an array of their values, since its length would be a constant of that trait.
impl ToWords for so3::Element {
    const COUNT: usize = so3::REP_SIZE;

    const ZEROS: usize = 0;

    ghost COUNT = { So3Elements.rep_size };

    ghost ZEROS = { 0 };

    fn store(&self, out: &mut [u8]) {
        put_values(out, HEADER, &self.coeffs());
    }
}

impl ToWords for so3::Tangent {
    const COUNT: usize = so3::DOF;

    const ZEROS: usize = 0;

    ghost COUNT = { So3Tangents.dof };

    ghost ZEROS = { 0 };

    #[tactic(auto, unfolding(so3::specs::Tangents::values))]
    fn store(&self, out: &mut [u8]) {
        self.theta.store(out);
    }
}

impl ToWords for sgal3::Element {
    const COUNT: usize = sgal3::REP_SIZE;

    const ZEROS: usize = 0;

    ghost COUNT = { Elements.rep_size };

    ghost ZEROS = { 0 };

    fn store(&self, out: &mut [u8]) {
        put_values(out, HEADER, &self.coeffs());
    }
}

impl ToWords for sgal3::Event {
    const COUNT: usize = sgal3::EVENT_SIZE;

    const ZEROS: usize = 0;

    ghost COUNT = { Events.event_size };

    ghost ZEROS = { 0 };

    fn store(&self, out: &mut [u8]) {
        put_values(out, HEADER, &self.coeffs());
    }
}

impl ToWords for sgal3::Tangent {
    const COUNT: usize = sgal3::DOF;

    const ZEROS: usize = 0;

    ghost COUNT = { Tangents.dof };

    ghost ZEROS = { 0 };

    fn store(&self, out: &mut [u8]) {
        put_values(out, HEADER, &self.coeffs());
    }
}

// The row of an array, known to be of ten where it is a parameter.
fn put_row(out: &mut [u8], at: usize, row: &[f64; 10])
    requires { at + 80 ≤ length out.old }
    ensures count { length row.now ≡ 10 }
    ensures stored { out.new ≡ sets out.old at (Outcomes.bits row.now) }
{
    put_values(out, at, row);
}

fn put_matrix(out: &mut [u8], at: usize, m: Mat3)
    requires { at + 72 ≤ length out.old }
    ensures { out.new ≡ sets out.old at (Outcomes.bits (matrix_values m)) }
{
    put_values(out, at, &manifold::matrix_values(m));
}

fn put_rows(out: &mut [u8], rows: &[[f64; 10]; 10])
    requires { Outcomes.longest ≤ length out.old }
    ensures count { length (TenRows.values rows.now) ≡ 100 }
    ensures stored { out.new ≡ sets out.old HEADER (Outcomes.bits (TenRows.values rows.now)) }
{
    for (k, row) in rows.iter().enumerate() {
        put_row(out, HEADER + k * 80, row);
    }
}
