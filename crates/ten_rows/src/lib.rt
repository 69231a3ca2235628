// Matrices of ten rows of ten for the Galilean group: their layout by blocks, negation, the test of their values; the adjoint by its blocks alone.
#![tactic(auto)]

ghost use Rattle.std.specs.Prelude.{◌≡◌};
ghost use Rattle.checks.specs.Checks.{all_finite};
ghost use Rattle.ten_rows.specs.Adjoints as Adjoints;
ghost use Rattle.ten_rows.specs.TenRows as TenRows;

use linear::{Mat3, Vec3};

#[tactic(auto, unfolding(crate::specs::TenRows::row10, law::specs::Galilean::row10))]
fn row10(a: Vec3, b: Vec3, c: Vec3, k: f64) -> [f64; 10]
    ensures { result ≡ TenRows.row10 a b c k }
{
    [a.x, a.y, a.z, b.x, b.y, b.z, c.x, c.y, c.z, k]
}

// The layout of a 10 by 10 matrix: [r, b, c, u]; [0, r, d, 0]; [0, 0, r, 0]; the last row zero but for a final k.
#[tactic(auto, unfolding(crate::specs::TenRows::by_blocks, crate::specs::TenRows::row10, linear::specs::Vectors::zero, law::specs::Galilean::by_blocks))]
pub fn by_blocks(r: Mat3, b: Mat3, c: Mat3, d: Mat3, u: Vec3, k: f64) -> [[f64; 10]; 10]
    ensures { result ≡ TenRows.by_blocks r b c d u k }
{
    let n = Vec3::zero();
    let m0 = row10(r.row0, b.row0, c.row0, u.x);
    let m1 = row10(r.row1, b.row1, c.row1, u.y);
    let m2 = row10(r.row2, b.row2, c.row2, u.z);
    let m3 = row10(n, r.row0, d.row0, 0.0);
    let m4 = row10(n, r.row1, d.row1, 0.0);
    let m5 = row10(n, r.row2, d.row2, 0.0);
    let m6 = row10(n, n, r.row0, 0.0);
    let m7 = row10(n, n, r.row1, 0.0);
    let m8 = row10(n, n, r.row2, 0.0);
    let m9 = row10(n, n, n, k);
    [m0, m1, m2, m3, m4, m5, m6, m7, m8, m9]
}

#[tactic(auto, unfolding(crate::specs::TenRows::neg_row))]
fn neg_row(mut r: [f64; 10]) -> [f64; 10]
    ensures { result ≡ TenRows.neg_row r }
{
    for x in &mut r {
        *x = -*x;
    }
    r
}

// Every place is negated, the empty ones to -0.
#[tactic(auto, unfolding(crate::specs::TenRows::neg, crate::specs::TenRows::neg_row, law::specs::Rows::neg))]
pub fn neg(mut m: [[f64; 10]; 10]) -> [[f64; 10]; 10]
    ensures { result ≡ TenRows.neg m }
{
    for row in &mut m {
        *row = neg_row(*row);
    }
    m
}

// Row by row: most matrices are answered, and then no row ends the loop.
pub fn all_finite(m: &[[f64; 10]; 10]) -> bool
    ensures { result ≡ all_finite (TenRows.values m.now) }
{
    for row in m {
        if !checks::all_finite(row) {
            return false;
        }
    }
    true
}

// ---- The adjoint without its zeros

// 39 numbers. The rotation stands on the diagonal; each other block is named by the row and the column of blocks where it stands, of rho, nu,
// theta and s.
#[derive(Clone, Copy)]
pub struct Adjoint {
    pub rotation: Mat3,
    pub rho_nu: Mat3,
    pub rho_theta: Mat3,
    pub nu_theta: Mat3,
    pub rho_s: Vec3,
}

impl Adjoint {
    // The ten rows.
    #[tactic(auto, unfolding(crate::specs::Adjoints::opened, crate::specs::TenRows::by_blocks, law::specs::Galilean::opened))]
    pub fn open(self) -> [[f64; 10]; 10]
        ensures { result ≡ Adjoints.opened self }
    {
        by_blocks(
            self.rotation,
            self.rho_nu,
            self.rho_theta,
            self.nu_theta,
            self.rho_s,
            1.0,
        )
    }
}
