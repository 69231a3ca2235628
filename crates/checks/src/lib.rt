// Refusals with their numbers and figures, and the checks of a parameter block (util.rs, error.rs).
#![tactic(auto)]

ghost use Rattle.std.specs.Prelude.{◌≡◌, true, ◌+◌, ◌<◌, ◌≤◌, length};
ghost use Rattle.float.specs.Root.{square_root};
ghost use Rattle.checks.specs.Refusals as Refusals;
ghost use Rattle.checks.specs.Checks as Checks;

// Why a call is refused. A wrong length carries the expected and the actual one, a quaternion that is not unit its norm.
#[derive(Clone, Copy, Debug, PartialEq)]
pub enum Refusal {
    Length { expected: usize, actual: usize },
    NotFinite,
    NotUnit(f64),
    Turn,
    Overflow,
    Tolerance,
}

// What a refusal carries besides its number.
#[derive(Clone, Copy, Debug, PartialEq)]
pub enum Figures {
    None,
    Lengths { expected: usize, actual: usize },
    Norm(f64),
}

// How far from 1 the norm of a quaternion may be where the caller chooses no tolerance: QUATERNION_NORM_TOLERANCE of so3.rs.
#[tactic(auto, unfolding(crate::specs::Checks::quaternion_norm_tolerance))]
pub fn quaternion_norm_tolerance() -> f64
    ensures { result ≡ Checks.quaternion_norm_tolerance }
{
    1e-6
}

// The numbers, in the order in which they are tried.
const TRIED: [u32; 6] = [1, 2, 7, 3, 4, 5];

impl Refusal {
    // The published number, which the C entries return and the programs print.
    #[tactic(auto, unfolding(crate::specs::Refusals::number))]
    pub fn number(self) -> u32
        ensures { result ≡ Refusals.number self }
    {
        match self {
            Refusal::Length {
                expected: _,
                actual: _,
            } => 1,
            Refusal::NotFinite => 2,
            Refusal::NotUnit(_) => 3,
            Refusal::Turn => 4,
            Refusal::Overflow => 5,
            Refusal::Tolerance => 7,
        }
    }

    #[tactic(auto, unfolding(crate::specs::Refusals::figures))]
    pub fn figures(self) -> Figures
        ensures { result ≡ Refusals.figures self }
    {
        match self {
            Refusal::Length { expected, actual } => Figures::Lengths { expected, actual },
            Refusal::NotUnit(norm) => Figures::Norm(norm),
            Refusal::NotFinite | Refusal::Turn | Refusal::Overflow | Refusal::Tolerance => {
                Figures::None
            }
        }
    }

    // How far down the order of trial it stands.
    fn place(self) -> usize
        ensures { result ≡ Refusals.place Refusals.tried (Refusals.number self) }
    {
        let n = self.number();
        for (k, tried) in TRIED.iter().enumerate() {
            if *tried == n {
                return k;
            }
        }
        TRIED.len()
    }

    // The one that is tried first: of two blocks' refusals the one that stands further up in that order, and at one number the left block's. No Ord:
    // two refusals of one number differ in what they carry, and are not equal.
    #[tactic(auto, unfolding(crate::specs::Refusals::earlier))]
    pub fn earlier(self, right: Refusal) -> Refusal
        ensures { result ≡ Refusals.earlier self right }
    {
        if right.place() < self.place() {
            right
        } else {
            self
        }
    }
}

// What two checks give, or of two refusals the one that is tried first.
#[tactic(auto, unfolding(crate::specs::Checks::both))]
pub fn both<A: Copy, B: Copy>(
    left: Result<A, Refusal>,
    right: Result<B, Refusal>,
) -> Result<(A, B), Refusal>
    ensures { result ≡ Checks.both left right }
{
    match left {
        Ok(a) => Ok((a, right?)),
        Err(r) => match right {
            Ok(_) => Err(r),
            Err(s) => Err(r.earlier(s)),
        },
    }
}

// No branch on a value: the compiler tests several at once.
pub fn all_finite(s: &[f64]) -> bool
    ensures { result ≡ Checks.all_finite s.now }
{
    let mut all = true;
    for x in s {
        all = all & float::is_finite(*x);
    }
    all
}

// Finite, above 0 and at most 1/1024.
#[tactic(auto, unfolding(crate::specs::Checks::check_tolerance, crate::specs::Checks::permitted))]
pub fn check_tolerance(tolerance: f64) -> Result<(), Refusal>
    ensures { result ≡ Checks.check_tolerance tolerance }
{
    if (float::is_finite(tolerance) & (0.0 < tolerance)) & !(9.765625e-4 < tolerance) {
        Ok(())
    } else {
        Err(Refusal::Tolerance)
    }
}

// A norm that is not finite is refused before the tolerance, and that before a norm that is off.
#[tactic(auto, unfolding(crate::specs::Checks::check_norm))]
fn check_norm(norm: f64, tolerance: f64) -> Result<(), Refusal>
    ensures { result ≡ Checks.check_norm norm tolerance }
{
    if !float::is_finite(norm) {
        return Err(Refusal::NotFinite); // it overflowed
    }
    check_tolerance(tolerance)?;
    if float::magnitude(norm - 1.0) > tolerance {
        return Err(Refusal::NotUnit(norm));
    }
    Ok(())
}

// Whether the root of a squared norm is sure to pass the check, which needs no root: where a squared norm is within the tolerance of 1, its
// root is nearer still. Below 2^-40 the proof leaves too little room for the roundings. A no says nothing.
fn passes_without_root(squared: f64, tolerance: f64) -> bool
    ensures { result ≡ true → Checks.check_norm (square_root squared) tolerance ≡ Checks.passed }
{
    ((1.0 - tolerance <= squared) & (squared <= 1.0 + tolerance))
        & ((9.094947017729282379150390625e-13 <= tolerance) & (tolerance <= 9.765625e-4))
}

// The four values w, x, y, z.
#[tactic(auto, unfolding(crate::specs::Checks::check_unit_quaternion, crate::specs::Checks::norm_of))]
pub fn check_unit_quaternion(q: &[f64], tolerance: f64) -> Result<(), Refusal>
    requires { length q.now ≡ 4 }
    ensures { result ≡ Checks.check_unit_quaternion q.now tolerance }
{
    let squared = q[0] * q[0] + q[1] * q[1] + q[2] * q[2] + q[3] * q[3];
    if passes_without_root(squared, tolerance) {
        return Ok(());
    }
    check_norm(float::general_sqrt(squared), tolerance)
}

#[tactic(auto, unfolding(crate::specs::Checks::check_length))]
pub fn check_length(s: &[f64], len: usize) -> Result<(), Refusal>
    ensures { result ≡ Checks.check_length s.now len }
{
    let actual = s.len();
    if actual != len {
        return Err(Refusal::Length {
            expected: len,
            actual,
        });
    }
    Ok(())
}

// A chain's length, in values or in bytes as its block's is: at most `most`, and whole blocks.
#[tactic(auto, unfolding(crate::specs::Checks::check_chain_length))]
pub fn check_chain_length(actual: usize, block: usize, most: usize) -> Result<(), Refusal>
    requires { 0 < block }
    ensures { result ≡ Checks.check_chain_length actual block most }
{
    if most < actual {
        return Err(Refusal::Length {
            expected: most,
            actual,
        });
    }
    if actual % block != 0 {
        return Err(Refusal::Length {
            expected: actual - actual % block,
            actual,
        });
    }
    Ok(())
}

// Length, then all values.
#[tactic(auto, unfolding(crate::specs::Checks::check_values))]
pub fn check_values(s: &[f64], len: usize) -> Result<(), Refusal>
    ensures { result ≡ Checks.check_values s.now len }
{
    check_length(s, len)?;
    if !all_finite(s) {
        return Err(Refusal::NotFinite);
    }
    Ok(())
}

// Then the quaternion whose four values start at `at`.
#[tactic(auto, unfolding(crate::specs::Checks::check_param_block), using(crate::proofs::Passed::values_passed))]
pub fn check_param_block(s: &[f64], len: usize, at: usize, tolerance: f64) -> Result<(), Refusal>
    requires { at + 4 ≤ len }
    ensures { result ≡ Checks.check_param_block s.now len at tolerance }
{
    check_values(s, len)?;
    check_unit_quaternion(&s[at..at + 4], tolerance)
}
