// The angle from 0 to 1.6 whose sine and cosine are as s to c, for an s and a c that are not negative: half the turn of a unit quaternion, where s is the
// root of x² + y² + z² and c the magnitude of w. How near it is, for every s and c up to 2 whose sum is ½ or more, is
// proved in proofs/Accuracy.antt.
#![tactic(auto)]

ghost use Rattle.std.specs.Prelude.{◌≡◌, ◌≤◌};
ghost use Rattle.half_angle.specs.HalfAngles as HalfAngles;

// The largest number not above 1.6, and how many times 2^-52 it is.
const END: f64 = 1.5999999999999999;

const LAST: u64 = 7205759403792793;

// 2^-45
const GOOD: f64 = 2.842170943040401e-14;

// The sine of how far a is beyond the half-angle, times the root of s² + c².
#[tactic(auto, unfolding(crate::specs::HalfAngles::excess))]
fn excess(a: f64, s: f64, c: f64) -> f64
    ensures { result ≡ HalfAngles.excess a s c }
{
    c * trigonometry::sine_of(a) - s * trigonometry::cosine_of(a)
}

// x, or the end of the range from 0 to 1.6 that it is beyond. A NaN and -0 give +0.
#[tactic(auto, unfolding(crate::specs::HalfAngles::in_range))]
fn in_range(x: f64) -> f64
    ensures { result ≡ HalfAngles.in_range x }
{
    let above = if 0.0 < x { x } else { 0.0 };
    if above < END { above } else { END }
}

// Of a y from -1 to 1: by an odd polynomial of degree 33, fitted to keep its largest error small, within 2^-48. Nothing is proved of that, and nothing
// rests on it but how seldom half_angle bisects. In four parts, since one sum after the other would take longer.
#[tactic(auto, unfolding(crate::specs::HalfAngles::arctangent))]
fn arctangent(y: f64) -> f64
    ensures { result ≡ HalfAngles.arctangent y }
{
    let z = y * y;
    let w = z * z;
    let v = w * w;
    let p1 = trigonometry::horner(
        v,
        5.920025947673109e-05,
        &[
            0.9999999999998888,
            0.11111042956710038,
            0.05767962618910846,
            0.016964987598887607,
        ],
    );
    let p5 = trigonometry::horner(
        v,
        0.0027087290452007516,
        &[
            0.19999999859934894,
            0.07686889493670004,
            0.039471452092677384,
        ],
    );
    let p3 = trigonometry::horner(
        v,
        0.00798203056080681,
        &[
            0.3333333333105409,
            0.09090176329147129,
            0.049171597593655664,
        ],
    );
    let p7 = trigonometry::horner(
        v,
        0.0005826394076148745,
        &[
            0.14285710214325026,
            0.06637810954227702,
            0.02825857904132234,
        ],
    );
    y * ((p1 + w * p5) - z * (p3 + w * p7))
}

#[tactic(auto, unfolding(crate::specs::HalfAngles::guess))]
fn guess(s: f64, c: f64) -> f64
    ensures { result ≡ HalfAngles.guess s c }
{
    in_range(0.7853981633974483 + arctangent((s - c) / (s + c)))
}

// v times 2^-52.
#[tactic(auto, unfolding(crate::specs::HalfAngles::angle))]
fn angle(v: u64) -> f64
    requires { v ≤ HalfAngles.last }
    ensures { result ≡ HalfAngles.angle v }
{
    (v as f64) * 2.220446049250313e-16
}

// By halves, where the guess was no good.
fn bisected(s: f64, c: f64) -> u64
    ensures value { result ≡ HalfAngles.bisected s c }
    ensures most { result ≤ HalfAngles.last }
{
    let mut low: u64 = 0;
    let mut high = LAST;
    let mut left: u64 = 53;
    while left > 0 {
        left -= 1;
        let middle = low + (high - low) / 2;
        if excess(angle(middle), s, c) <= 0.0 {
            low = middle;
        } else {
            high = middle;
        }
    }
    low
}

// One excess is both the check of the guess and Newton's step from it.
#[tactic(auto, unfolding(crate::specs::HalfAngles::half_angle))]
pub fn half_angle(s: f64, c: f64) -> f64
    ensures { result ≡ HalfAngles.half_angle s c }
{
    let g = guess(s, c);
    let e = excess(g, s, c);
    if float::magnitude(e) <= GOOD {
        in_range(g - e)
    } else {
        angle(bisected(s, c))
    }
}

#[cfg(test)]
mod tests {
    // The excess's own rounding is above 2^-45 here, so the angle is found by halves: that of 3 to 4, as 0.6 and 0.8 have it.
    #[test]
    fn by_halves(rt: HostRuntime) {
        assert!(rt; crate::half_angle(3298534883328.0, 4398046511104.0) == 0.6435011087932843);
        assert!(rt; crate::half_angle(0.6, 0.8) == 0.6435011087932843);
    }
}
