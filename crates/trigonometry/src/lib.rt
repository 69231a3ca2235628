// Sine and cosine of an f64, by their Taylor sums. Where the argument is of magnitude at most 4 each is within 2^-45 of the exact sum through the 31st
// power (proofs/Accuracy.antt).
#![tactic(auto)]

ghost use Rattle.std.specs.Prelude.{◌≡◌};
ghost use Rattle.trigonometry.specs.Sines as Sines;

// c[0] + w (c[1] + w (.. + w last)), by Horner's scheme.
pub fn horner(w: f64, last: f64, c: &[f64]) -> f64
    ensures { result ≡ Sines.horner w last c.now }
{
    let mut sum = last;
    for a in c.iter().rev() {
        sum = *a + w * sum;
    }
    sum
}

// Of a number that is not below zero. This and the next function are public for `half_angle`, whose numbers are not.
#[tactic(auto, unfolding(crate::specs::Sines::sine_of))]
pub fn sine_of(y: f64) -> f64
    ensures { result ≡ Sines.sine_of y }
{
    let z = y * y;
    let w = z * z;
    let minus = horner(
        w,
        1.216125041553518e-34,
        &[
            0.16666666666666666,
            0.0001984126984126984,
            2.505210838544172e-08,
            7.647163731819816e-13,
            8.22063524662433e-18,
            3.868170170630684e-23,
            9.183689863795546e-29,
        ],
    );
    let plus = horner(
        w,
        1.1309962886447716e-31,
        &[
            0.008333333333333333,
            2.7557319223985893e-06,
            1.6059043836821613e-10,
            2.8114572543455206e-15,
            1.9572941063391263e-20,
            6.446950284384474e-26,
        ],
    );
    y - (y * z) * (minus - z * plus)
}

#[tactic(auto, unfolding(crate::specs::Sines::cosine_of))]
pub fn cosine_of(y: f64) -> f64
    ensures { result ≡ Sines.cosine_of y }
{
    let z = y * y;
    let w = z * z;
    let minus = horner(
        w,
        3.7699876288159054e-33,
        &[
            0.5,
            0.001388888888888889,
            2.755731922398589e-07,
            1.1470745597729725e-11,
            1.5619206968586225e-16,
            8.896791392450574e-22,
            2.4795962632247976e-27,
        ],
    );
    let plus = horner(
        w,
        3.279889237069838e-30,
        &[
            0.041666666666666664,
            2.48015873015873e-05,
            2.08767569878681e-09,
            4.779477332387385e-14,
            4.110317623312165e-19,
            1.6117375710961184e-24,
        ],
    );
    1.0 - z * (minus - z * plus)
}

// A zero keeps its sign.
#[tactic(auto, unfolding(crate::specs::Sines::sine))]
pub fn sine(x: f64) -> f64
    ensures { result ≡ Sines.sine x }
{
    if x == 0.0 {
        return x;
    }
    let v = sine_of(float::magnitude(x));
    if x < 0.0 { -v } else { v }
}

#[tactic(auto, unfolding(crate::specs::Sines::cosine))]
pub fn cosine(x: f64) -> f64
    ensures { result ≡ Sines.cosine x }
{
    cosine_of(float::magnitude(x))
}
