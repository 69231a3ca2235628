// The square root, sine, cosine and the half-angle for C and Rust, to be compared and timed there.
#![tactic(auto)]

ghost use Rattle.std.specs.Prelude.{◌≡◌};
ghost use Rattle.float.specs.Root.{square_root, square_root_bits};
ghost use Rattle.half_angle.specs.HalfAngles as HalfAngles;
ghost use Rattle.trigonometry.specs.Sines as Sines;

#[unsafe(no_mangle)]
pub extern "C" fn float_sqrt(x: f64) -> f64
    ensures { result ≡ square_root x }
{
    float::sqrt(x)
}

#[unsafe(no_mangle)]
pub extern "C" fn float_sqrt_bits(b: u64) -> u64
    ensures { result ≡ square_root_bits b }
{
    float::sqrt_bits(b)
}

#[unsafe(no_mangle)]
pub extern "C" fn float_sine(x: f64) -> f64
    ensures { result ≡ Sines.sine x }
{
    trigonometry::sine(x)
}

#[unsafe(no_mangle)]
pub extern "C" fn float_cosine(x: f64) -> f64
    ensures { result ≡ Sines.cosine x }
{
    trigonometry::cosine(x)
}

#[unsafe(no_mangle)]
pub extern "C" fn float_half_angle(s: f64, c: f64) -> f64
    ensures { result ≡ HalfAngles.half_angle s c }
{
    half_angle::half_angle(s, c)
}
