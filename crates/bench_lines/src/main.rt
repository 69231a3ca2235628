// The lines on exp, log, norms and is_valid of the scope's bench list that are not marked to be proved, run: the number of each call's outcome, 0 for an answer;
// of is_valid its answer as well, 1 for yes and 0 for no.
#![tactic(auto)]

ghost use Rattle.std.specs.Prelude.{◌≡◌, Bool, List, Float};
ghost use Rattle.checks.specs.Outcomes.{outcome};
ghost use Rattle.manifold.specs.Outcomes.{valid};
ghost use Rattle.bench_lines.specs.Numbers as Numbers;

use checks::Refusal;
use std::io;

// The number of the answer's outcome. Each type of answer defines its outcome by `outcome`, with values of its own, so this is said of all values. The number is what is
// printed, and so is yes or no below.
#[tactic(auto, unfolding(checks::specs::Outcomes::outcome))]
fn number<T: Copy>(answer: Result<T, Refusal>) -> u32
    ensures of_values { (values : T → List Float) → (refused : List Float) → result ≡ (outcome values refused answer).number }
    ensures of_yes_or_no { (values : T → List Bool) → (refused : List Bool) → result ≡ (outcome values refused answer).number }
{
    match answer {
        Ok(_) => 0,
        Err(r) => r.number(),
    }
}

#[tactic(auto, unfolding(crate::specs::Numbers::first, manifold::specs::Outcomes::valid, checks::specs::Outcomes::outcome))]
fn yes(answer: Result<bool, Refusal>) -> u32
    ensures { result ≡ Numbers.first (valid answer).values }
{
    match answer {
        Ok(true) => 1,
        Ok(false) | Err(_) => 0,
    }
}

fn main(rt: HostRuntime) -> io::Result<()> {
    let tolerance = checks::quaternion_norm_tolerance();
    let theta = [1.52587890625e-5, 0.0, 0.0];
    let n = number(manifold_calls::exp::<so3::Tangent>(&theta));
    println!(rt; "SO3 exp of theta (2^-16, 0, 0): {n}")?;
    let mut tangent = [0.0; sgal3::DOF];
    tangent[6] = 1.52587890625e-5;
    let n = number(manifold_calls::exp::<sgal3::Tangent>(&tangent));
    println!(rt; "SGal3 exp of theta (2^-16, 0, 0): {n}")?;
    let near = [1.0, 7.62939453125e-6, 0.0, 0.0];
    let n = number(manifold_calls::log::<so3::Element>(&near, tolerance));
    println!(rt; "SO3 log of (1, 2^-17, 0, 0): {n}")?;
    let mut turned = [0.0; sgal3::REP_SIZE];
    turned[3] = 1.0;
    turned[4] = 7.62939453125e-6;
    let n = number(manifold_calls::log::<sgal3::Element>(&turned, tolerance));
    println!(rt; "SGal3 log of (1, 2^-17, 0, 0): {n}")?;
    let n = number(sgal3_calls::composition::inverse(&[0.0; sgal3::REP_SIZE], tolerance));
    println!(rt; "inverse, all four zero: {n}")?;
    let mut two = [0.0; sgal3::REP_SIZE];
    two[3] = 2.0;
    let mut bad = two;
    bad[10] = 0.0 / 0.0;
    let n = number(sgal3_calls::composition::inverse(&bad, tolerance));
    println!(rt; "inverse, NaN time and norm 2: {n}")?;
    let valid = manifold_calls::is_valid::<sgal3::Element>(&two, tolerance);
    let n = number(valid);
    let y = yes(valid);
    println!(rt; "SGal3 is_valid of w = 2 with 1e-6: {n} {y}")?;
    let valid = manifold_calls::is_valid::<sgal3::Element>(&two, 0.0);
    let n = number(valid);
    let y = yes(valid);
    println!(rt; "SGal3 is_valid of w = 2 with 0: {n} {y}")?;
    let double = [2.0, 0.0, 0.0, 0.0];
    let valid = manifold_calls::is_valid::<so3::Element>(&double, tolerance);
    let n = number(valid);
    let y = yes(valid);
    println!(rt; "SO3 is_valid of w = 2 with 1e-6: {n} {y}")
}
