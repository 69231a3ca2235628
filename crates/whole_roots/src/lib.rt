// Whole numbers alone: the one nearest to a square root, confirmed or found digit by digit.
#![tactic(auto)]

ghost use Rattle.std.specs.Prelude.{◌≡◌, true, ◌*◌, ◌^◌, ◌<◌, ◌≤◌};
ghost use Rattle.whole_roots.specs.Roots.{WholeRoot, Between};
ghost use Rattle.whole_roots.specs.Steps.{Ready, Extended};

// The bounds on a and q stand in the contracts and not in a type: every line computes with the bare numbers.

// The whole number nearest to the root of a * 2^52: the guess q or its neighbour if that is confirmed, and else by digits.
pub fn nearest_root(a: u64, q: u64) -> u64
    requires bound { 2 ^ 52 ≤ a }
    requires a_bound { a < 2 ^ 54 }
    requires q_nonzero { 0 < q }
    requires q_bound { q < 2 ^ 53 }
    ensures { Between (a * 2 ^ 54) result }
{
    if is_nearest_root(a, q) {
        return q;
    }
    let up = q + 1;
    if is_nearest_root(a, up) {
        return up;
    }
    let down = q - 1;
    if is_nearest_root(a, down) {
        return down;
    }
    (whole_root(a) + 1) / 2
}

// Whether q is found to be the whole number nearest to the root of a * 2^52: with o = 2 * q - 1, a * 2^54 is above o * o,
// by less than the next odd square is. The square is taken by halves of o. A no says nothing.
fn is_nearest_root(a: u64, q: u64) -> bool
    requires { a < 2 ^ 54 }
    ensures { result ≡ true → Between (a * 2 ^ 54) q }
{
    if q < 1 {
        return false;
    }
    if q > 0x1f_ffff_ffff_ffff {
        return false;
    }
    let o = q * 2 - 1;
    let high = o >> 27;
    let low = o % 0x800_0000;
    let first = high * high;
    if a < first {
        return false;
    }
    let s = a - first;
    if s > 0x1fff_ffff {
        return false;
    }
    let second = high * low * 2;
    if s * 0x800_0000 < second {
        return false;
    }
    let t = s * 0x800_0000 - second;
    if t > 0xffff_ffff {
        return false;
    }
    let third = low * low;
    if t * 0x800_0000 <= third {
        return false;
    }
    t * 0x800_0000 - third < o * 4 + 4
}

// The root so far, what its square leaves of the radicand's digits taken so far, and the digits to come.
#[derive(Clone, Copy)]
struct Digits {
    root: u64,
    rest: u64,
    digits: u64,
}

// One binary digit more of the root, for two more of the radicand.
fn next_digit(s: Digits) -> Digits
    requires ready { Ready s }
    requires root_bound { s.root < 2 ^ 53 }
    ensures { Extended s result }
{
    let root = s.root;
    let digits = s.digits;
    let rest = s.rest * 4 + (digits >> 52);
    let trial = root * 4 + 1;
    if trial <= rest {
        Digits {
            root: root * 2 + 1,
            rest: rest - trial,
            digits: (digits % 0x10_0000_0000_0000) * 4,
        }
    } else {
        Digits {
            root: root * 2,
            rest,
            digits: (digits % 0x10_0000_0000_0000) * 4,
        }
    }
}

// The whole square root of a * 2^54, digit by digit.
fn whole_root(a: u64) -> u64
    requires { a < 2 ^ 54 }
    ensures { WholeRoot (a * 2 ^ 54) result }
{
    let mut s = Digits {
        root: 0,
        rest: 0,
        digits: a,
    };
    for _ in 0..54u64 {
        s = next_digit(s);
    }
    s.root
}
