// Numbers in digits, as bytes of a slice: hexadecimal, and decimal below 100. By hand, since std's UpperHex promises nothing of its text;
// into a slice from a place on, as in words, since there is no heap.

ghost use Rattle.std.specs.Prelude.{◌≡◌, ◌+◌, ◌<◌, ◌≤◌, length};
ghost use Rattle.std.proofs.lemmas.List.Edits.{sets};
ghost use Rattle.report_text.specs.Digits as Digits;

// The letters that stand for the digits from ten on.
#[derive(Clone, Copy, Debug, PartialEq, Eq)]
pub enum Case {
    Lower,
    Upper,
}

#[tactic(auto, unfolding(crate::specs::Digits::digit))]
fn digit(d: u64, case: Case) -> u8
    requires { d < 16 }
    ensures { result ≡ Digits.digit_in case d }
{
    let ten = match case {
        Case::Lower => b'a',
        Case::Upper => b'A',
    };
    if d < 10 {
        b'0' + d as u8
    } else {
        ten + (d - 10) as u8
    }
}

// Sixteen hexadecimal digits, the last one first.
pub fn put_hex(out: &mut [u8], at: usize, n: u64, case: Case)
    requires { at + 16 ≤ length out.old }
    ensures { out.new ≡ sets out.old at (Digits.hex_in case 16 n) }
{
    let mut rest = n;
    for k in (0..16usize).rev() {
        out[at + k] = digit(rest % 16, case);
        rest /= 16;
    }
}

// That a number is below 100 is a clause, here and below, since every line computes with the bare number.
#[tactic(auto, unfolding(crate::specs::Digits::tens))]
fn tens(k: u64) -> u8
    requires { k < 100 }
    ensures { result ≡ Digits.tens k }
{
    if k < 10 {
        b' '
    } else {
        digit(k / 10, Case::Upper)
    }
}

#[tactic(auto, unfolding(crate::specs::Digits::place))]
pub fn put_place(out: &mut [u8], at: usize, k: u64)
    requires at_in_bounds { at + 3 ≤ length out.old }
    requires k_bound { k < 100 }
    ensures { out.new ≡ sets out.old at (Digits.place k) }
{
    let t = tens(k);
    let d = digit(k % 10, Case::Upper);
    out[at] = t;
    out[at + 1] = d;
    out[at + 2] = b' ';
}

// The number, and the place after it.
#[tactic(auto, unfolding(crate::specs::Digits::decimal))]
pub fn put_decimal(out: &mut [u8], at: usize, n: u64) -> usize
    requires at_in_bounds { at + 2 ≤ length out.old }
    requires n_bound { n < 100 }
    ensures value { result ≡ at + length (Digits.decimal n) }
    ensures out_after { out.new ≡ sets out.old at (Digits.decimal n) }
{
    if n < 10 {
        let d = digit(n, Case::Upper);
        out[at] = d;
        return at + 1;
    }
    let t = digit(n / 10, Case::Upper);
    let d = digit(n % 10, Case::Upper);
    out[at] = t;
    out[at + 1] = d;
    at + 2
}
