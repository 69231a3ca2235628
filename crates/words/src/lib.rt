// Eight little-endian bytes as a word, a word as a number, and back: every pattern is read, a NaN's too. Bytes become a word in `word` alone and a word
// becomes bytes in `put_word` alone; a number is made of a word, and never of bytes.
#![tactic(auto)]

ghost use Rattle.std.specs.Prelude.{◌≡◌, true, ◌+◌, ◌≤◌, length};
ghost use Rattle.std.proofs.lemmas.List.Edits.{sets};
ghost use Rattle.std.specs.Float.{binary64};
ghost use Rattle.std.specs.Float.Ieee.{of_bits, to_bits};
ghost use Rattle.std.specs.Float.Ieee.Scale.{finite};
ghost use Rattle.words.specs.Word.{word_at, value_at, bytes_of};

// A slice and a place, and not a slice of eight bytes, which each caller would have to cut out and show to be of that length.

// The word at s[at..at + 8], the sum of byte i times 256^i. Its bytes are named: cut out as an array they would have to be unwrapped.
pub fn word(s: &[u8], at: usize) -> u64
    requires { at + 8 ≤ length s.now }
    ensures { result ≡ word_at s.now at }
{
    u64::from_le_bytes([
        s[at],
        s[at + 1],
        s[at + 2],
        s[at + 3],
        s[at + 4],
        s[at + 5],
        s[at + 6],
        s[at + 7],
    ])
}

// The f64 of a pattern. f64::from_bits is undefined at a NaN's, and is not asked there.
pub fn of_bits(b: u64) -> f64
    ensures { result ≡ of_bits binary64 b }
{
    if b % 0x8000_0000_0000_0000 > 0x7ff0_0000_0000_0000 {
        return 0.0 / 0.0;
    }
    f64::from_bits(b)
}

// The pattern of an f64, 7FF8000000000000 for a NaN.
pub fn to_bits(x: f64) -> u64
    ensures { result ≡ to_bits binary64 x }
{
    if x != x {
        return 0x7ff8_0000_0000_0000;
    }
    f64::to_bits(x)
}

// The number at s[at..at + 8].
pub fn value(s: &[u8], at: usize) -> f64
    requires { at + 8 ≤ length s.now }
    ensures { result ≡ value_at s.now at }
{
    of_bits(word(s, at))
}

// Whether the number at s[at..at + 8] is finite.
pub fn is_finite_at(s: &[u8], at: usize) -> bool
    requires { at + 8 ≤ length s.now }
    ensures { result ≡ finite (value_at s.now at) }
{
    float::is_finite_bits(word(s, at))
}

// The number at s[at..at + 8], which is finite: no test for a NaN.
pub fn finite_value(s: &[u8], at: usize) -> f64
    requires at_in_bounds { at + 8 ≤ length s.now }
    requires at_value { finite (value_at s.now at) ≡ true }
    ensures { result ≡ value_at s.now at }
{
    f64::from_bits(word(s, at))
}

// Stores a word at out[at..at + 8].
pub fn put_word(out: &mut [u8], at: usize, n: u64)
    requires { at + 8 ≤ length out.old }
    ensures { out.new ≡ sets out.old at (bytes_of n) }
{
    out[at..at + 8].copy_from_slice(&n.to_le_bytes());
}

// Stores a number at out[at..at + 8].
pub fn put_value(out: &mut [u8], at: usize, x: f64)
    requires { at + 8 ≤ length out.old }
    ensures { out.new ≡ sets out.old at (bytes_of (to_bits binary64 x)) }
{
    put_word(out, at, to_bits(x));
}

// The same of a finite number. A function beside the other, since the test for a NaN would cost time in each store.
pub fn put_finite_value(out: &mut [u8], at: usize, x: f64)
    requires at_in_bounds { at + 8 ≤ length out.old }
    requires x_value { finite x ≡ true }
    ensures { out.new ≡ sets out.old at (bytes_of (to_bits binary64 x)) }
{
    put_word(out, at, f64::to_bits(x));
}
