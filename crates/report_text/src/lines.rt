// The lines of a report, as bytes of a slice: one for each value, or the one of a refusal. By hand, as in digits, into the caller's buffer: there is
// no heap.

ghost use Rattle.std.specs.Prelude.{◌≡◌, ◌+◌, ◌*◌, ◌<◌, ◌≤◌, length};
ghost use Rattle.std.proofs.lemmas.List.Edits.{sets};
ghost use Rattle.report_text.specs.Lines as Lines;

use crate::digits::Case;

// How many bytes the line of a value has; that of a refusal has no more.
pub const LINE: usize = 20;

fn put_ending(out: &mut [u8], at: usize)
    requires { at < length out.old }
    ensures { out.new ≡ sets out.old at Lines.ending }
{
    out[at] = b'\n';
}

fn put_line(out: &mut [u8], at: usize, k: u64, x: f64)
    requires at_in_bounds { at + LINE ≤ length out.old }
    requires k_bound { k < 100 }
    ensures { out.new ≡ sets out.old at (Lines.line k x) }
{
    crate::digits::put_place(out, at, k);
    crate::digits::put_hex(out, at + 3, words::to_bits(x), Case::Upper);
    put_ending(out, at + (LINE - 1));
}

// At most a hundred values: a place has two digits.
pub fn put_lines(out: &mut [u8], values: &[f64])
    requires in_bounds { length values.now * LINE ≤ length out.old }
    requires places { length values.now ≤ 100 }
    ensures { out.new ≡ sets out.old 0 (Lines.lines 0 values.now) }
{
    for (k, x) in values.iter().enumerate() {
        put_line(out, k * LINE, k as u64, *x);
    }
}

fn put_refused(out: &mut [u8])
    requires { 8 ≤ length out.old }
    ensures { out.new ≡ sets out.old 0 Lines.refused }
{
    out[..8].copy_from_slice(b"refused ");
}

#[tactic(auto, using(crate::proofs::DigitsStored::decimal_short))]
pub fn put_refusal(out: &mut [u8], n: u64) -> usize
    requires in_bounds { LINE ≤ length out.old }
    requires n_bound { n < 100 }
    ensures value { result ≡ length (Lines.refusal n) }
    ensures out_after { out.new ≡ sets out.old 0 (Lines.refusal n) }
{
    put_refused(out);
    let end = crate::digits::put_decimal(out, 8, n);
    put_ending(out, end);
    end + 1
}
