// A word gathered from a place of a slice and one stored at a place, for Rust, to be compared there.
#![tactic(auto)]

ghost use Rattle.std.specs.Prelude.{◌≡◌, ◌+◌, ◌<◌, ◌≤◌, length};
ghost use Rattle.std.proofs.lemmas.List.Edits.{sets};
ghost use Rattle.words.specs.Word.{word_at, bytes_of};

// The word at s[at..at + 8], and 0 where there are no such bytes.
#[unsafe(no_mangle)]
pub extern "C" fn words_word(s: &[u8], at: usize) -> u64
    ensures within { at + 8 ≤ length s.now → result ≡ word_at s.now at }
    ensures beyond { length s.now < at + 8 → result ≡ 0 }
{
    if s.len() < 8 || at > s.len() - 8 {
        return 0;
    }
    words::word(s, at)
}

// Stores n at out[at..at + 8], and nothing where there are no such bytes.
#[unsafe(no_mangle)]
pub extern "C" fn words_put_word(out: &mut [u8], at: usize, n: u64)
    ensures within { at + 8 ≤ length out.old → out.new ≡ sets out.old at (bytes_of n) }
    ensures beyond { length out.old < at + 8 → out.new ≡ out.old }
{
    if out.len() < 8 || at > out.len() - 8 {
        return;
    }
    words::put_word(out, at, n);
}
