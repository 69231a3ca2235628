// Pairs of little-endian words, a pattern and the stored pattern of its root: how many of them are wrong, and the line that shows
// a pattern.
#![tactic(auto)]

ghost use Rattle.std.specs.Prelude.{◌≡◌, ◌+◌, ◌/◌, ◌^◌, ◌<◌, ◌≤◌, ◌↔◌, IsSome, None, eqb, length};
ghost use Rattle.float.specs.Root.{square_root_bits};
ghost use Rattle.sqrt_pairs.specs.Line.{pattern_line};
ghost use Rattle.sqrt_pairs.specs.Pairs.{wrong, wrong_pairs};

use report_text::digits::Case;

// The root on patterns, by way of the f64.
#[tactic(auto, unfolding(float::specs::Root::square_root_bits))]
pub fn root_by_value(b: u64) -> u64
    ensures { result ≡ square_root_bits b }
{
    words::to_bits(float::sqrt(words::of_bits(b)))
}

// A pattern and the stored pattern of its root.
#[derive(Clone, Copy, Debug)]
pub struct Pair {
    pub pattern: u64,
    pub root: u64,
}

impl Pair {
    // Whether both functions give the stored root.
    fn is_right(self) -> bool
        ensures { result ≡ eqb (square_root_bits self.pattern) self.root }
    {
        float::sqrt_bits(self.pattern) == self.root && root_by_value(self.pattern) == self.root
    }
}

// How many pairs were compared, how many of them are wrong, and the first of these.
#[derive(Clone, Copy, Debug)]
pub struct Tally {
    pub compared: u64,
    pub different: u64,
    pub first: Option<Pair>,
    ghost different_le_compared: { different ≤ compared },
    ghost first_if_different: { IsSome first ↔ (0 < different) },
}

impl Tally {
    // No pair compared. Not Default: with facts in its type a struct can't derive it, and an impl by hand would be no shorter than this.
    pub fn new() -> Tally
        ensures compared { result.compared ≡ 0 }
        ensures different { result.different ≡ 0 }
        ensures first { result.first ≡ None }
    {
        Tally {
            compared: 0,
            different: 0,
            first: None,
        }
    }

    // Counts one pair more.
    #[tactic(auto, unfolding(crate::specs::Pairs::wrong))]
    fn add_pair(&mut self, pair: Pair)
        requires { self.old.compared + 1 < 2 ^ 64 }
        ensures compared { self.new.compared ≡ self.old.compared + 1 }
        ensures different { self.new.different ≡ self.old.different + wrong pair.pattern pair.root }
    {
        self.compared += 1;
        if !pair.is_right() {
            self.different += 1;
            self.first = self.first.or(Some(pair));
        }
    }

    // Counts the pairs of s.
    #[tactic(auto, unfolding(crate::specs::Pairs::wrong_pairs))]
    pub fn add_pairs(&mut self, s: &[u8])
        requires { self.old.compared + length s.now / 16 < 2 ^ 64 }
        ensures compared { self.new.compared ≡ self.old.compared + length s.now / 16 }
        ensures different { self.new.different ≡ self.old.different + wrong_pairs s.now (length s.now / 16) }
    {
        for pair in s.chunks_exact(16) {
            self.add_pair(Pair {
                pattern: words::word(pair, 0),
                root: words::word(pair, 8),
            });
        }
    }
}

// The line of a pattern: its name, and its bits in sixteen digits.
pub fn pattern_line(name: &[u8; 28], b: u64) -> [u8; 45]
    ensures { result ≡ pattern_line name.now b }
{
    let mut line = [b'\n'; 45];
    line[..28].copy_from_slice(name);
    report_text::digits::put_hex(&mut line, 28, b, Case::Lower);
    line
}
