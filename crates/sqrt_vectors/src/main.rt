// Compares the square root with the stored roots in the file that the first argument names: pairs of little-endian words, a
// pattern and the pattern of its root.
#![tactic(auto)]

ghost use Rattle.std.specs.Prelude.{[], IfOk, OnOk};
ghost use Rattle.std.specs.Io.KnownBytes.{Consumes, IsAtEnd};
ghost use Rattle.sqrt_vectors.specs.Compared.{AllCompared};

use sqrt_pairs::Tally;
use std::env::FillError;
use std::fs::File;
use std::io;
use std::io::Read;
use std::rt::Env;

// Why a file was not compared to its end.
#[derive(Debug, Drop)]
enum CompareError {
    Read(io::Error),
    PartialPair,
    NotAtEnd,
    TooLong,
}

impl From<io::Error> for CompareError {
    ghost use Rattle.sqrt_vectors.specs.declared.CompareError.TheVariants.{Read as read};
    ghost use Rattle.std.specs.Prelude.{◌≡◌};

    ghost from_gives = { λ e r. r ≡ read e };

    fn from(e: io::Error) -> CompareError {
        CompareError::Read(e)
    }
}

// After a short piece, of n bytes: whether these are whole pairs, and the file has ended. That the piece was short does not say so,
// since a read may have failed: the file is asked for one byte more.
fn check_end<R: Read>(file: &mut R, n: usize) -> Result<(), CompareError>
    ensures none { OnOk result (Consumes (R.remaining file.old) (R.remaining file.new) []) }
    ensures end { OnOk result (IsAtEnd (R.remaining file.new)) }
{
    if n % 16 != 0 {
        return Err(CompareError::PartialPair);
    }
    let mut byte = [0u8; 1];
    match file.read(&mut byte)? {
        0 => Ok(()),
        _ => Err(CompareError::NotAtEnd),
    }
}

// The tally of the whole file. A proved loop has to end, so it counts its pieces; no file has as many.
#[tactic(auto, using(crate::proofs::Compared::none_yet))]
fn compare_file<R: Read>(file: &mut R) -> Result<Tally, CompareError>
    ensures { IfOk result (λ t. AllCompared t (R.remaining file.old)) }
{
    let mut tally = Tally::new();
    let mut buf = [0u8; 65536];
    for _ in 0..0x1_0000_0000u64 {
        let n = filling::fill(file, &mut buf);
        tally.add_pairs(&buf[..n]);
        if n < 65536 {
            check_end(file, n)?;
            return Ok(tally);
        }
    }
    Err(CompareError::TooLong)
}

fn main(rt: HostRuntime) -> io::Result<()> {
    let mut buf = [0u8; 4096];
    let n = match rt.arg(1, &mut buf) {
        Ok(n) => n,
        Err(FillError::NotPresent) => {
            return eprintln!(rt; "the name of the vectors: Invalid argument");
        }
        Err(FillError::TooLong) => {
            return eprintln!(rt; "the name of the vectors: File name too long");
        }
    };
    let path = match str::from_utf8(&buf[..n]) {
        Ok(path) => path,
        Err(e) => return eprintln!(rt; "the name of the vectors: {e}"),
    };
    let mut file = match File::open(&rt, path) {
        Ok(file) => file,
        Err(e) => return eprintln!(rt; "{path}: {e}"),
    };
    let tally = match compare_file(&mut file) {
        Ok(tally) => tally,
        Err(CompareError::TooLong) => return println!(rt; "The file is too long."),
        // The program ends well after the messages below, printed or not. No Display, since they have two streams.
        Err(CompareError::Read(e)) => {
            let _ = eprintln!(rt; "{path}: {e}");
            return Ok(());
        }
        Err(CompareError::PartialPair) => {
            let _ = println!(rt; "The file's length is no multiple of 16.");
            return Ok(());
        }
        Err(CompareError::NotAtEnd) => {
            let _ = println!(rt; "The file was not read to its end.");
            return Ok(());
        }
    };
    if tally.compared == 0 {
        return println!(rt; "The file is empty.");
    }
    println!(rt; "{} patterns compared", tally.compared)?;
    println!(rt; "{} differ", tally.different)?;
    if let Some(pair) = tally.first {
        let b = pair.pattern;
        let first = sqrt_pairs::pattern_line(b"first pattern that differs: ", b);
        let stored = sqrt_pairs::pattern_line(b"its stored root:            ", pair.root);
        let by_bits = sqrt_pairs::pattern_line(
            b"its root by sqrt_bits:      ",
            float::sqrt_bits(b),
        );
        let by_value = sqrt_pairs::pattern_line(
            b"its root by sqrt:           ",
            sqrt_pairs::root_by_value(b),
        );
        rt.write_all(&first)?;
        rt.write_all(&stored)?;
        rt.write_all(&by_bits)?;
        rt.write_all(&by_value)?;
    }
    Ok(())
}
