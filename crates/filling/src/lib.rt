// Fills a buffer from a reader. That as much is read as the reader has is promised of `try_fill` where it answers, and not of `fill`, to which a failed read is
// as the end; that a read doesn't fail without need no contract can say.
#![tactic(auto)]

ghost use Rattle.std.specs.Prelude.{◌<◌, ◌≤◌, ℕ, IfOk, OnErr, IsOk, length, take};
ghost use Rattle.std.specs.Io.KnownBytes.{Consumes, IsAtEnd};

use std::io;
use std::io::Read;

// How many bytes came to the start of buf until it was full, the input ended or a read failed, and that read's error.
#[tactic(auto, using(crate::proofs::Bytes::more_came))]
fn fill_part<R: Read>(reader: &mut R, buf: &mut [u8]) -> (usize, io::Result<()>)
    ensures in_bounds { result.0 ≤ length buf.new }
    ensures bytes { Consumes (R.remaining reader.old) (R.remaining reader.new) (take result.0 buf.new) }
    ensures end { IsOk result.1 → result.0 < length buf.new → IsAtEnd (R.remaining reader.new) }
{
    // No step has a length of its own: a read gives as many bytes as it likes.
    let mut done = 0usize;
    while done < buf.len() {
        match reader.read(&mut buf[done..]) {
            Ok(0) => return (done, Ok(())),
            Ok(more) => done += more,
            Err(e) => return (done, Err(e)),
        }
    }
    (done, Ok(()))
}

// Reads until buf is full, the input ends or a read fails, and answers how many bytes it put at the start of buf.
pub fn fill<R: Read>(reader: &mut R, buf: &mut [u8]) -> usize
    ensures in_bounds { result ≤ length buf.new }
    ensures bytes { Consumes (R.remaining reader.old) (R.remaining reader.new) (take result buf.new) }
{
    let (done, _) = fill_part(reader, buf);
    done
}

// The same, but a read that fails is an error, that read's, which no clause can say; the bytes that came before it stand at the start of buf then too.
pub fn try_fill<R: Read>(reader: &mut R, buf: &mut [u8]) -> io::Result<usize>
    ensures in_bounds { IfOk result (λ n. n ≤ length buf.new) }
    ensures bytes { IfOk result
        (λ n. Consumes (R.remaining reader.old) (R.remaining reader.new) (take n buf.new)) }
    ensures end { IfOk result (λ n. n < length buf.new → IsAtEnd (R.remaining reader.new)) }
    ensures err { OnErr result
        ((n : ℕ) × (n ≤ length buf.new) × Consumes (R.remaining reader.old) (R.remaining reader.new) (take n buf.new)) }
{
    let (done, end) = fill_part(reader, buf);
    end?;
    Ok(done)
}
