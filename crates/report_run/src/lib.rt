// Reads an input, as much of it as decides, and writes its report, for any program that does no more. Of a reader whose bytes are known the report is that of all of them. That
// the bytes read from the system are those of a file no contract can say: the language has no model of what the operating system does.
#![tactic(auto)]

ghost use Rattle.std.specs.Prelude.{◌≡◌, ◌≤◌, ◌<◌, ◌^◌, ℕ, pos, IfOk, IfErr, OnOk, List, take};
ghost use Rattle.std.specs.Io.{ReadsAtMost};
ghost use Rattle.std.specs.Io.KnownBytes.{ReadConsumes};
ghost use Rattle.std.specs.IoError.{raw_os_error};
ghost use Rattle.report_run.specs.Reports.{Written, Reported, ReportedWhole};

use std::io;
use std::io::{Eprint, Read};

// A program that prints a report of its input: `report_of` says which, in at most PAGE bytes. Of a longer input the first SPACE bytes decide
// (`enough`), so no more are read.
pub trait Program<const SPACE: usize, const PAGE: usize> {
    ghost report_of: { List ℕ → List ℕ };

    // Puts what is printed at the start of page, and answers how many bytes it is.
    fn report(input: &[u8], page: &mut [u8; PAGE]) -> usize
        ensures fits { result ≤ PAGE }
        ensures text { Written result page.new (report_of input.now) };

    ghost enough: { (s : List ℕ) → report_of (take SPACE s) ≡ report_of s };
}

// The first `read` bytes of the space are the input, and the first `put` bytes of the page its report. Counts and no slices: a borrow in the answer
// would leave nothing to say of the page after an error.
#[derive(Clone, Copy, Debug)]
pub struct Report {
    pub read: usize,
    pub put: usize,
}

// Reads the reader's bytes into space, and puts the report of what was read at the start of page. A read that fails leaves the
// page as it was.
pub fn read_report<P: Program<SPACE, PAGE>, R: Read, const SPACE: usize, const PAGE: usize>(
    reader: &mut R,
    space: &mut [u8; SPACE],
    page: &mut [u8; PAGE],
) -> io::Result<Report>
    ensures fits { IfOk result (λ r. r.put ≤ PAGE) }
    ensures reported { Reported P.report_of result space.new page.old page.new }
    ensures whole { ReportedWhole P.report_of result (R.remaining reader.old) page.new }
{
    let read = filling::try_fill(reader, space)?;
    let put = P::report(&space[..read], page);
    Ok(Report { read, put })
}

// A reader that keeps the error of its last read that failed; until one fails, the error of number 0. `Read` promises nothing of its errors, so no contract
// of a function that reads from any reader can say whose error it answers: what is told of a failed read is the error that is kept here.
#[derive(Drop)]
pub struct Noting<R> {
    reader: R,
    pub error: io::Error,
}

impl<R> Noting<R> {
    pub fn new(reader: R) -> Noting<R>
        ensures reader { result.reader ≡ reader }
        ensures error { raw_os_error result.error ≡ Some (pos 0) }
    {
        Noting {
            reader,
            error: io::Error::from_raw_os_error(0),
        }
    }
}

impl<R: Read> Read for Noting<R> {
    ghost remaining = { λ s. R.remaining s.reader };

    fn read(&mut self, buf: &mut [u8]) -> io::Result<usize>
        ensures bound { ReadsAtMost result buf.new }
        ensures bytes { ReadConsumes (R.remaining self.old.reader) (R.remaining self.new.reader) result buf.new }
        ensures noted { IfErr result (λ e. self.new.error ≡ e) }
        ensures kept { OnOk result (self.new.error ≡ self.old.error) }
    {
        let answer = self.reader.read(buf);
        if let Err(e) = answer {
            self.error = e;
        }
        answer
    }
}

// The report of what the reader gives, on standard output. A read that fails is told on standard error under the reader's name, and
// nothing is reported; a write that fails is told there too. The buffers are arrays, which have to be smaller than 2^63 bytes.
pub fn run<P: Program<SPACE, PAGE>, R: Read, const SPACE: usize, const PAGE: usize>(
    rt: &(impl Print + Eprint),
    reader: &mut R,
    name: &str,
)
    requires space_fits { SPACE < 2 ^ 63 }
    requires page_fits { PAGE < 2 ^ 63 }
{
    let mut space = [0u8; SPACE];
    let mut page = [0u8; PAGE];
    let mut input = Noting::new(reader);
    match read_report::<P, _, SPACE, PAGE>(&mut input, &mut space, &mut page) {
        Ok(report) => {
            if let Err(e) = rt.write_all(&page[..report.put]) {
                let _ = eprintln!(rt; "standard output: {e}");
            }
        }
        Err(_) => {
            let _ = eprintln!(rt; "{name}: {}", input.error);
        }
    }
}

#[cfg(test)]
mod tests;
