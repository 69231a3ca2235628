// Answers requests from standard input, each a call and its values, with the call's outcome. rust/reference/README.md has the format.
#![tactic(auto)]

ghost use Rattle.std.specs.Prelude.{◌≡◌, ◌*◌, ◌≤◌, OnOk, length, take, drop};
ghost use Rattle.std.specs.Io.KnownBytes.{Consumes};
ghost use Rattle.conformance.specs.Values.{Values};
ghost use Rattle.conformance.specs.Sizes.{values_end};

use outcomes::{LONGEST, Request};
use std::io;
use std::io::Read;

// The header of a request: four words.
const HEADER: usize = 32;

// The bytes of its values: with the header at most 64 KiB.
const MOST_BODY: usize = 65536 - HEADER;

const MOST_VALUES: usize = MOST_BODY / 8;

// Why no more requests are answered.
#[derive(Debug, Drop)]
enum RequestError {
    BadLength,
    NoSuchCall,
    Write(io::Error),
}

// The words of bytes as numbers.
fn read_values(bytes: &[u8], values: &mut [f64])
    requires { length values.old * 8 ≤ length bytes.now }
    ensures { Values (length values.new) bytes.now values.new }
{
    for (k, value) in values.iter_mut().enumerate() {
        *value = words::value(bytes, k * 8);
    }
}

// Fills body from the reader.
fn read_body<R: Read>(reader: &mut R, body: &mut [u8]) -> Result<(), RequestError>
    ensures { OnOk result (Consumes (R.remaining reader.old) (R.remaining reader.new) body.new) }
{
    if filling::fill(reader, body) < body.len() {
        return Err(RequestError::BadLength);
    }
    Ok(())
}

// The request whose first block is the values before `begin`, and whose second those from there on.
fn request(call: u64, values: &[f64], begin: usize, extra: u64) -> Request<'_>
    requires { begin ≤ length values.now }
    ensures call { result.call ≡ call }
    ensures left { result.left.now ≡ take begin values.now }
    ensures right { result.right.now ≡ drop begin values.now }
    ensures extra { result.extra ≡ extra }
{
    let (left, right) = values.split_at(begin);
    Request {
        call,
        left,
        right,
        extra,
    }
}

// How many values a request's two blocks have together; none where that is too many, or where its header is cut short.
#[tactic(auto, unfolding(crate::specs::Sizes::values_end))]
fn values_end(got: usize, first: u64, second: u64) -> Option<usize>
    ensures { result ≡ values_end got first second }
{
    let most = MOST_VALUES as u64;
    if got < HEADER || first > most || second > most - first {
        return None;
    }
    Some((first + second) as usize)
}

// Reads requests and writes their outcomes, until the input ends. A proved loop has to end, so it counts its requests; no input
// has as many.
#[tactic(auto, unfolding(crate::specs::Sizes::values_end))]
fn answer_all<R: Read>(rt: &impl Print, input: &mut R) -> Result<(), RequestError> {
    let mut body = [0u8; MOST_BODY];
    let mut values = [0.0; MOST_VALUES];
    for _ in 0..0x1000_0000_0000_0000u64 {
        let mut header = [0u8; HEADER];
        let got = filling::fill(input, &mut header);
        if got == 0 {
            return Ok(());
        }
        let first = words::word(&header, 8);
        let Some(end) = values_end(got, first, words::word(&header, 16)) else {
            return Err(RequestError::BadLength);
        };
        let begin = first as usize;
        read_body(input, &mut body[..end * 8])?;
        read_values(&body, &mut values[..end]);
        let call = words::word(&header, 0);
        let extra = words::word(&header, 24);
        let mut out = [0u8; LONGEST];
        let Some(count) = requests::answer(request(call, &values[..end], begin, extra), &mut out)
        else {
            return Err(RequestError::NoSuchCall);
        };
        rt.write_all(&out[..count]).map_err(RequestError::Write)?;
    }
    Ok(())
}

// No Display: some messages are for the output, and one is for the stream of errors.
fn main(rt: HostRuntime) {
    let _ = match answer_all(&rt, &mut rt.stdin()) {
        Ok(()) => Ok(()),
        Err(RequestError::BadLength) => println!(rt; "A request is cut short or too long."),
        Err(RequestError::NoSuchCall) => println!(rt; "There is no such call."),
        Err(RequestError::Write(e)) => eprintln!(rt; "standard output: {e}"),
    };
}
