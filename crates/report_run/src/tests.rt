// A program that prints one byte, on a reader that fails.
ghost use Rattle.std.specs.Prelude.{[], ◌∷◌, refl};

use super::*;
use std::io::{Error, ErrorKind};

// Prints one byte, whatever it reads.
struct Mark;

impl Program<4, 3> for Mark {
    ghost report_of = { λ _. 33 ∷ [] };

    ghost enough = { λ _. refl };

    fn report(_input: &[u8], page: &mut [u8; 3]) -> usize {
        *page = [33, 0, 0];
        1
    }
}

// Gives one byte at a time, and fails where no byte is left.
#[derive(Drop)]
struct Broken {
    left: usize,
}

impl Read for Broken {
    fn read(&mut self, buf: &mut [u8]) -> io::Result<usize> {
        if self.left == 0 {
            return Err(Error::from(ErrorKind::TimedOut));
        }
        if buf.is_empty() {
            return Ok(0);
        }
        buf[0] = 0;
        self.left -= 1;
        Ok(1)
    }
}

#[test]
fn a_read_that_fails_in_mid_stream_leaves_no_report(rt: HostRuntime) {
    let mut space = [0u8; 4];
    let mut page = [0u8; 3];
    let mut input = Broken { left: 3 };
    match read_report::<Mark, _, _, _>(&mut input, &mut space, &mut page) {
        Ok(_) => assert!(rt; false),
        Err(e) => assert_eq!(rt; e.kind(), ErrorKind::TimedOut),
    }
    assert_eq!(rt; page[0], 0);
}

#[test]
fn no_more_than_the_space_is_read(rt: HostRuntime) {
    let mut space = [0u8; 4];
    let mut page = [0u8; 3];
    let mut input = Broken { left: 5 };
    match read_report::<Mark, _, _, _>(&mut input, &mut space, &mut page) {
        Ok(report) => {
            assert_eq!(rt; report.read, 4);
            assert_eq!(rt; report.put, 1);
            assert_eq!(rt; page[0], 33);
        }
        Err(_) => assert!(rt; false),
    }
    assert_eq!(rt; input.left, 1);
}
