// The program `chain`, as report_run runs it.
#![tactic(auto)]

ghost use Rattle.report.specs.Text.{report_of};
ghost use Rattle.report.proofs.Reading.{one-byte-more};

use report::{PAGE, SPACE};
use report_run::Program;

// The chain of the blocks that are read, or why there is none.
pub struct Chain;

impl Program<SPACE, PAGE> for Chain {
    ghost report_of = { report_of };

    ghost enough = { one-byte-more };

    fn report(input: &[u8], page: &mut [u8; PAGE]) -> usize {
        report::report(input, page)
    }
}

#[cfg(test)]
mod tests {
    use super::*;
    use report_run::Noting;
    use std::io;
    use std::io::{Error, ErrorKind, Read};

    // Fails at once.
    #[derive(Drop)]
    struct Broken;

    impl Read for Broken {
        fn read(&mut self, _buf: &mut [u8]) -> io::Result<usize> {
            Err(Error::from(ErrorKind::TimedOut))
        }
    }

    #[test]
    fn a_read_that_fails_in_mid_stream_leaves_no_report(rt: HostRuntime) {
        let mut space = [0u8; SPACE];
        let mut page = [0u8; PAGE];
        let bytes = [0u8; 88];
        let mut input = Noting::new(bytes.as_slice().chain(Broken));
        let report = report_run::read_report::<Chain, _, _, _>(&mut input, &mut space, &mut page);
        assert!(rt; report.is_err());
        assert_eq!(rt; input.error.kind(), ErrorKind::TimedOut);
        assert_eq!(rt; page[0], 0);
    }

    #[test]
    fn a_slice_is_read_to_its_end(rt: HostRuntime) {
        let bytes = [0u8; 87];
        let mut space = [0u8; SPACE];
        let mut page = [0u8; PAGE];
        let mut input = bytes.as_slice();
        match report_run::read_report::<Chain, _, _, _>(&mut input, &mut space, &mut page) {
            Ok(report) => {
                assert_eq!(rt; report.read, 87);
                assert_eq!(rt; report.put, 10);
                assert!(rt; &page[..10] == b"refused 1\n".as_slice());
            }
            Err(_) => assert!(rt; false),
        }
    }
}
