// The chain of each file that is named as an argument: its name, and the report.
#![tactic(auto)]

use chain_run::Chain;
use std::env::FillError;
use std::fs::File;
use std::rt::Env;

fn main(rt: HostRuntime) {
    for k in 1..usize::MAX {
        let mut argument = [0u8; 4096];
        let n = match rt.arg(k, &mut argument) {
            Ok(n) => n,
            Err(FillError::NotPresent) => return,
            Err(FillError::TooLong) => {
                let _ = eprintln!(rt; "the name of a case: File name too long");
                continue;
            }
        };
        let name = match str::from_utf8(&argument[..n]) {
            Ok(name) => name,
            Err(e) => {
                let _ = eprintln!(rt; "the name of a case: {e}");
                continue;
            }
        };
        let mut file = match File::open(&rt, name) {
            Ok(file) => file,
            Err(e) => {
                let _ = eprintln!(rt; "{name}: {e}");
                continue;
            }
        };
        let _ = println!(rt; "{name}");
        report_run::run::<Chain, _, _, _>(&rt, &mut file, name);
    }
}
