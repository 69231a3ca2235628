// The chain of the blocks on standard input.
#![tactic(auto)]

use chain_run::Chain;
use std::env::FillError;
use std::rt::Env;

fn main(rt: HostRuntime) {
    let mut argument = [0u8; 1];
    if !matches!(rt.arg(1, &mut argument), Err(FillError::NotPresent)) {
        let _ = eprintln!(rt; "usage: chain < FILE, a file of element blocks of 88 bytes");
        return;
    }
    report_run::run::<Chain, _, _, _>(&rt, &mut rt.stdin(), "standard input");
}
