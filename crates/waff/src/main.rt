//! The program `waff`: it reads what it is asked, and answers.
//!
//! The words and the files are read by the library `waff_cli`. What is answered, and how the program
//! ends, `waff_answer` says: here stands which stream is which.
//! `version` is what `--version` tells.
#![tactic(auto)]

mod version;

use std::io;
use std::io::IsTerminal;
use std::process::ExitCode;
use std::rt::Runtime;
use std::sync::Wait;
use std::thread::Threads;
use waff_answer::end;
use waff_cli::{ProgramVersion, Terminals, read_task};
use waff_io::{ErrorStream, Watched};
use waff_run::Opens;

fn main(rt: HostRuntime) -> ExitCode {
    let terminals = Terminals {
        input: rt.stdin().is_terminal(),
        error: rt.stderr().is_terminal(),
    };
    let mut err = Watched::new(rt.stderr());
    ExitCode::from(run(&rt, terminals, &mut err))
}

/// Answers what the program is asked, and gives the exit status.
fn run<R: Runtime + AllocGlobal + Threads + Wait + Opens + Sync, E: ErrorStream>(
    rt: &R,
    terminals: Terminals,
    err: &mut E,
) -> u8 {
    let version = ProgramVersion {
        short: version::VERSION,
        long: version::LONG_VERSION,
    };
    let read = read_task(rt, version, terminals, err);
    end(rt, rt.alloc(), read, &mut io::writer(rt), err)
}
