// klem: answers a script from standard input, a line for a line.
#![tactic(auto)]

mod answer;
mod args;
mod blocks;
mod bytes;
mod command;
mod edits;
mod fault;
mod levels;
mod looks;
mod paths;
mod script;
mod shell;
mod tables;
mod words;

use script::Script;
use shell::Shell;

// How many bytes there are of the script at a time. The answers that wait are written behind each such chunk (docs/DECISIONS.md).
const CHUNK: usize = 265_536;

// What went wrong is told on standard error: a program has no status of its own.
fn report(rt: &impl Eprint, wrong_lines: u64, is_written: bool) {
    let _ = match wrong_lines {
        0 => Ok(()),
        1 => eprintln!(rt; "klem: 1 line was not understood"),
        n => eprintln!(rt; "klem: {n} lines were not understood"),
    };
    if !is_written {
        let _ = eprintln!(rt; "klem: writing failed");
    }
}

fn main(rt: HostRuntime) {
    let mut shell = Shell {
        table: [0; table::layout::WORDS],
        bytes: [0; words::MOST_BYTES],
        room: [0; words::MOST_BYTES],
    };
    let _ = namespace::new(&mut shell.table);
    let mut script = Script::new(rt.alloc(), rt.stdout());
    let served = script.serve(&mut rt.stdin(), &mut [0; CHUNK], &mut shell);
    report(&rt, script.wrong_lines(), served.is_ok());
}
