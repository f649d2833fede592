// The program: reads the words and standard input, and ends with the status of the run.
#![tactic(auto)]

mod ending;
mod events;
mod quiet;
mod refusal;
mod rehearsal;
mod run;

pub use ending::Ending;
pub use run::{Outcome, run};
use std::process::ExitCode;
use std::rt::Env;
use std::{env, io};
use vb_list::Items;
use vb_stream::{StdSink, StdSource};
use vb_tree::{Bytes, Names};

fn main(rt: HostRuntime) -> ExitCode {
    let mut source = StdSource::new(rt.stdin());
    let mut sink = StdSink::new(rt.stdout());
    let outcome = match words_of(&rt) {
        Ok(words) => run(rt.alloc(), words.slice(), &mut source, &mut sink),
        // Arguments that can't be had as a whole are no command, as an empty word is none.
        Err(_) => {
            let no_command = [Items::new(rt.alloc())];
            run(rt.alloc(), &no_command, &mut source, &mut sink)
        }
    };
    ExitCode::from(outcome.status)
}

/// The words after the program's name.
fn words_of<R: Env + AllocGlobal>(rt: &R) -> io::Result<Names> {
    let mut words = Names::new(rt.alloc());
    for word in env::args(rt)?.skip(1) {
        words.add(Bytes::of(rt.alloc(), word.as_bytes())?)?;
    }
    Ok(words)
}

#[cfg(test)]
mod tests;
