// Scripts: text in, a disk's size and the lines of several writers out.
#![tactic(auto)]

mod bytes;
mod command;
mod draft;
mod error;
mod escape;
mod head;
mod line;
mod number;
mod path;
mod read;
mod script;
mod split;
mod step;
mod words;

pub use error::{LineKind, ScriptError};
pub use read::read_script;
pub use script::{Form, Script};
