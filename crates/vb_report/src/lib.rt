// What is printed of a history and of a published view.
#![tactic(auto)]

mod line;
mod report;

pub use report::Report;

#[cfg(test)]
mod tests;
