// What happened to a folder: the entries of its history, and what makes a history legal.
#![tactic(auto)]

mod after_cuts;
mod entry;
mod examples;
mod freezes;
mod going_on;
mod history;
mod laws;
mod marks;
mod pages;
mod publications;
mod script;
mod survival;

pub use after_cuts::{doubts_after_a_cut, marks_after_a_cut};
pub use entry::{Entry, Stage};
pub use examples::histories_worked_by_hand;
pub use freezes::{earlier_freezes_outlive_a_cut, surviving_freezes_rise};
pub use going_on::{cut_histories_make_openings, histories_go_on};
pub use history::History;
pub use laws::{history_without_cut_survives, legal_histories_grow, writers_entries_are_lines};
pub use marks::Marks;
pub use pages::held_pages_stay_apart;
pub use publications::{publications_extend, surviving_fronts_were_whole};
pub use script::{Line, Lines, Scripts, WriterScript};
pub use survival::{front_len, surviving_entries, surviving_with};

#[cfg(test)]
mod tests;
