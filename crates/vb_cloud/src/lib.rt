// The cloud: a machine that takes messages one by one, or refuses them by name.
#![tactic(auto)]

mod cloud;
mod content;
mod draft;
mod entry;
mod laws;
mod machine;
mod object;
mod pages;
mod refusal;
mod stored;

pub use cloud::Cloud;
pub use laws::clouds_go_on;
pub use pages::page_at;
pub use refusal::CloudRefusal;

#[cfg(test)]
mod tests;
