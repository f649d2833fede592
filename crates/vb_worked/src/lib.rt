// Outside examples of operations and of scripts: what the public calls of vb_tree and vb_script answer.
#![tactic(auto)]

#[cfg(test)]
mod script_tests;
#[cfg(test)]
mod tree_tests;
