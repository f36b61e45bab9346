//! The public calls of the crates that read and write SIRI (json_tree, siri_calls, siri_situations), each once on its
//! happy path, as their callers call them. What they answer else is data: `library_cases` has it.
#![tactic(auto)]

#[cfg(test)]
mod of_json_tree;
#[cfg(test)]
mod of_siri_calls;
#[cfg(test)]
mod of_siri_situations;
