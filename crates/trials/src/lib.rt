#![tactic(auto)]

// Tests, and nothing else: texts that are no script, where each gets its line and what was expected there; and what the
// arrays hold where figures vanish.
#[cfg(test)]
mod scripts;
#[cfg(test)]
mod vanishing;
