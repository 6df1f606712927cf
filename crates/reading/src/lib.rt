// A text to a plan's words or to a refusal: definitions and their laws. The crate has no code.
#![tactic(auto)]
