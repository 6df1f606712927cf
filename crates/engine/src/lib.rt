// The engine: what an accepted start and an accepted finish do by the tables of a prepared plan
// (prepared/specs/Steps.antt). It tests nothing: its callers see to it that the words which a step
// uses lie in their ranges.
#![tactic(auto)]

pub mod finishes;
pub mod freed;
pub mod lowering;
pub mod starts;
