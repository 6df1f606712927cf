// The words of a plan: the limits, the layout of the plan and of the state that is lent beside it,
// and an item's number. What the words hold stands in specs/Layout.antt, when they are in form in
// specs/Form.antt.
#![tactic(auto)]

pub mod code;
pub mod layout;
pub mod limits;
pub mod refusal;
pub mod state;
pub mod words;
