// What a lent plan answers of its graph stands in specs/Answers.antt, and the laws of items and
// edges that code rests on in proofs/. The item table is made in `items`, edges are found in `walk`.
#![tactic(auto)]

pub mod items;

// A number, with refusal 0; or a refusal, and then the number is 0.
#[repr(C)]
#[derive(Clone, Copy)]
pub struct Number {
    pub refusal: u64,
    pub number: u64,
}
