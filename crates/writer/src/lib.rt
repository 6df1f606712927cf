// A plan written back as text (specs/Answer.antt): what reading it again leaves is the same plan.
#![tactic(auto)]

ghost use Rattle.std.specs.Prelude.{◌≡◌, true, leb, length};
ghost use Rattle.plan.specs.Form.{in_form};
ghost use Rattle.plan.specs.Layout.{plan_words};
ghost use Rattle.reading.specs.Written.{text_of};
ghost use Rattle.writer.specs.Answer.{WriteAnswer};
ghost use Rattle.writer.specs.Steps.{answer_of};

mod lengths;
mod lines;

use form::in_form;
use graph::Number;
use lengths::text_length;
use lines::put_text;
use plan::layout::PLAN_WORDS;
use plan::refusal::Refusal;
use plan::state::TEXT_BYTES;
use plan::words::Plan;

// Whether the text of a plan in form has at most so many bytes. It is measured only where not every
// text is that short. (A lent slice, not a Plan: that each word is a u64 bounds the text.)
fn has_room(words: &[u64], room: usize) -> bool
    requires { (length words.now ≡ plan_words) × (in_form words.now ≡ true) }
    ensures { result ≡ leb (length (text_of words.now)) room }
{
    if TEXT_BYTES <= room {
        return true;
    }
    text_length(&Plan::new(words)) <= room
}

// Writes a plan into a lent text, and answers the text's length.
fn write_plan(plan: &[u64], text: &mut [u8]) -> Result<u64, Refusal>
    ensures { WriteAnswer plan.now text.old (answer_of result) text.new }
{
    if plan.len() < PLAN_WORDS {
        return Err(Refusal::TooShort);
    }
    let words = &plan[..PLAN_WORDS];
    if !in_form(words) {
        return Err(Refusal::OutOfForm);
    }
    if !has_room(words, text.len()) {
        return Err(Refusal::NoRoom);
    }
    Ok(put_text(text, &Plan::new(words)) as u64)
}

// Writes a lent plan into a lent text.
pub fn write(plan: &[u64], text: &mut [u8]) -> Number
    ensures { WriteAnswer plan.now text.old result text.new }
{
    match write_plan(plan, text) {
        Ok(number) => Number { refusal: 0, number },
        Err(refusal) => Number {
            refusal: u64::from(refusal),
            number: 0,
        },
    }
}
