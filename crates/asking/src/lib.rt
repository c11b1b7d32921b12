// The questions of a sheet that was read, one after another, each from the place behind the last.
#![tactic(auto)]

ghost use Rattle.sheet.specs.Grammar.{read_line};
ghost use Rattle.asking.specs.Questions.{any_type, Finds, Hands, Steps};

use arith::refusal::Refusal;
use lines::{Ask, SheetLine};

// A question, and the place behind its line.
#[derive(Clone, Copy, Debug, PartialEq, Eq, Hash)]
pub struct Question {
    pub ask: Ask,
    pub next: usize,
}

// What a line asks, and where its indices stand.
fn question_in(line: &[u8]) -> Option<(Ask, usize)>
    ensures { Finds line.now result (read_line any_type line.now) }
{
    match lines::read_line(line, u32::MAX) {
        Some(SheetLine::Asked { ask, at }) => Some((ask, at)),
        _ => None,
    }
}

// A question with its indices written, two words each; 24 where the list is too short for them. `at` is a place in the line and `next` one in the sheet:
// a struct of both would be made once, and taken apart here.
fn hand(
    line: &[u8],
    ask: Ask,
    at: usize,
    next: usize,
    indices: &mut [u32],
) -> Result<Question, Refusal>
    ensures { Hands line.now ask at next result indices.old indices.new }
{
    if indices.len() / 2 < tally::count_of(ask) {
        return Err(Refusal::SHORT_LIST);
    }
    lines::put_indices(line, at, indices);
    Ok(Question { ask, next })
}

// The next question from a place that begins a line; none at the end.
pub fn next_question(
    sheet: &[u8],
    at: usize,
    indices: &mut [u32],
) -> Result<Option<Question>, Refusal>
    ensures { Steps sheet.now at result indices.old indices.new }
{
    let mut from = at;
    // by place, which is handed on with the question
    while let Some(line) = fields::line_at(sheet, from) {
        from += line.len() + 1;
        if let Some((ask, place)) = question_in(line) {
            return hand(line, ask, place, from, indices).map(Some);
        }
    }
    Ok(None)
}
