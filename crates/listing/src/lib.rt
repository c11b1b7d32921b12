// The answer lines of a sheet's questions, one behind the other, over the tables of the sheet: all of them at a place, or as many whole lines as
// fit a buffer.
#![tactic(auto)]

ghost use Rattle.std.specs.Prelude.{◌≡◌};
ghost use Rattle.text.specs.Printed.{Printed};
ghost use Rattle.answering.specs.OfTables.{source};
ghost use Rattle.listing.specs.Listing.{lines_from, filled_with, Fills};

use shapes::tables::Tables;

// The lines of the questions from a place of the sheet on, printed as the crate `text` prints. No iterator, here and in `fill`: each question's indices are read into the same list. That list is never short
// for a sheet that was read; of another the lines end where a question has more indices, as the definition says. `fill` has this loop again, but stops where a
// line doesn't fit: here all lines are counted, since `gathering` asks how long they are.
pub fn put_answers(
    sheet: &[u8],
    from: usize,
    tables: &Tables<'_>,
    out: &mut [u8],
    at: usize,
) -> usize
    ensures { Printed (lines_from (source tables.now) sheet.now from) out.old at result out.new }
{
    let mut list = [0u32; chain::MAX_WORDS];
    let mut place = from;
    let mut p = at;
    while let Some(q) = asking::next_question(sheet, place, &mut list).unwrap_or(None) {
        p = answering::put_answer(tables, q.ask, &list, out, p);
        place = q.next;
    }
    p
}

// What a buffer was filled with: so many bytes, which are whole lines. Where there are more, the next one, of the question at or behind the place
// `next`, doesn't fit behind them. No Option of a place: in both cases the questions that are left begin at `next`.
#[derive(Clone, Copy)]
pub struct Filled {
    pub next: usize,
    pub bytes: usize,
    pub more: bool,
}

// A literal would take five lines at each of two places.
fn with(next: usize, bytes: usize, more: bool) -> Filled
    ensures { result ≡ filled_with next bytes more }
{
    Filled { next, bytes, more }
}

// As many lines of the questions from a place of the sheet on as fit the buffer whole.
pub fn fill(sheet: &[u8], from: usize, tables: &Tables<'_>, out: &mut [u8]) -> Filled
    ensures { Fills (source tables.now) sheet.now from result out.old out.new }
{
    let mut list = [0u32; chain::MAX_WORDS];
    let mut next = from;
    let mut bytes = 0;
    while let Some(q) = asking::next_question(sheet, next, &mut list).unwrap_or(None) {
        let end = answering::put_answer(tables, q.ask, &list, out, bytes);
        if out.len() < end {
            return with(next, bytes, true);
        }
        bytes = end;
        next = q.next;
    }
    with(next, bytes, false)
}
