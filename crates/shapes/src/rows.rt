// A table of layouts: a row of ten words a type.
ghost use Rattle.std.specs.Prelude.{◌≡◌, ◌*◌, take, drop};
ghost use Rattle.std.proofs.lemmas.List.Edits.{sets};
ghost use Rattle.shapes.specs.Words.{encode};
ghost use Rattle.shapes.specs.Rows.{row_at, answer_at};

use crate::{TypeLayout, words};
use arith::lists;
use arith::refusal::Refusal;

// Row i of a table; one that the table lacks is refused with 1. Inlined, as all that answers is: callers take a layout apart at once, and it would be stored between.
#[tactic(auto, using(crate::proofs::RowLaws::row_missing), unfolding(crate::specs::Rows::row_at))]
#[inline(always)]
pub fn read_row(table: &[u32], i: u32) -> Result<TypeLayout, Refusal>
    ensures { result ≡ row_at table.now i }
{
    let row = lists::row::<u32, 10>(table, i).ok_or(Refusal::MISREAD)?;
    words::answer(row)
}

// Row i of a table, written; what lies past the table's end is left out.
pub fn write_row(table: &mut [u32], i: u32, a: Result<TypeLayout, Refusal>)
    ensures { table.new ≡ sets table.old (10 * i) (encode a) }
{
    let ws = words::words(a);
    lists::put_row(table, i, &ws);
}

// The answer of type t, of the first n types; a number that is not below n is refused with 1.
#[tactic(auto, unfolding(crate::specs::Rows::answer_at))]
#[inline(always)]
pub fn answer_at(layouts: &[u32], n: u32, t: u32) -> Result<TypeLayout, Refusal>
    ensures { result ≡ answer_at layouts.now n t }
{
    if t < n {
        read_row(layouts, t)
    } else {
        Err(Refusal::MISREAD)
    }
}

// The part of a list from start on, at most count long: the fields of a span that runs past the list's end are those that are there. `as usize` widens,
// and has no `From`.
pub fn span(list: &[u32], start: u32, count: u32) -> &[u32]
    ensures { result.now ≡ take count (drop start list.now) }
{
    let from = list.len().min(start as usize);
    let rest = &list[from..];
    &rest[..rest.len().min(count as usize)]
}
