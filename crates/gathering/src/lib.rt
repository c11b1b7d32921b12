// All answer lines of a sheet's questions into a lent list, or none.
#![tactic(auto)]

ghost use Rattle.std.specs.Prelude.{◌≡◌};
ghost use Rattle.std.proofs.lemmas.List.Edits.{sets};
ghost use Rattle.arith.specs.Refusals.{ok};
ghost use Rattle.text.specs.Whole.{Whole};
ghost use Rattle.answering.specs.OfTables.{source};
ghost use Rattle.listing.specs.Listing.{lines_from};

use arith::refusal::Refusal;
use shapes::tables::Tables;

// The lines of the questions from a place of the sheet on, or nothing, by way of a list of our own: printing them there measures them too, and they are printed again only where that
// list doesn't hold them.
fn put_through(
    sheet: &[u8],
    from: usize,
    tables: &Tables<'_>,
    out: &mut [u8],
    own: &mut [u8],
) -> Result<usize, Refusal>
    ensures whole { Whole (ok (lines_from (source tables.now) sheet.now from)) out.old result out.new }
    ensures own_after { own.new ≡ sets own.old 0 (lines_from (source tables.now) sheet.now from) }
{
    let size = listing::put_answers(sheet, from, tables, own, 0);
    if out.len() < size {
        return Err(Refusal::SHORT_LIST);
    }
    if own.len() < size {
        listing::put_answers(sheet, from, tables, out, 0);
        return Ok(size);
    }
    text::bytes(out, 0, &own[..size]);
    Ok(size)
}

// All of these lines, or nothing. The answers of a sheet are seldom longer than the sheet twice over: the list of our own is chosen by that, in two calls, since an array's length is a constant.
pub fn put_all(
    sheet: &[u8],
    from: usize,
    tables: &Tables<'_>,
    out: &mut [u8],
) -> Result<usize, Refusal>
    ensures { Whole (ok (lines_from (source tables.now) sheet.now from)) out.old result out.new }
{
    if sheet.len() <= 4096 {
        let mut few = [0u8; 8192];
        return put_through(sheet, from, tables, out, &mut few);
    }
    let mut many = [0u8; 131072];
    put_through(sheet, from, tables, out, &mut many)
}
