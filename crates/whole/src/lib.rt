// A whole sheet: from its bytes to its answer lines, as the program `lay` writes them.
#![tactic(auto)]

ghost use Rattle.arith.specs.Refusals.{ok};
ghost use Rattle.text.specs.Whole.{Whole};
ghost use Rattle.answers.specs.Output.{lay_output};

use arith::refusal::Refusal;
use prepared::Ready;
use shapes::tables::{Layouts, Tables};

// All of the lines, or one refusal line for a bad sheet; 24 and nothing where they don't fit. Memory is fixed: four lists hold any sheet's tables. As `lay` has
// them: a function for both would take what writes as a closure, and its promise with it; one for the struct alone would take its five parts.
pub fn answer_sheet(sheet: &[u8], out: &mut [u8]) -> Result<usize, Refusal>
    ensures { Whole (ok (lay_output sheet.now)) out.old result out.new }
{
    let mut types = [0u32; tally::TYPE_WORDS];
    let mut members = [0u32; tally::MAX_MEMBERS];
    let mut offsets = [0u32; tally::MAX_MEMBERS];
    let mut layouts = [0u32; tally::LAYOUT_WORDS];
    match prepared::prepare(sheet, &mut types, &mut members, &mut offsets, &mut layouts) {
        Ok(Ready { cfg, n }) => {
            let layouts = Layouts {
                rows: &layouts,
                count: n,
                offsets: &offsets,
                members: &members,
            };
            let tables = Tables {
                cfg,
                types: &types,
                layouts,
            };
            gathering::put_all(sheet, 0, &tables, out)
        }
        Err(e) => fitting::put_refusal_line(out, e),
    }
}
