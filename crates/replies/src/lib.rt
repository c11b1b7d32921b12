// The answer lines of T, E and Q over tables of layouts, printed into a lent slice at a place, as the crate `text` prints.
#![tactic(auto)]

ghost use Rattle.std.specs.Prelude.{◌≡◌, List, ℕ};
ghost use Rattle.text.specs.Printed.{Printed};
ghost use Rattle.answers.specs.Output.{text_of};
ghost use Rattle.replies.specs.Replies.{layout_reply, equal_reply, equal_or_refusal, components_reply};

use arith::refusal::Refusal;
use shapes::tables::Layouts;
use std::ops::Range;

// ---- the answer's line, or its refusal's: two arms each time; with one function over them, which takes the line as a closure, proofs that the check finds have to be written (tried)

// T. No line shows the types of fields, so it is the same for any members.
#[tactic(auto, unfolding(arith::proofs::Opened::opened), using(printing::proofs::Types::any_types))]
pub fn layout_line(layouts: &Layouts<'_>, t: u32, out: &mut [u8], at: usize) -> usize
    ensures { (members : List ℕ) → Printed (text_of (layout_reply layouts.now.rows.now layouts.now.count layouts.now.offsets.now members t)) out.old at result out.new }
{
    match layouts.answer_at(t) {
        Ok(l) => printing::layouts::layout_line(out, at, l, layouts.offsets),
        Err(e) => printing::refusal_line(out, at, e),
    }
}

// Whether two types have the same line, or the refusal of the first that has none.
#[tactic(auto, unfolding(arith::proofs::Opened::opened), using(printing::proofs::Types::any_types))]
fn same_lines(layouts: &Layouts<'_>, first: u32, second: u32) -> Result<bool, Refusal>
    ensures { (members : List ℕ) → equal_or_refusal result ≡ text_of (equal_reply layouts.now.rows.now layouts.now.count layouts.now.offsets.now members first second) }
{
    let a = layouts.answer_at(first)?;
    let b = layouts.answer_at(second)?;
    Ok(comparing::same_lines(a, b, layouts.offsets))
}

// E.
pub fn equal_line(
    layouts: &Layouts<'_>,
    first: u32,
    second: u32,
    out: &mut [u8],
    at: usize,
) -> usize
    ensures { (members : List ℕ) → Printed (text_of (equal_reply layouts.now.rows.now layouts.now.count layouts.now.offsets.now members first second)) out.old at result out.new }
{
    match same_lines(layouts, first, second) {
        Ok(same) => printing::equal_line(out, at, same),
        Err(e) => printing::refusal_line(out, at, e),
    }
}

// As many components as a sheet has members: tally's MAX_MEMBERS, but no reader of sheets stands below this crate.
const MAX_COMPONENTS: usize = 1_024;

// Q, with room for that many.
pub fn components_line(
    layouts: &Layouts<'_>,
    t: u32,
    range: Range<u32>,
    out: &mut [u8],
    at: usize,
) -> usize
    ensures { Printed (text_of (components_reply layouts.now.rows.now layouts.now.count layouts.now.offsets.now layouts.now.members.now t range.start range.end)) out.old at result out.new }
{
    let mut found = [0u32; MAX_COMPONENTS];
    match components::find_components_containing(layouts, t, range, &mut found) {
        Ok(count) => printing::components_line(out, at, &found[..count]),
        Err(e) => printing::refusal_line(out, at, e),
    }
}
