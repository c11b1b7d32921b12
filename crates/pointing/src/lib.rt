// The answer lines of C, L and X over tables of types and layouts, printed into a lent slice at a place, as the crate `text` prints.
#![tactic(auto)]

ghost use Rattle.std.specs.Prelude.{◌≡◌, List, ℕ, ◌*◌, min};
ghost use Rattle.text.specs.Printed.{Printed};
ghost use Rattle.answers.specs.Output.{text_of};
ghost use Rattle.moves.specs.Moves.{indices_in};
ghost use Rattle.pointing.specs.Pointing.{chain_words, chain_reply, length_reply, variable_reply};

use pointers::ArrayLength;
use shapes::tables::Tables;
use spirv::ChainOp;
use steps::Steps;

// The indices that a chain may have: tally's MAX_INDICES, but no reader of sheets stands below this crate.
const MAX_INDICES: usize = chain::MAX_WORDS / 2;

// The steps that a chain may have.
const MAX_STEPS: usize = MAX_INDICES + 1;

fn words_of(count: usize) -> u32
    ensures { result ≡ min (2 * count) 510 }
{
    // no From: a usize may be wider; the check proves that what is cast, at most 255, fits
    2 * count.min(MAX_INDICES) as u32
}

// ---- the answer's line, or its refusal's: two arms each time; with one function over them, which takes the line as a closure, proofs that the check finds have to be written (tried)

// C, with room for that many steps; `count` indices stand in front of the list. Seven parameters: C's three words are fields of a variant of `Ask`, which is no type to hand on. A count and a list, and no slice: the caller's list has room for the longest chain, and is cut here, once.
pub fn chain_line(
    tables: &Tables<'_>,
    op: ChainOp,
    ptr: u32,
    count: usize,
    list: &[u32],
    out: &mut [u8],
    at: usize,
) -> usize
    ensures { Printed (text_of (chain_reply tables.now.layouts.count tables.now.types.now tables.now.layouts.rows.now tables.now.layouts.offsets.now tables.now.layouts.members.now tables.now.cfg op ptr (indices_in (chain_words count list.now)))) out.old at result out.new }
{
    let chain = shapes::rows::span(list, 0, words_of(count));
    // lent apart, as `steps::store` takes them; in `tabled`, too: in a struct that one function makes for both, nothing would be known of them after the call
    let mut kinds = [0u32; MAX_STEPS];
    let mut bytes = [0u32; MAX_STEPS];
    let mut bounds = [0u32; MAX_STEPS];
    let mut marks = [0u32; MAX_STEPS];
    let mut indices = [0u32; MAX_STEPS];
    match lowering::lower_access_chain(
        tables,
        op,
        ptr,
        chain,
        &mut kinds,
        &mut bytes,
        &mut bounds,
        &mut marks,
        &mut indices,
    ) {
        Ok(k) => {
            let steps = Steps {
                kinds: &kinds,
                bytes: &bytes,
                bounds: &bounds,
                marks: &marks,
                indices: &indices,
            };
            printing::chain_line(out, at, &steps, k)
        }
        Err(e) => printing::refusal_line(out, at, e),
    }
}

// L.
#[tactic(auto, unfolding(arith::proofs::Opened::opened))]
pub fn length_line(tables: &Tables<'_>, ptr: u32, member: u32, out: &mut [u8], at: usize) -> usize
    ensures { Printed (text_of (length_reply tables.now.layouts.count tables.now.types.now tables.now.layouts.rows.now tables.now.layouts.offsets.now tables.now.layouts.members.now ptr member)) out.old at result out.new }
{
    match pointers::array_length(tables, ptr, member) {
        Ok(ArrayLength { offset, stride }) => printing::length_line(out, at, offset, stride),
        Err(e) => printing::refusal_line(out, at, e),
    }
}

// X. No line shows fields, so it is the same for any offsets and members.
pub fn variable_line(tables: &Tables<'_>, ptr: u32, out: &mut [u8], at: usize) -> usize
    ensures { (offsets members : List ℕ) → Printed (text_of (variable_reply tables.now.layouts.count tables.now.types.now tables.now.layouts.rows.now offsets members ptr)) out.old at result out.new }
{
    match pointers::local_variable(tables, ptr) {
        Ok(m) => printing::variable_line(out, at, m),
        Err(e) => printing::refusal_line(out, at, e),
    }
}
