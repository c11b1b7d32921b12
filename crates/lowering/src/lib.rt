// Chains lowered from a pointer's type, over tables of types and layouts (try_lower_access_chain of lower.rs).
#![tactic(auto)]

ghost use Rattle.std.specs.Prelude.{◌≡◌};
ghost use Rattle.shapes.specs.Spans.{answer_by};
ghost use Rattle.shapes.specs.Rows.{answer_at};
ghost use Rattle.layout.specs.Layouts.{runtime_array_by};
ghost use Rattle.lower.specs.Chain.{start_layout};
ghost use Rattle.moves.specs.Written.{Wrote};
ghost use Rattle.chain.specs.Chains.{room_of};
ghost use Rattle.pointers.specs.OverTables.{pointee_at, start_by, chain_over};
ghost use Rattle.lowering.specs.Starts.{Starts};

use arith::refusal::Refusal;
use places::Place;
use shapes::tables::Tables;
use spirv::ChainOp;

// 67 and 70 start from an undecorated runtime array of the pointee.
fn start_array(tables: &Tables<'_>, t: u32) -> Result<Place, Refusal>
    ensures { Starts result (λ f. runtime_array_by tables.now.cfg (λ u. answer_by f (answer_at tables.now.layouts.rows.now tables.now.layouts.count u)) t) }
{
    let a = tables.layouts.answer_at(t);
    places::found_of(rules::runtime_array(tables.cfg, t, a))
}

// 65 and 66 start from the pointee.
fn start_place(tables: &Tables<'_>, op: ChainOp, t: u32) -> Result<Place, Refusal>
    ensures { Starts result (λ f. start_layout tables.now.cfg (λ u. answer_by f (answer_at tables.now.layouts.rows.now tables.now.layouts.count u)) op t) }
{
    match op {
        ChainOp::AccessChain | ChainOp::InBoundsAccessChain => {
            places::place_at(&tables.layouts, t)
        }
        ChainOp::PtrAccessChain | ChainOp::InBoundsPtrAccessChain => start_array(tables, t),
    }
}

// What a chain starts from, by its pointer.
fn start_at(tables: &Tables<'_>, op: ChainOp, ptr: u32) -> Result<Place, Refusal>
    ensures { Starts result (λ f. start_by tables.now.cfg (pointee_at tables.now.types.now tables.now.layouts.count) (λ u. answer_by f (answer_at tables.now.layouts.rows.now tables.now.layouts.count u)) op ptr) }
{
    let t = pointers::pointee_at(tables, ptr)?;
    start_place(tables, op, t)
}

// The steps of a chain into the five lists, or the refusal and the lists as they were. They are document 01's covered form, lent apart.
pub fn lower_access_chain(
    tables: &Tables<'_>,
    op: ChainOp,
    ptr: u32,
    chain: &[u32],
    kinds: &mut [u32],
    bytes: &mut [u32],
    bounds: &mut [u32],
    marks: &mut [u32],
    indices: &mut [u32],
) -> Result<usize, Refusal>
    ensures { Wrote 0 (chain_over (room_of kinds.old bytes.old bounds.old marks.old indices.old) tables.now.cfg tables.now.layouts.count tables.now.types.now tables.now.layouts.rows.now tables.now.layouts.offsets.now tables.now.layouts.members.now op ptr chain.now) result kinds.old bytes.old bounds.old marks.old indices.old kinds.new bytes.new bounds.new marks.new indices.new }
{
    // both are tested again below: 1 and 2 come before what the pointer's type is refused by
    let n = tables.layouts.count;
    if n <= ptr {
        return Err(Refusal::MISREAD);
    }
    if chain::MAX_WORDS < chain.len() {
        return Err(Refusal::OVERSIZE);
    }
    let l = start_at(tables, op, ptr)?;
    chain::lower_from(
        &tables.layouts,
        chain,
        l,
        kinds,
        bytes,
        bounds,
        marks,
        indices,
    )
}
