// Chains lowered over tables of layouts: a struct part and an array part hand the walk to each other (try_lower_access_chain of lower.rs).
#![tactic(auto)]

ghost use Rattle.std.specs.Prelude.{◌≡◌, [], ◌∷◌, ◌+◌, length, None};
ghost use Rattle.lower.specs.Steps.{flush};
ghost use Rattle.moves.specs.Written.{Wrote, before, in_room_behind};
ghost use Rattle.chain.specs.Chains.{Within, Few, Ran, on_from, chain_of, room_of};

use arith::refusal::Refusal;
use lower::QPtrOp;
use moves::Move;
use places::Place;
use shapes::tables::Layouts;

// How far a walk gets without a step: it ends, this offset waiting; or it gives a step behind what waits, and goes on from there.
#[derive(Clone, Copy, Debug, PartialEq, Eq, Hash)]
pub enum Run {
    Ended(Option<i32>),
    Gives {
        waiting: Option<i32>,
        place: Place,
        step: QPtrOp,
        at: usize,
    },
}

// From a place on, fields and constant elements are no more than offsets that wait. That the place is within the chain is required here and of both parts:
// each cuts the chain there, or hands the place on.
fn go_on(
    layouts: &Layouts<'_>,
    chain: &[u32],
    from: usize,
    l: Place,
    p: Option<i32>,
) -> Result<Run, Refusal>
    requires { Within from (length chain.now) }
    ensures { Ran layouts.now.rows.now layouts.now.offsets.now layouts.now.members.now layouts.now.count chain.now from l p result }
{
    let mut u = l;
    let mut q = p;
    for (k, index) in chain[from..].chunks_exact(2).enumerate() {
        // the place is told where a step is given
        let at = from + 2 * k;
        let i = spirv::index_of(index[0], index[1]);
        match moves::next_move(layouts, u, i, q)? {
            Move::Onward(v, w) => {
                u = v;
                q = w;
            }
            Move::Emit(v, s) => {
                return Ok(Run::Gives {
                    waiting: q,
                    place: v,
                    step: s,
                    at: at + 2,
                });
            }
            Move::Inside(c) => {
                return Ok(Run::Gives {
                    waiting: q,
                    place: Place::Memory(c),
                    step: QPtrOp::BufferData,
                    at,
                });
            }
        }
    }
    Ok(Run::Ended(q))
}

// The two parts take all that a walk has: the tables, the chain and a place in it, which only grows and stays within it, what waits, and the five lists of
// document 01's covered form, lent apart, as of lists written through a struct of `&mut` nothing is known afterwards.

// The struct part: fields, and elements at constant places, which are as fields are. It hands an index that gives a step to the array part.
#[cycle(array_part_struct_part)]
fn struct_part(
    layouts: &Layouts<'_>,
    chain: &[u32],
    from: usize,
    l: Place,
    p: Option<i32>,
    n: usize,
    room: usize,
    kinds: &mut [u32],
    bytes: &mut [u32],
    bounds: &mut [u32],
    marks: &mut [u32],
    indices: &mut [u32],
) -> Result<usize, Refusal>
    requires { Within from (length chain.now) × Few n (length chain.now) from l }
    ensures { Wrote n (in_room_behind room n (on_from layouts.now.rows.now layouts.now.offsets.now layouts.now.members.now layouts.now.count chain.now from l p)) result kinds.old bytes.old bounds.old marks.old indices.old kinds.new bytes.new bounds.new marks.new indices.new }
{
    match go_on(layouts, chain, from, l, p)? {
        Run::Ended(q) => moves::finish(q, n, room, kinds, bytes, bounds, marks, indices),
        Run::Gives {
            waiting,
            place,
            step,
            at,
        } => array_part(
            layouts, chain, at, place, waiting, step, n, room, kinds, bytes, bounds, marks, indices,
        ),
    }
}

// The array part: what waits and a step, stored once the struct part has answered for the indices left.
#[cycle(array_part_struct_part)]
fn array_part(
    layouts: &Layouts<'_>,
    chain: &[u32],
    at: usize,
    l: Place,
    p: Option<i32>,
    s: QPtrOp,
    n: usize,
    room: usize,
    kinds: &mut [u32],
    bytes: &mut [u32],
    bounds: &mut [u32],
    marks: &mut [u32],
    indices: &mut [u32],
) -> Result<usize, Refusal>
    requires { Within at (length chain.now) × Few (n + 2) (length chain.now) at l }
    ensures { Wrote n (in_room_behind room n (before (flush p (s ∷ [])) (on_from layouts.now.rows.now layouts.now.offsets.now layouts.now.members.now layouts.now.count chain.now at l None))) result kinds.old bytes.old bounds.old marks.old indices.old kinds.new bytes.new bounds.new marks.new indices.new }
{
    let next = moves::after(p, n) + 1;
    let r = struct_part(
        layouts, chain, at, l, None, next, room, kinds, bytes, bounds, marks, indices,
    );
    moves::prefix(r, p, s, n, kinds, bytes, bounds, marks, indices)
}

// The words of the indices that a chain may have: 255, each two words.
pub const MAX_WORDS: usize = 510;

// A chain of at most so many words, from a place on: its steps in the five lists, or the refusal and the lists as they were.
pub fn lower_from(
    layouts: &Layouts<'_>,
    chain: &[u32],
    l: Place,
    kinds: &mut [u32],
    bytes: &mut [u32],
    bounds: &mut [u32],
    marks: &mut [u32],
    indices: &mut [u32],
) -> Result<usize, Refusal>
    ensures { Wrote 0 (chain_of (room_of kinds.old bytes.old bounds.old marks.old indices.old) layouts.now.rows.now layouts.now.offsets.now layouts.now.members.now layouts.now.count l chain.now) result kinds.old bytes.old bounds.old marks.old indices.old kinds.new bytes.new bounds.new marks.new indices.new }
{
    if MAX_WORDS < chain.len() {
        return Err(Refusal::OVERSIZE);
    }
    let room = kinds
        .len()
        .min(bytes.len())
        .min(bounds.len())
        .min(marks.len())
        .min(indices.len());
    struct_part(
        layouts, chain, 0, l, None, 0, room, kinds, bytes, bounds, marks, indices,
    )
}
