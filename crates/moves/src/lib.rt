// One index of a chain over tables of layouts, and steps stored on the way back (try_lower_access_chain of lower.rs).
#![tactic(auto)]

ghost use Rattle.std.specs.Prelude.{◌≡◌, ◌≤◌, [], Ok};
ghost use Rattle.arith.specs.Refusals.{ok};
ghost use Rattle.shapes.specs.Rows.{answer_at};
ghost use Rattle.lower.specs.Steps.{flush, merged};
ghost use Rattle.moves.specs.Moves.{onward, to_element, arrived, field_by, field_way, part_way, way_of, move_of};
ghost use Rattle.moves.specs.Written.{Wrote, Prefixed, in_room_behind, after_of};

use arith::refusal::Refusal;
use lower::QPtrOp;
use places::Place;
use shapes::Components;
use shapes::tables::Layouts;
use spirv::Index;

// How a part is reached: an element by its index, a field by its offset, which then waits.
#[derive(Clone, Copy, Debug, PartialEq, Eq, Hash)]
pub enum By {
    Element { stride: u32, len: u32 },
    Field(Option<i32>),
}

// Where an index leads, whatever the layout is there: to a part of a type; to a handle of an array; into a buffer.
#[derive(Clone, Copy, Debug, PartialEq, Eq, Hash)]
pub enum Way {
    Part { ty: u32, by: By },
    Give(Place),
    Enter(Components),
}

// What a way comes to once its part's place is known: on to a place, this offset waiting; on to it behind a step; into a buffer, the index still to be used.
#[derive(Clone, Copy, Debug, PartialEq, Eq, Hash)]
pub enum Move {
    Onward(Place, Option<i32>),
    Emit(Place, QPtrOp),
    Inside(Components),
}

// ---- one index

// On to a place by an offset.
fn onward_by(u: Place, p: Option<i32>, z: i32) -> Result<Move, Refusal>
    ensures { result ≡ onward u (merged p z) }
{
    let q = lower::merge(p, z)?;
    Ok(Move::Onward(u, q))
}

fn to_element(stride: u32, len: u32, i: Index, p: Option<i32>, u: Place) -> Result<Move, Refusal>
    ensures { result ≡ to_element stride len i p u }
{
    match lower::constant_offset(stride, len, i) {
        Some(z) => onward_by(u, p, z),
        None => Ok(Move::Emit(
            u,
            QPtrOp::DynOffset {
                stride,
                bound: lower::bound_of(len),
                index: i,
            },
        )),
    }
}

// On to a part once its place is known.
fn arrive(by: By, i: Index, p: Option<i32>, u: Place) -> Result<Move, Refusal>
    ensures { result ≡ arrived by i p (Ok u) }
{
    match by {
        By::Element { stride, len } => to_element(stride, len, i, p, u),
        By::Field(q) => Ok(Move::Onward(u, q)),
    }
}

// ---- a field

// To a field of a type, by its offset.
#[tactic(auto, unfolding(crate::specs::Moves::field_by))]
fn field_by(offset: u32, ty: u32, p: Option<i32>) -> Result<Way, Refusal>
    ensures { result ≡ field_by offset ty p }
{
    let z = i32::try_from(offset).ok().ok_or(Refusal::FAR_FIELD)?;
    let q = lower::merge(p, z)?;
    Ok(Way::Part {
        ty,
        by: By::Field(q),
    })
}

// Where an index leads inside a struct whose fields are these, spans of two lists of the tables that C lends; a word above 2147483647 is a negative number.
#[tactic(auto, using(lower::proofs::Fields::word_negative, lower::proofs::Fields::word_past_offsets, lower::proofs::Fields::word_past_types, lower::proofs::Fields::word_there), unfolding(crate::specs::Moves::field_way))]
fn field_way(offsets: &[u32], types: &[u32], i: Index, p: Option<i32>) -> Result<Way, Refusal>
    ensures { result ≡ field_way offsets.now types.now i p }
{
    let Index::Known(w) = i else {
        return Err(Refusal::UNKNOWN_FIELD);
    };
    if i32::try_from(w).is_err() {
        return Err(Refusal::FIELD_OUTSIDE);
    }
    // no `From`: a word fits
    let at = w as usize;
    let offset = offsets.get(at).ok_or(Refusal::FIELD_OUTSIDE)?;
    let ty = types.get(at).ok_or(Refusal::FIELD_OUTSIDE)?;
    field_by(*offset, *ty, p)
}

// ---- any index

fn part_way(layouts: &Layouts<'_>, c: Components, i: Index, p: Option<i32>) -> Result<Way, Refusal>
    ensures { result ≡ part_way layouts.now.offsets.now layouts.now.members.now c i p }
{
    match c {
        Components::Scalar => Err(Refusal::NO_PARTS),
        Components::Elements {
            stride,
            elem,
            fixed_len,
        } => Ok(Way::Part {
            ty: elem,
            by: By::Element {
                stride,
                len: fixed_len,
            },
        }),
        Components::Fields { start, count } => {
            let os = shapes::rows::span(layouts.offsets, start, count);
            let ts = shapes::rows::span(layouts.members, start, count);
            field_way(os, ts, i, p)
        }
    }
}

fn way_of(layouts: &Layouts<'_>, l: Place, i: Index, p: Option<i32>) -> Result<Way, Refusal>
    ensures { result ≡ way_of layouts.now.offsets.now layouts.now.members.now l i p }
{
    match l {
        Place::Memory(c) => part_way(layouts, c, i, p),
        Place::Buffer(c) => Ok(Way::Enter(c)),
        Place::Buffers(c) => Ok(Way::Give(Place::Buffer(c))),
        Place::Opaque => Err(Refusal::NO_PARTS),
        Place::Opaques => Ok(Way::Give(Place::Opaque)),
    }
}

// Where an index leads from a place.
#[tactic(auto, unfolding(crate::specs::Moves::move_of))]
pub fn next_move(layouts: &Layouts<'_>, l: Place, i: Index, p: Option<i32>) -> Result<Move, Refusal>
    ensures { result ≡ move_of (answer_at layouts.now.rows.now layouts.now.count) layouts.now.offsets.now layouts.now.members.now l i p }
{
    match way_of(layouts, l, i, p)? {
        Way::Part { ty, by } => {
            let u = places::place_at(layouts, ty)?;
            arrive(by, i, p, u)
        }
        Way::Give(u) => Ok(Move::Emit(u, QPtrOp::HandleArrayIndex { index: i })),
        Way::Enter(c) => Ok(Move::Inside(c)),
    }
}

// ---- steps in the lists

// The five lists are document 01's covered form, parallel number slices; lent apart, as of lists written through a struct of `&mut` nothing is known afterwards.
// No chain has 4,096 steps: with that n + 1 fits.

// How many steps there are once what waits is one.
pub fn after(p: Option<i32>, n: usize) -> usize
    requires { n ≤ 4096 }
    ensures { result ≡ after_of p n }
{
    match p {
        None => n,
        Some(_) => n + 1,
    }
}

// What waits and a step, stored before the steps of a walk, unless it is refused: the walk comes back first, and its answer goes on.
pub fn prefix(
    r: Result<usize, Refusal>,
    p: Option<i32>,
    s: QPtrOp,
    n: usize,
    kinds: &mut [u32],
    bytes: &mut [u32],
    bounds: &mut [u32],
    marks: &mut [u32],
    indices: &mut [u32],
) -> Result<usize, Refusal>
    requires { n ≤ 4096 }
    ensures { Prefixed r p s n result kinds.old bytes.old bounds.old marks.old indices.old kinds.new bytes.new bounds.new marks.new indices.new }
{
    let total = r?;
    match p {
        None => steps::store(s, n, kinds, bytes, bounds, marks, indices),
        Some(z) => {
            steps::store(s, n + 1, kinds, bytes, bounds, marks, indices);
            steps::store(QPtrOp::Offset(z), n, kinds, bytes, bounds, marks, indices);
        }
    }
    Ok(total)
}

// The end of a chain: what waits is the last step.
pub fn finish(
    p: Option<i32>,
    n: usize,
    room: usize,
    kinds: &mut [u32],
    bytes: &mut [u32],
    bounds: &mut [u32],
    marks: &mut [u32],
    indices: &mut [u32],
) -> Result<usize, Refusal>
    requires { n ≤ 4096 }
    ensures { Wrote n (in_room_behind room n (ok (flush p []))) result kinds.old bytes.old bounds.old marks.old indices.old kinds.new bytes.new bounds.new marks.new indices.new }
{
    let count = after(p, n);
    if room < count {
        return Err(Refusal::SHORT_LIST);
    }
    if let Some(z) = p {
        steps::store(QPtrOp::Offset(z), n, kinds, bytes, bounds, marks, indices);
    }
    Ok(count)
}
