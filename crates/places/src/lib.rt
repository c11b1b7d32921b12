// What a walk needs of a layout, read from its row without sizes and alignments.
#![tactic(auto)]

ghost use Rattle.std.specs.Prelude.{◌≡◌};
ghost use Rattle.shapes.specs.Words.{decode};
ghost use Rattle.shapes.specs.Rows.{answer_at};
ghost use Rattle.places.specs.Places.{place_of, found_of, Made, Named};

use arith::lists;
use arith::refusal::Refusal;
use shapes::tables::Layouts;
use shapes::{Components, Handle, TypeLayout};

// Memory by its parts, a buffer or an array of buffers by those of its contents, an opaque handle, an array of these.
#[derive(Clone, Copy, Debug, PartialEq, Eq, Hash)]
pub enum Place {
    Memory(Components),
    Buffer(Components),
    Buffers(Components),
    Opaque,
    Opaques,
}

pub fn place_of(l: TypeLayout) -> Place
    ensures { result ≡ place_of l }
{
    match l {
        TypeLayout::Handle(Handle::Opaque) => Place::Opaque,
        TypeLayout::Handle(Handle::Buffer(m)) => Place::Buffer(m.components),
        TypeLayout::HandleArray(Handle::Opaque, _) => Place::Opaques,
        TypeLayout::HandleArray(Handle::Buffer(m), _) => Place::Buffers(m.components),
        TypeLayout::Concrete(m) => Place::Memory(m.components),
    }
}

// The place of what a type answers, or the refusal of its layout. One call of map, and named, since it is public and lowering's contracts go by it.
pub fn found_of(a: Result<TypeLayout, Refusal>) -> Result<Place, Refusal>
    ensures { result ≡ found_of a }
{
    a.map(place_of)
}

// ---- a row

// Below, rows of memory and of one buffer are known by their words, and all others are decoded by shapes: a walk needs no sizes and no alignments, and
// to decode each row whole took longer (docs/CHANGES.md, 6 of 8).

// The place that a row's words hold, by its layout.
fn by_layout(ws: &[u32]) -> Result<Place, Refusal>
    ensures { result ≡ found_of (decode ws.now) }
{
    found_of(shapes::words::answer(ws))
}

// The parts of a row of memory or of one buffer, which are three words and their kind; none where the words are of another row.
// The kind, and the tag below, stay numbers: they are words of a row that C lends, and C may store any word there.
#[tactic(auto, using(crate::proofs::Rows::of_elements_lem, crate::proofs::Rows::of_fields, crate::proofs::Rows::of_scalar))]
fn of_kind(ws: &[u32; 10]) -> Option<Components>
    ensures { Named ws.now result }
{
    match (ws[1], ws[2], ws[7], ws[8], ws[9]) {
        (0, 1, 0, 0, 0) => Some(Components::Scalar),
        (0, 2, stride, elem, fixed_len) => Some(Components::Elements {
            stride,
            elem,
            fixed_len,
        }),
        (0, 3, start, count, 0) => Some(Components::Fields { start, count }),
        _ => None,
    }
}

// The place of a row that is made of these parts: tag 3 is memory, 1 a buffer.
#[tactic(auto, using(crate::proofs::Rows::of_memory, crate::proofs::Rows::of_buffer))]
fn of_tag(ws: &[u32; 10], c: Components) -> Result<Place, Refusal>
    requires { Made ws.now c }
    ensures { result ≡ found_of (decode ws.now) }
{
    match ws[0] {
        3 => Ok(Place::Memory(c)),
        1 => Ok(Place::Buffer(c)),
        _ => by_layout(ws),
    }
}

// The place that a row's words hold, memory and buffers by their parts alone.
fn by_parts(ws: &[u32; 10]) -> Result<Place, Refusal>
    ensures { result ≡ found_of (decode ws.now) }
{
    match of_kind(ws) {
        Some(c) => of_tag(ws, c),
        None => by_layout(ws),
    }
}

// The place of type t. Its two lines are those of pointers::pointee_at, at another width: one function for both would need a contract that says of
// which two kinds a refusal is, past the count or past the list, for each caller to take apart again.
#[tactic(auto, using(shapes::proofs::RowLaws::row_missing), unfolding(shapes::specs::Rows::answer_at, shapes::specs::Rows::row_at))]
pub fn place_at(layouts: &Layouts<'_>, t: u32) -> Result<Place, Refusal>
    ensures { result ≡ found_of (answer_at layouts.now.rows.now layouts.now.count t) }
{
    if layouts.count <= t {
        return Err(Refusal::MISREAD);
    }
    by_parts(lists::row(layouts.rows, t).ok_or(Refusal::MISREAD)?)
}
