// The components of a layout that hold a range of bytes (find_components_containing of layout.rs).
#![tactic(auto)]

ghost use Rattle.std.specs.Prelude.{◌≡◌, ◌||◌, ◌/◌, ◌<◌, leb, eqb, length};
ghost use Rattle.shapes.specs.Spans.{Reading, answer_by};
ghost use Rattle.shapes.specs.Rows.{answer_at};
ghost use Rattle.arith.specs.Refusals.{ok};
ghost use Rattle.layout.specs.Lookup.{size_at_index, element_holding, field_holds, memory_passes, fields_holding, size_of_part};
ghost use Rattle.arith.specs.Pairs.{both};
ghost use Rattle.components.specs.Found.{found_in, lookup_in, held_element, counted, answered_in};

use arith::refusal::Refusal;
use shapes::tables::Layouts;
use shapes::{Components, TypeLayout, rows};
use std::ops::Range;

// ---- on elements

// At index = length the element has size 0; a length 0 is none.
#[tactic(auto, unfolding(layout::specs::Lookup::size_at_index))]
fn size_at_index(index: u32, len: u32, size: u32) -> u32
    ensures { result ≡ size_at_index index len size }
{
    if len != 0 && index == len { 0 } else { size }
}

// The element that holds a range of bytes: none beyond the length, or where the element's end is below the range's or above 32 bits.
#[tactic(auto, unfolding(crate::specs::Found::held_element, layout::specs::Lookup::element_holding))]
fn element_containing(stride: u32, len: u32, size: u32, range: &Range<u32>) -> Option<u32>
    ensures { result ≡ held_element (element_holding stride len size range.now.start range.now.end) }
{
    // a stride 0, which no layout has, gives 0
    let index = range.start.checked_div(stride).unwrap_or(0);
    let last = index
        .checked_mul(stride)?
        .checked_add(size_at_index(index, len, size))?;
    ((len == 0 || index <= len) && range.end <= last).then_some(index)
}

// ---- on fields

// A runtime-sized field has no end; what is no memory holds nothing.
#[tactic(auto, unfolding(layout::specs::Lookup::memory_passes, layout::specs::Lookup::field_holds))]
fn field_holds(offset: u32, a: Result<TypeLayout, Refusal>, range: &Range<u32>) -> bool
    ensures { (f : Reading) → result ≡ memory_passes (field_holds offset range.now.start range.now.end) (answer_by f a) }
{
    match a {
        Ok(TypeLayout::Concrete(m)) => {
            let after = u64::from(offset) + u64::from(m.mem.fixed_base.size);
            offset <= range.start && (m.mem.dyn_unit_stride != 0 || u64::from(range.end) <= after)
        }
        _ => false,
    }
}

// ---- into the lent list, where a place past its end is left out: a list without places counts only

// The size of an array's element.
#[tactic(auto, unfolding(layout::specs::Lookup::size_of_part))]
fn size_of_part(a: Result<TypeLayout, Refusal>) -> u32
    ensures { (f : Reading) → result ≡ size_of_part (answer_by f a) }
{
    match a {
        Ok(TypeLayout::Concrete(m)) => m.mem.fixed_base.size,
        _ => 0,
    }
}

#[tactic(auto, unfolding(crate::specs::Found::held_element, layout::specs::Lookup::element_holding, crate::specs::Found::counted))]
fn elements_containing(
    stride: u32,
    len: u32,
    size: u32,
    range: &Range<u32>,
    out: &mut [u32],
) -> usize
    ensures { both result out.new ≡ counted out.old (element_holding stride len size range.now.start range.now.end) }
{
    match element_containing(stride, len, size, range) {
        Some(i) => {
            spirv::put_word(out, 0, i);
            1
        }
        None => 0,
    }
}

// The fields whose offsets and types are these, a span of two lists of the tables. They are counted by hand: the list may end before all are found.
#[tactic(auto, unfolding(crate::specs::Found::counted))]
fn fields_containing(
    layouts: &Layouts<'_>,
    offsets: &[u32],
    types: &[u32],
    range: &Range<u32>,
    out: &mut [u32],
) -> usize
    requires { length offsets.now < 4294967296 }
    ensures { (f : Reading) → both result out.new ≡ counted out.old (fields_holding (λ t. answer_by f (answer_at layouts.now.rows.now layouts.now.count t)) offsets.now types.now 0 range.now.start range.now.end) }
{
    let mut count = 0;
    for (i, (offset, t)) in offsets.iter().zip(types).enumerate() {
        if field_holds(*offset, layouts.answer_at(*t), range) {
            // no `From`: the check proves that i fits a word
            spirv::put_word(out, count, i as u32);
            count += 1;
        }
    }
    count
}

// The components that hold the range, counted and written.
#[tactic(auto, unfolding(crate::specs::Found::counted, layout::specs::Lookup::components_containing))]
fn collect(layouts: &Layouts<'_>, c: Components, range: &Range<u32>, out: &mut [u32]) -> usize
    ensures { both result out.new ≡ counted out.old (found_in layouts.now.rows.now layouts.now.count layouts.now.offsets.now layouts.now.members.now c range.now.start range.now.end) }
{
    match c {
        Components::Scalar => 0,
        Components::Elements {
            stride,
            elem,
            fixed_len,
        } => {
            let size = size_of_part(layouts.answer_at(elem));
            elements_containing(stride, fixed_len, size, range, out)
        }
        Components::Fields { start, count } => {
            let own = rows::span(layouts.offsets, start, count);
            let types = rows::span(layouts.members, start, count);
            fields_containing(layouts, own, types, range, out)
        }
    }
}

// The result is counted first, so that 24 leaves the list untouched.
#[tactic(auto, unfolding(arith::proofs::Opened::opened, crate::specs::Found::counted, crate::specs::Found::lookup_both))]
fn in_room(
    layouts: &Layouts<'_>,
    c: Components,
    range: &Range<u32>,
    out: &mut [u32],
) -> Result<usize, Refusal>
    ensures { both result out.new ≡ answered_in out.old (ok (found_in layouts.now.rows.now layouts.now.count layouts.now.offsets.now layouts.now.members.now c range.now.start range.now.end)) }
{
    let count = collect(layouts, c, range, &mut []);
    if out.len() < count {
        return Err(Refusal::SHORT_LIST);
    }
    Ok(collect(layouts, c, range, out))
}

// The components of type t that hold a range of bytes, rising: 28, layout, 19, 24. Inlined, and the tables are lent on as a copy, so that over a table of C's
// they are stored only where a type has components.
#[tactic(auto, unfolding(arith::proofs::Opened::opened, layout::specs::Lookup::lookup_by, layout::specs::Lookup::in_memory_only, crate::specs::Found::lookup_both))]
#[inline(always)]
pub fn find_components_containing(
    layouts: &Layouts<'_>,
    t: u32,
    range: Range<u32>,
    out: &mut [u32],
) -> Result<usize, Refusal>
    ensures { both result out.new ≡ answered_in out.old (lookup_in layouts.now.rows.now layouts.now.count layouts.now.offsets.now layouts.now.members.now t range.start range.end) }
{
    if layouts.count <= t {
        return Err(Refusal::MISREAD);
    }
    if range.end < range.start {
        return Err(Refusal::REVERSED);
    }
    let TypeLayout::Concrete(m) = layouts.answer_at(t)? else {
        return Err(Refusal::NO_PARTS);
    };
    let lent = *layouts;
    in_room(&lent, m.components, &range, out)
}
