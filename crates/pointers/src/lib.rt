// What is asked of a pointer's type, over tables of types and layouts: its pointee, and the arms for OpArrayLength and OpVariable of lower.rs.
#![tactic(auto)]

ghost use Rattle.std.specs.Prelude.{ℕ, ◌≡◌, List};
ghost use Rattle.arith.specs.InCode.{in_code, as_option};
ghost use Rattle.spirv.specs.Decl.{pointee_of};
ghost use Rattle.spirv.specs.Rows.{decode_row};
ghost use Rattle.shapes.specs.Spans.{Reading, answer_by, layout_by, memory_by, parts_by, spans_of};
ghost use Rattle.shapes.specs.Rows.{answer_at};
ghost use Rattle.components.specs.Found.{answers_in};
ghost use Rattle.lower.specs.Steps.{field_at};
ghost use Rattle.lower.specs.Other.{member_of, runtime_stride, stride_of_part, length_in, fixed_memory, variable_by};
ghost use Rattle.pointers.specs.OverTables.{pointee_of_row, pointee_at, length_of, length_over};
ghost use Rattle.pointers.specs.InCode.{as_field, as_length, as_variable};

use arith::lists;
use arith::refusal::Refusal;
use shapes::tables::{Layouts, Tables};
use shapes::{Components, Handle, MemLayout, MemTypeLayout, TypeLayout};
use spirv::SpvType;

// ---- the pointee

#[tactic(auto, unfolding(spirv::specs::Decl::pointee_of))]
fn pointee_of(ty: SpvType) -> Result<u32, Refusal>
    ensures { result ≡ in_code (pointee_of ty) }
{
    match ty {
        SpvType::Pointer { pointee, .. } => Ok(pointee),
        _ => Err(Refusal::NO_POINTER),
    }
}

// The pointee of the type whose row these words are, in two ways: any row can be decoded whole, as here, and this tells a row that is misread from a
// type that is no pointer; a pointer's own row is known by its words, below, as to decode each row took longer (docs/CHANGES.md, 6 of 8).
fn by_row(ws: &[u32]) -> Result<u32, Refusal>
    ensures { result ≡ in_code (pointee_of_row (decode_row ws.now)) }
{
    let r = spirv::decode_row(ws).ok_or(Refusal::MISREAD)?;
    pointee_of(r.ty)
}

// The same, where a pointer's row isn't decoded.
#[tactic(auto, using(crate::proofs::PointerRows::of_pointer))]
fn pointee_in(ws: &[u32; 6]) -> Result<u32, Refusal>
    ensures { result ≡ in_code (pointee_of_row (decode_row ws.now)) }
{
    match *ws {
        [spirv::POINTER, _, pointee, 0, 0, 0] => Ok(pointee),
        _ => by_row(ws),
    }
}

// The pointee of type ptr; refused with 18 where that type is no pointer, and with 1 where there is no such type. Why its two lines stand
// here and in places: see places::place_at.
#[tactic(auto, using(crate::proofs::PointerRows::row_missing), unfolding(crate::specs::OverTables::pointee_at, spirv::specs::Rows::row_at))]
#[inline(always)]
pub fn pointee_at(tables: &Tables<'_>, ptr: u32) -> Result<u32, Refusal>
    ensures { result ≡ in_code (pointee_at tables.now.types.now tables.now.layouts.count ptr) }
{
    if tables.layouts.count <= ptr {
        return Err(Refusal::MISREAD);
    }
    pointee_in(lists::row(tables.types, ptr).ok_or(Refusal::MISREAD)?)
}

// ---- array length (OpArrayLength)

// A field of a struct.
#[derive(Clone, Copy, Debug, PartialEq, Eq, Hash)]
pub struct Field {
    pub offset: u32,
    pub ty: u32,
}

// BufferDynLen.
#[derive(Clone, Copy, Debug, PartialEq, Eq, Hash)]
pub struct ArrayLength {
    pub offset: u32,
    pub stride: u32,
}

// Two lists, since a struct's fields are a span of each. `moves::field_way` looks up so, too, but judges the index and the offset first: what both share is two
// lines.
#[tactic(auto, using(lower::proofs::Fields::no_offset, lower::proofs::Fields::no_type, lower::proofs::Fields::field_there))]
fn field_at(offsets: &[u32], types: &[u32], member: u32) -> Result<Field, Refusal>
    ensures { result ≡ as_field (field_at offsets.now types.now member) }
{
    // no From: usize may be narrower; the check proves that it fits
    let at = member as usize;
    let offset = offsets.get(at).ok_or(Refusal::FIELD_OUTSIDE)?;
    let ty = types.get(at).ok_or(Refusal::FIELD_OUTSIDE)?;
    Ok(Field {
        offset: *offset,
        ty: *ty,
    })
}

#[tactic(auto, unfolding(lower::specs::Other::member_of))]
fn member_of(layouts: &Layouts<'_>, c: Components, member: u32) -> Result<Field, Refusal>
    ensures { result ≡ as_field (member_of (parts_by (spans_of layouts.now.offsets.now layouts.now.members.now) c) member) }
{
    let Components::Fields { start, count } = c else {
        return Err(Refusal::FIELD_OUTSIDE);
    };
    let offsets = shapes::rows::span(layouts.offsets, start, count);
    let types = shapes::rows::span(layouts.members, start, count);
    field_at(offsets, types, member)
}

#[tactic(auto, unfolding(arith::proofs::Opened::opened, lower::specs::Other::runtime_stride))]
fn runtime_stride(c: Components) -> Result<u32, Refusal>
    ensures { (os ms : List ℕ) → result ≡ in_code (runtime_stride (parts_by (spans_of os ms) c)) }
{
    match c {
        Components::Elements {
            stride,
            fixed_len: 0,
            ..
        } => Ok(stride),
        _ => Err(Refusal::NO_RUNTIME_ARRAY),
    }
}

#[tactic(auto, unfolding(lower::specs::Other::stride_of_part))]
fn stride_of_part(l: TypeLayout) -> Result<u32, Refusal>
    ensures { (os ms : List ℕ) → result ≡ in_code (stride_of_part (layout_by (spans_of os ms) l)) }
{
    match l {
        TypeLayout::Concrete(m) => runtime_stride(m.components),
        _ => Err(Refusal::NO_RUNTIME_ARRAY),
    }
}

// Of a buffer's member.
#[tactic(auto, unfolding(arith::proofs::Opened::opened, lower::specs::Other::length_in))]
#[inline(always)]
fn length_in(layouts: &Layouts<'_>, m: MemTypeLayout, member: u32) -> Result<ArrayLength, Refusal>
    ensures { result ≡ as_length (length_in (answers_in layouts.now.rows.now layouts.now.count layouts.now.offsets.now layouts.now.members.now) (memory_by (spans_of layouts.now.offsets.now layouts.now.members.now) m) member) }
{
    let f = member_of(layouts, m.components, member)?;
    let part = layouts.answer_at(f.ty)?;
    let stride = stride_of_part(part)?;
    if m.mem.fixed_base.size != f.offset {
        return Err(Refusal::NOT_LAST);
    }
    Ok(ArrayLength {
        offset: f.offset,
        stride,
    })
}

// Of a layout's member; refused with 25 where the layout is of no buffer. Inlined with `length_in`, else the parts of the table would be stored to be lent to it.
#[tactic(auto, unfolding(arith::proofs::Opened::opened, lower::specs::Other::buffer_of))]
#[inline(always)]
fn length_of(layouts: &Layouts<'_>, l: TypeLayout, member: u32) -> Result<ArrayLength, Refusal>
    ensures { result ≡ as_length (length_of (answers_in layouts.now.rows.now layouts.now.count layouts.now.offsets.now layouts.now.members.now) (layout_by (spans_of layouts.now.offsets.now layouts.now.members.now) l) member) }
{
    match l {
        TypeLayout::Handle(Handle::Buffer(m)) => length_in(layouts, m, member),
        _ => Err(Refusal::NO_BUFFER),
    }
}

// Inlined, as `local_variable` is, so that over a table of C's only those parts are found that the question looks into.
#[tactic(auto, unfolding(arith::proofs::Opened::opened, lower::specs::Other::length_by))]
#[inline(always)]
pub fn array_length(tables: &Tables<'_>, ptr: u32, member: u32) -> Result<ArrayLength, Refusal>
    ensures { result ≡ as_length (length_over tables.now.layouts.count tables.now.types.now tables.now.layouts.rows.now tables.now.layouts.offsets.now tables.now.layouts.members.now ptr member) }
{
    let layouts = &tables.layouts;
    let block = pointee_at(tables, ptr)?;
    let l = layouts.answer_at(block)?;
    length_of(layouts, l, member)
}

// ---- local variable (OpVariable)

// The memory of a variable, where it is of a fixed size.
#[tactic(auto, unfolding(lower::specs::Other::fixed_memory))]
fn fixed_memory(l: TypeLayout) -> Option<MemLayout>
    ensures { (f : Reading) → result ≡ as_option (fixed_memory (layout_by f l)) }
{
    match l {
        TypeLayout::Concrete(m) if m.mem.dyn_unit_stride == 0 => Some(m.mem.fixed_base),
        _ => None,
    }
}

#[tactic(auto, unfolding(arith::proofs::Opened::opened, lower::specs::Other::variable_by))]
#[inline(always)]
pub fn local_variable(tables: &Tables<'_>, ptr: u32) -> Result<Option<MemLayout>, Refusal>
    ensures { (f : Reading) → result ≡ as_variable (variable_by (pointee_at tables.now.types.now tables.now.layouts.count) (λ t. answer_by f (answer_at tables.now.layouts.rows.now tables.now.layouts.count t)) ptr) }
{
    let t = pointee_at(tables, ptr)?;
    let l = tables.layouts.answer_at(t)?;
    Ok(fixed_memory(l))
}
