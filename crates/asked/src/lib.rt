// T, Q, L and X over a table, as words into a lent list: all of them or none.
// The table and the list are two lists of words in each function here, as C hands them over: the table is read, the list is written.
#![tactic(auto)]

ghost use Rattle.std.specs.Prelude.{◌≡◌, ◌++◌};
ghost use Rattle.arith.specs.Refusals.{ok};
ghost use Rattle.text.specs.Whole.{Whole};
ghost use Rattle.asked.specs.Asked.{found_for, length_for, variable_for, layout_for};
ghost use Rattle.asked.specs.InCode.{stride_in, memory_head, head_of};

use arith::refusal::Refusal;
use shapes::{Components, Handle, MemTypeLayout, TypeLayout};

// ---- words into a lent list

// Two lists, one behind the other. A list of lists to give would need a loop over it, where two calls do.
fn give_both(first: &[u32], second: &[u32], out: &mut [u32]) -> Result<usize, Refusal>
    ensures { Whole (ok (first.now ++ second.now)) out.old result out.new }
{
    if out.len() < first.len() + second.len() {
        return Err(Refusal::SHORT_LIST);
    }
    spirv::put_words(out, 0, first);
    spirv::put_words(out, first.len(), second);
    Ok(first.len() + second.len())
}

fn give(words: &[u32], out: &mut [u32]) -> Result<usize, Refusal>
    ensures { Whole (ok words.now) out.old result out.new }
{
    give_both(words, &[], out)
}

// ---- Q

// The components of a type that hold the bytes from start to end.
pub fn find_components(
    table: &[u32],
    ty: u32,
    start: u32,
    end: u32,
    out: &mut [u32],
) -> Result<usize, Refusal>
    ensures { Whole (found_for table.now ty start end) out.old result out.new }
{
    let layouts = flat::tables_in(table).layouts;
    components::find_components_containing(&layouts, ty, start..end, out)
}

// ---- L

// The offset and the stride of a buffer's runtime array.
pub fn array_length(table: &[u32], ptr: u32, member: u32, out: &mut [u32]) -> Result<usize, Refusal>
    ensures { Whole (length_for table.now ptr member) out.old result out.new }
{
    let tables = flat::tables_in(table);
    let a = pointers::array_length(&tables, ptr, member)?;
    give(&[a.offset, a.stride], out)
}

// ---- X

// The size and the alignments of a local variable; no words where it is not of a fixed size.
pub fn local_variable(table: &[u32], ptr: u32, out: &mut [u32]) -> Result<usize, Refusal>
    ensures { Whole (variable_for table.now ptr) out.old result out.new }
{
    let tables = flat::tables_in(table);
    let v = pointers::local_variable(&tables, ptr)?;
    match v {
        Some(m) => give(&[m.size, m.align, m.legacy_align], out),
        None => Ok(0),
    }
}

// ---- T

// The stride of an array, and 0 for all else: C takes one word for it, in which a `None` would have no place.
fn stride_in(c: Components) -> u32
    ensures { result ≡ stride_in c }
{
    match c {
        Components::Elements { stride, .. } => stride,
        _ => 0,
    }
}

// The numbers that `printing::layouts` prints, as words, with one more: C's stride is 0 where there is none.
fn memory_head(form: u32, len: u32, m: MemTypeLayout) -> [u32; 7]
    ensures { result ≡ memory_head form len m }
{
    let base = m.mem.fixed_base;
    [
        form,
        len,
        base.size,
        base.align,
        base.legacy_align,
        m.mem.dyn_unit_stride,
        stride_in(m.components),
    ]
}

// What stands in front of the field offsets; the form's number is the word that C takes. Beside `printing::layouts::layout_line`, whose five arms have letters.
fn head_of(l: TypeLayout) -> [u32; 7]
    ensures { result ≡ head_of l }
{
    match l {
        TypeLayout::Concrete(m) => memory_head(1, 0, m),
        TypeLayout::Handle(Handle::Buffer(m)) => memory_head(2, 0, m),
        TypeLayout::Handle(Handle::Opaque) => [3, 0, 0, 0, 0, 0, 0],
        TypeLayout::HandleArray(Handle::Buffer(m), len) => memory_head(4, len, m),
        TypeLayout::HandleArray(Handle::Opaque, len) => [5, len, 0, 0, 0, 0, 0],
    }
}

// The layout of a type: seven words, and the offsets of its fields. As `values::layout_into`, but that the list has room for both, or for none.
pub fn type_layout(table: &[u32], ty: u32, out: &mut [u32]) -> Result<usize, Refusal>
    ensures { Whole (layout_for table.now ty) out.old result out.new }
{
    let layouts = flat::tables_in(table).layouts;
    let l = layouts.answer_at(ty)?;
    let head = head_of(l);
    let part = values::shown_offsets(values::shown_parts(l), layouts.offsets);
    give_both(&head, part, out)
}
