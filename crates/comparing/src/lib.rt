// Whether the lines of two layouts are equal, decided on their numbers: no two numbers print alike. A derived `==` asks another question: fields are spans that are read from a list.
#![tactic(auto)]

ghost use Rattle.std.specs.Prelude.{◌≡◌, map};
ghost use Rattle.decimal.specs.Decimal.{decimal};
ghost use Rattle.answers.specs.Lines.{parts_fields, memory_fields, same_line};
ghost use Rattle.printing.specs.Layouts.{parts_in, memory_in, handle_in, line_in};
ghost use Rattle.comparing.specs.Contents.{same_contents};

use shapes::{Components, Handle, MemTypeLayout, TypeLayout};

// The numbers that the line of memory ends with: the stride, or the fields' offsets. `printing::layouts` prints them by the same three arms, but needs no list for a stride.
fn last_numbers<'a>(p: &'a Components, offsets: &'a [u32]) -> &'a [u32]
    ensures { map decimal result.now ≡ parts_fields (parts_in offsets.now p.now) }
{
    match p {
        Components::Scalar => &[],
        Components::Elements { stride, .. } => std::slice::from_ref(stride),
        Components::Fields { start, count } => shapes::rows::span(offsets, *start, *count),
    }
}

fn same_memory(m: MemTypeLayout, n: MemTypeLayout, offsets: &[u32]) -> bool
    ensures { result ≡ same_line (memory_fields (memory_in offsets.now m)) (memory_fields (memory_in offsets.now n)) }
{
    m.mem == n.mem && last_numbers(&m.components, offsets) == last_numbers(&n.components, offsets)
}

#[tactic(auto, unfolding(crate::specs::Contents::same_contents))]
fn same_contents(h: Handle, k: Handle, offsets: &[u32]) -> bool
    ensures { result ≡ same_contents (handle_in offsets.now h) (handle_in offsets.now k) }
{
    match (h, k) {
        (Handle::Opaque, Handle::Opaque) => true,
        (Handle::Buffer(m), Handle::Buffer(n)) => same_memory(m, n, offsets),
        _ => false,
    }
}

// Whether the lines of two layouts, whose fields are spans of these offsets, are equal.
#[tactic(auto, using(crate::proofs::SameLines::memories, crate::proofs::SameLines::handles, crate::proofs::SameLines::arrays, crate::proofs::SameLines::not_memory, crate::proofs::SameLines::no_handle, crate::proofs::SameLines::no_array))]
pub fn same_lines(a: TypeLayout, b: TypeLayout, offsets: &[u32]) -> bool
    ensures { result ≡ same_line (line_in offsets.now a) (line_in offsets.now b) }
{
    match (a, b) {
        (TypeLayout::Concrete(m), TypeLayout::Concrete(n)) => same_memory(m, n, offsets),
        (TypeLayout::Handle(h), TypeLayout::Handle(k)) => same_contents(h, k, offsets),
        (TypeLayout::HandleArray(h, len), TypeLayout::HandleArray(k, count)) => {
            len == count && same_contents(h, k, offsets)
        }
        _ => false,
    }
}
