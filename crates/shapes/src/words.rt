// A layout or a refusal as ten words: what it is, its number, what it is made of, size, alignments and runtime stride, and three words of its parts.
// The first and the third are numbers: C lends rows, in which any word may stand, so reading is by number, and refuses.
ghost use Rattle.std.specs.Prelude.{◌≡◌};
ghost use Rattle.shapes.specs.Settings.{setting_of};
ghost use Rattle.shapes.specs.Words.{memory_words, handle_words, encode, components_of, memory_of, handle_of, answer_of, decode};

use crate::{
    Components, Handle, LayoutConfig, MaybeDynMemLayout, MemLayout, MemTypeLayout, TypeLayout,
};
use arith::refusal::Refusal;

// ---- to words; here and back they are functions and no From: an impl with its law is longer, and says what the clauses here say

#[tactic(auto, unfolding(crate::specs::Words::memory_words))]
fn memory_words(tag: u32, number: u32, m: MemTypeLayout) -> [u32; 10]
    ensures { result ≡ memory_words tag number m }
{
    let MemLayout {
        align,
        legacy_align,
        size,
    } = m.mem.fixed_base;
    let unit = m.mem.dyn_unit_stride;
    let (kind, a, b, c) = match m.components {
        Components::Scalar => (1, 0, 0, 0),
        Components::Elements {
            stride,
            elem,
            fixed_len,
        } => (2, stride, elem, fixed_len),
        Components::Fields { start, count } => (3, start, count, 0),
    };
    [tag, number, kind, size, align, legacy_align, unit, a, b, c]
}

#[tactic(auto, unfolding(crate::specs::Words::handle_words))]
fn handle_words(tag: u32, number: u32, h: Handle) -> [u32; 10]
    ensures { result ≡ handle_words tag number h }
{
    match h {
        Handle::Opaque => [tag, number, 0, 0, 0, 0, 0, 0, 0, 0],
        Handle::Buffer(m) => memory_words(tag, number, m),
    }
}

#[tactic(auto, unfolding(crate::specs::Words::encode))]
pub fn words(a: Result<TypeLayout, Refusal>) -> [u32; 10]
    ensures { result ≡ encode a }
{
    match a {
        Err(e) => [0, e.number, 0, 0, 0, 0, 0, 0, 0, 0],
        Ok(TypeLayout::Handle(h)) => handle_words(1, 0, h),
        Ok(TypeLayout::HandleArray(h, n)) => handle_words(2, n, h),
        Ok(TypeLayout::Concrete(m)) => memory_words(3, 0, m),
    }
}

// ---- and back

fn components_of(kind: u32, a: u32, b: u32, c: u32) -> Components
    ensures { result ≡ components_of kind a b c }
{
    match kind {
        2 => Components::Elements {
            stride: a,
            elem: b,
            fixed_len: c,
        },
        3 => Components::Fields { start: a, count: b },
        _ => Components::Scalar,
    }
}

// Memory whose words are these, if there is any.
#[tactic(auto, unfolding(crate::specs::Words::memory_of))]
fn memory_of(ws: &[u32; 10]) -> MemTypeLayout
    ensures { result ≡ memory_of ws.now }
{
    MemTypeLayout {
        mem: MaybeDynMemLayout {
            fixed_base: MemLayout {
                align: ws[4],
                legacy_align: ws[5],
                size: ws[3],
            },
            dyn_unit_stride: ws[6],
        },
        components: components_of(ws[2], ws[7], ws[8], ws[9]),
    }
}

fn handle_of(kind: u32, m: MemTypeLayout) -> Handle
    ensures { result ≡ handle_of kind m }
{
    match kind {
        0 => Handle::Opaque,
        _ => Handle::Buffer(m),
    }
}

// An answer whose words these are, if there is one.
#[tactic(auto, unfolding(crate::specs::Words::answer_of))]
fn answer_of(ws: &[u32; 10]) -> Result<TypeLayout, Refusal>
    ensures { result ≡ answer_of ws.now }
{
    let m = memory_of(ws);
    match ws[0] {
        1 => Ok(TypeLayout::Handle(handle_of(ws[2], m))),
        2 => Ok(TypeLayout::HandleArray(handle_of(ws[2], m), ws[1])),
        3 => Ok(TypeLayout::Concrete(m)),
        _ => Err(Refusal::from(ws[1])),
    }
}

// The answer that words hold is the one whose words they are; words that are none's are refused with 1.
#[tactic(auto, using(crate::proofs::ReadsBack::not_ten, spirv::proofs::Words::same_pointwise), unfolding(crate::specs::Words::decode))]
#[inline(always)]
pub fn answer(ws: &[u32]) -> Result<TypeLayout, Refusal>
    ensures { result ≡ decode ws.now }
{
    let ten = ws.as_array().ok_or(Refusal::MISREAD)?;
    // worked out again where it holds: kept over the comparison, its parts would be stored
    if words(answer_of(ten)) == *ten {
        answer_of(ten)
    } else {
        Err(Refusal::MISREAD)
    }
}

// ---- a setting

// The setting that six words hold, as a sheet's table has them.
#[tactic(auto, unfolding(crate::specs::Settings::setting_of))]
pub fn setting_of(ws: &[u32]) -> LayoutConfig
    ensures { result ≡ setting_of ws.now }
{
    LayoutConfig {
        ignore_legacy_align: spirv::word_at(ws, 0) == 1,
        min_aggregate_legacy_align: spirv::word_at(ws, 1),
        abstract_bool_size: spirv::word_at(ws, 2),
        abstract_bool_align: spirv::word_at(ws, 3),
        logical_ptr_size: spirv::word_at(ws, 4),
        logical_ptr_align: spirv::word_at(ws, 5),
    }
}
