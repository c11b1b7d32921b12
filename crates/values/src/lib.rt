// T as values: a type's layout, and the field offsets that T shows of it into a lent list.
#![tactic(auto)]

ghost use Rattle.std.specs.Prelude.{◌≡◌};
ghost use Rattle.values.specs.Values.{shown_parts, shown_in, Into};

use arith::refusal::Refusal;
use shapes::tables::Layouts;
use shapes::{Components, Handle, TypeLayout};

// The parts of the memory that T shows.
pub fn shown_parts(l: TypeLayout) -> Components
    ensures { result ≡ shown_parts l }
{
    match l {
        TypeLayout::Concrete(m)
        | TypeLayout::Handle(Handle::Buffer(m))
        | TypeLayout::HandleArray(Handle::Buffer(m), _) => m.components,
        _ => Components::Scalar,
    }
}

pub fn shown_offsets(p: Components, offsets: &[u32]) -> &[u32]
    ensures { result.now ≡ shown_in offsets.now p }
{
    match p {
        Components::Fields { start, count } => shapes::rows::span(offsets, start, count),
        _ => &[],
    }
}

// The layout of a type, its field offsets written at the start of the list; or the refusal, 24 where they don't fit, and the list as it was.
#[tactic(auto, unfolding(crate::specs::Values::held_in))]
pub fn layout_into(layouts: &Layouts<'_>, t: u32, out: &mut [u32]) -> Result<TypeLayout, Refusal>
    ensures { Into layouts.now.rows.now layouts.now.count layouts.now.offsets.now t result out.old out.new }
{
    let l = layouts.answer_at(t)?;
    let part = shown_offsets(shown_parts(l), layouts.offsets);
    if out.len() < part.len() {
        return Err(Refusal::SHORT_LIST);
    }
    spirv::put_words(out, 0, part);
    Ok(l)
}
