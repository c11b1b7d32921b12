// The line of a layout, `t,form,len,size,align,legacy,dyn`, then field offsets, or the stride. A struct's fields are a span of the sheet's list of offsets.
ghost use Rattle.std.specs.Prelude.{[], ◌∷◌};
ghost use Rattle.text.specs.Printed.{Printed};
ghost use Rattle.decimal.specs.Text.{bytes};
ghost use Rattle.decimal.specs.Decimal.{decimal};
ghost use Rattle.answers.specs.Lines.{parts_fields, memory_fields, opaque_fields};
ghost use Rattle.answers.specs.Output.{printed};
ghost use Rattle.cells.specs.Behind.{behind};
ghost use Rattle.printing.specs.Layouts.{parts_in, memory_in, layout_text};

use shapes::{Components, Handle, MemTypeLayout, TypeLayout};

// Beside `comparing`'s `last_numbers`, which has the same three arms: that answers a list that is compared,
// and this prints, an element's stride as a number, of which no list is to be made.
fn parts(out: &mut [u8], at: usize, p: Components, offsets: &[u32]) -> usize
    ensures { Printed (behind (parts_fields (parts_in offsets.now p))) out.old at result out.new }
{
    match p {
        Components::Scalar => at,
        Components::Elements { stride, .. } => cells::number(out, at, stride),
        Components::Fields { start, count } => {
            cells::numbers(out, at, shapes::rows::span(offsets, start, count))
        }
    }
}

fn memory(out: &mut [u8], at: usize, m: MemTypeLayout, offsets: &[u32]) -> usize
    ensures { Printed (behind (memory_fields (memory_in offsets.now m))) out.old at result out.new }
{
    let mem = m.mem;
    let base = mem.fixed_base;
    let components = m.components;
    let a = cells::number(out, at, base.size);
    let b = cells::number(out, a, base.align);
    let c = cells::number(out, b, base.legacy_align);
    let d = cells::number(out, c, mem.dyn_unit_stride);
    parts(out, d, components, offsets)
}

// The form and the length, which each line has first.
fn head(out: &mut [u8], at: usize, form: &[u8], len: u32) -> usize
    ensures { Printed (behind (form.now ∷ decimal len ∷ [])) out.old at result out.new }
{
    let a = text::byte(out, at, b',');
    let b = text::bytes(out, a, form);
    cells::number(out, b, len)
}

// The line of memory, of a buffer, or of an array of buffers. Six parameters: a struct of form, length, memory and offsets would be written out at each of three calls.
fn memory_line(
    out: &mut [u8],
    at: usize,
    form: &[u8],
    len: u32,
    m: MemTypeLayout,
    offsets: &[u32],
) -> usize
    ensures { Printed (printed (bytes "t" ∷ form.now ∷ decimal len ∷ memory_fields (memory_in offsets.now m))) out.old at result out.new }
{
    let a = text::byte(out, at, b't');
    let b = head(out, a, form, len);
    let c = memory(out, b, m, offsets);
    text::byte(out, c, b'\n')
}

// The line of an opaque, or of an array of them. Beside `memory_line`: one function for both would take what stands behind the head as a closure, and an opaque
// has no memory to hand on.
fn opaque_line(out: &mut [u8], at: usize, form: &[u8], len: u32) -> usize
    ensures { Printed (printed (bytes "t" ∷ form.now ∷ decimal len ∷ opaque_fields)) out.old at result out.new }
{
    let a = text::byte(out, at, b't');
    let b = head(out, a, form, len);
    let c = text::bytes(out, b, b",0,0,0,0");
    text::byte(out, c, b'\n')
}

// The line of a layout whose fields are spans of these offsets: an arm for each of the five forms.
#[tactic(auto, unfolding(answers::specs::Lines::layout_line))]
pub fn layout_line(out: &mut [u8], at: usize, l: TypeLayout, offsets: &[u32]) -> usize
    ensures { Printed (layout_text offsets.now l) out.old at result out.new }
{
    match l {
        TypeLayout::Concrete(m) => memory_line(out, at, b"c", 0, m, offsets),
        TypeLayout::Handle(Handle::Opaque) => opaque_line(out, at, b"o", 0),
        TypeLayout::Handle(Handle::Buffer(m)) => memory_line(out, at, b"b", 0, m, offsets),
        TypeLayout::HandleArray(Handle::Opaque, len) => opaque_line(out, at, b"ao", len),
        TypeLayout::HandleArray(Handle::Buffer(m), len) => {
            memory_line(out, at, b"ab", len, m, offsets)
        }
    }
}
