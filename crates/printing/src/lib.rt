// Answer lines of the program `lay`, printed into a lent slice at a place, as the crate `text` prints: what lies past the slice's end is left out.

#![tactic(auto)]

pub mod layouts;

ghost use Rattle.text.specs.Printed.{Printed};
ghost use Rattle.steps.specs.Lists.{steps_in};
ghost use Rattle.printing.specs.Texts.{equal_text, components_text, chain_text, length_text, variable_text, refusal_text};

use arith::refusal::Refusal;
use shapes::MemLayout;
use steps::Steps;

// `y` or `n`: the bool is E's answer itself, and no switch.
#[tactic(auto, unfolding(answers::specs::Output::printed))]
pub fn equal_line(out: &mut [u8], at: usize, same: bool) -> usize
    ensures { Printed (equal_text same) out.old at result out.new }
{
    if same {
        text::bytes(out, at, b"y\n")
    } else {
        text::bytes(out, at, b"n\n")
    }
}

// A line is its letter, its fields and LF, here and below: calls in a row, since a list of fields to print would have to be stored.
// `q`, then components.
pub fn components_line(out: &mut [u8], at: usize, found: &[u32]) -> usize
    ensures { Printed (components_text found.now) out.old at result out.new }
{
    let a = text::byte(out, at, b'q');
    let b = cells::numbers(out, a, found);
    text::byte(out, b, b'\n')
}

// `c`, then the first `count` steps of five lists.
pub fn chain_line(out: &mut [u8], at: usize, steps: &Steps<'_>, count: usize) -> usize
    ensures { Printed (chain_text (steps_in steps.now.kinds.now steps.now.bytes.now steps.now.bounds.now steps.now.marks.now steps.now.indices.now count)) out.old at result out.new }
{
    let a = text::byte(out, at, b'c');
    let b = cells::first_steps(out, a, steps, count);
    text::byte(out, b, b'\n')
}

// `l,offset,stride`.
pub fn length_line(out: &mut [u8], at: usize, offset: u32, stride: u32) -> usize
    ensures { Printed (length_text offset stride) out.old at result out.new }
{
    let a = text::byte(out, at, b'l');
    let b = cells::number(out, a, offset);
    let c = cells::number(out, b, stride);
    text::byte(out, c, b'\n')
}

// `x,size,align,legacy`, or `x` alone.
#[tactic(auto, unfolding(answers::specs::Output::printed))]
pub fn variable_line(out: &mut [u8], at: usize, m: Option<MemLayout>) -> usize
    ensures { Printed (variable_text m) out.old at result out.new }
{
    let Some(m) = m else {
        return text::bytes(out, at, b"x\n");
    };
    let a = text::byte(out, at, b'x');
    let b = cells::number(out, a, m.size);
    let c = cells::number(out, b, m.align);
    let d = cells::number(out, c, m.legacy_align);
    text::byte(out, d, b'\n')
}

// `e,number`.
pub fn refusal_line(out: &mut [u8], at: usize, e: Refusal) -> usize
    ensures { Printed (refusal_text e.number) out.old at result out.new }
{
    let a = text::byte(out, at, b'e');
    let b = cells::number(out, a, e.number);
    text::byte(out, b, b'\n')
}
