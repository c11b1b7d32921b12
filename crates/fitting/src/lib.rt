// Answer lines, all of a line or nothing: where a line does not fit, 24.
#![tactic(auto)]

ghost use Rattle.std.specs.Prelude.{ℕ, List};
ghost use Rattle.arith.specs.Refusals.{ok};
ghost use Rattle.text.specs.Whole.{Whole};
ghost use Rattle.steps.specs.Lists.{steps_in};
ghost use Rattle.printing.specs.Layouts.{layout_text};
ghost use Rattle.printing.specs.Texts.{equal_text, components_text, chain_text, length_text, variable_text, refusal_text};
ghost use Rattle.fitting.specs.Prints.{Prints};

use arith::refusal::Refusal;
use printing::layouts;
use shapes::{MemLayout, TypeLayout};
use steps::Steps;

// The text that `print` prints: it is measured first, on no room, and then written where it fits.
fn put<F: Fn(&mut [u8]) -> usize>(out: &mut [u8], print: F) -> Result<usize, Refusal>
    requires { F.IsAlwaysCallable print }
    ensures { (text : List ℕ) → Prints F.Fn print text → Whole (ok text) out.old result out.new }
{
    let size = print(&mut []);
    if out.len() < size {
        return Err(Refusal::SHORT_LIST);
    }
    Ok(print(out))
}

// ---- each line: one call, so that a caller gives what the line shows, and no closure that prints it. All are public, and a program of another's may call them: here only `put_refusal_line` has callers

// `t,form,len,size,align,legacy,dyn`, then field offsets, or the stride.
pub fn put_layout_line(out: &mut [u8], l: TypeLayout, offsets: &[u32]) -> Result<usize, Refusal>
    ensures { Whole (ok (layout_text offsets.now l)) out.old result out.new }
{
    put(out, |out| layouts::layout_line(out, 0, l, offsets))
}

// `y` or `n`: the bool is E's answer itself, and no switch.
pub fn put_equal_line(out: &mut [u8], same: bool) -> Result<usize, Refusal>
    ensures { Whole (ok (equal_text same)) out.old result out.new }
{
    put(out, |out| printing::equal_line(out, 0, same))
}

// `q`, then components.
pub fn put_components_line(out: &mut [u8], found: &[u32]) -> Result<usize, Refusal>
    ensures { Whole (ok (components_text found.now)) out.old result out.new }
{
    put(out, |out| printing::components_line(out, 0, found))
}

// `c`, then the first `count` steps of five lists.
pub fn put_chain_line(out: &mut [u8], steps: &Steps<'_>, count: usize) -> Result<usize, Refusal>
    ensures { Whole (ok (chain_text (steps_in steps.now.kinds.now steps.now.bytes.now steps.now.bounds.now steps.now.marks.now steps.now.indices.now count))) out.old result out.new }
{
    put(out, |out| printing::chain_line(out, 0, steps, count))
}

// `l,offset,stride`.
pub fn put_length_line(out: &mut [u8], offset: u32, stride: u32) -> Result<usize, Refusal>
    ensures { Whole (ok (length_text offset stride)) out.old result out.new }
{
    put(out, |out| printing::length_line(out, 0, offset, stride))
}

// `x,size,align,legacy`, or `x` alone.
pub fn put_variable_line(out: &mut [u8], m: Option<MemLayout>) -> Result<usize, Refusal>
    ensures { Whole (ok (variable_text m)) out.old result out.new }
{
    put(out, |out| printing::variable_line(out, 0, m))
}

// `e,number`.
pub fn put_refusal_line(out: &mut [u8], e: Refusal) -> Result<usize, Refusal>
    ensures { Whole (ok (refusal_text e.number)) out.old result out.new }
{
    put(out, |out| printing::refusal_line(out, 0, e))
}
