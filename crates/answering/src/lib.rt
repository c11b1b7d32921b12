// The answer line of any question over tables of types and layouts, printed into a lent slice at a place, as the crate `text` prints.
#![tactic(auto)]

ghost use Rattle.text.specs.Printed.{Printed};
ghost use Rattle.answers.specs.Lines.{answer_by};
ghost use Rattle.answers.specs.Output.{text_of};
ghost use Rattle.answering.specs.OfTables.{source, question_in};

use lines::Ask;
use shapes::tables::Tables;

// A chain's indices stand in front of the list, two words each. An arm for each question: it hands on the words that the question has.
pub fn put_answer(tables: &Tables<'_>, ask: Ask, list: &[u32], out: &mut [u8], at: usize) -> usize
    ensures { Printed (text_of (answer_by (source tables.now) (question_in ask list.now))) out.old at result out.new }
{
    match ask {
        Ask::T(t) => replies::layout_line(&tables.layouts, t, out, at),
        Ask::E(t, u) => replies::equal_line(&tables.layouts, t, u, out, at),
        Ask::Q(t, start, end) => {
            replies::components_line(&tables.layouts, t, start..end, out, at)
        }
        Ask::C { op, ptr, count } => pointing::chain_line(tables, op, ptr, count, list, out, at),
        Ask::L(ptr, member) => pointing::length_line(tables, ptr, member, out, at),
        Ask::X(ptr) => pointing::variable_line(tables, ptr, out, at),
    }
}
