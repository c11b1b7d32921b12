// layout_of for every type of a table from 0 upward: one row a type, from the rows below it.
#![tactic(auto)]

ghost use Rattle.std.specs.Prelude.{◌≡◌, ◌*◌};
ghost use Rattle.arith.specs.Pairs.{both};
ghost use Rattle.layout.specs.Layouts.{rule_of};
ghost use Rattle.structs.specs.Rows.{below_in};
ghost use Rattle.records.specs.Records.{rule_by, rule_in, by_rule_of_row, layout_of_row, record_at, filling};

use arith::refusal::Refusal;
use rules::ArrayParams;
use shapes::{Handle, LayoutConfig, TypeLayout, rows};
use spirv::{DeclRow, Length, SpvType, Stride};
use structs::Members;

// What a sheet declares: its setting, n types as rows in a list of a fixed size, the members of its structs, and the offsets that its D lines give.
#[derive(Clone, Copy)]
pub struct Declared<'a> {
    pub cfg: LayoutConfig,
    pub n: u32,
    pub types: &'a [u32],
    pub members: &'a [u32],
    pub given: &'a [u32],
}

// Which rule a type follows: eleven kinds of types have five rules, so that the laws of a layout speak once a rule.
#[derive(Clone, Copy, Debug, PartialEq, Eq, Hash)]
pub enum Rule {
    OfSetting { size: u32, align: u32 },
    OfWidth(u32),
    OfElements(ArrayParams),
    // With Block, as SpvType::Struct has it.
    OfMembers(bool),
    OfHandle,
}

#[tactic(auto, unfolding(layout::specs::Layouts::rule_of, layout::specs::Arrays::vector_params, layout::specs::Arrays::fixed_params, layout::specs::Arrays::runtime_params))]
fn rule_of(cfg: LayoutConfig, ty: SpvType) -> Result<Rule, Refusal>
    ensures { rule_in cfg result ≡ rule_of cfg ty }
{
    match ty {
        SpvType::Bool => Ok(Rule::OfSetting {
            size: cfg.abstract_bool_size,
            align: cfg.abstract_bool_align,
        }),
        SpvType::Int { width } | SpvType::Float { width } => Ok(Rule::OfWidth(width)),
        SpvType::Vector { elem, len } => Ok(Rule::OfElements(rules::vector_params(elem, len))),
        SpvType::Matrix { column, len } => Ok(Rule::OfElements(rules::fixed_params(
            column,
            len,
            Stride::Undecorated,
        ))),
        SpvType::Array {
            elem,
            len: Length::Fixed(n),
            stride,
        } => Ok(Rule::OfElements(rules::fixed_params(elem, n, stride))),
        SpvType::Array { .. } => Err(Refusal::SPECIALIZATION),
        SpvType::RuntimeArray { elem, stride } => {
            Ok(Rule::OfElements(rules::runtime_params(elem, stride)))
        }
        SpvType::Struct { block } => Ok(Rule::OfMembers(block)),
        SpvType::Pointer { .. } => Ok(Rule::OfSetting {
            size: cfg.logical_ptr_size,
            align: cfg.logical_ptr_align,
        }),
        SpvType::Opaque => Ok(Rule::OfHandle),
        SpvType::Unsupported => Err(Refusal::UNSUPPORTED),
    }
}

// The answer of a type by its rule, from the first n layouts; a struct's offsets are written.
#[tactic(auto, using(shapes::proofs::Held::decided), unfolding(crate::specs::Records::by_rule_of_row, layout::specs::Layouts::by_rule, layout::specs::Arrays::array_layout))]
fn by_rule(
    all: &Members<'_>,
    offsets: &mut [u32],
    row: DeclRow,
    rule: Rule,
) -> Result<TypeLayout, Refusal>
    ensures { both result offsets.new ≡ by_rule_of_row all.now.cfg (below_in all.now.layouts.now all.now.n) all.now.types.now all.now.given.now offsets.old row (rule_by all.now.cfg rule) }
{
    match rule {
        Rule::OfSetting { size, align } => Ok(rules::scalar_with_size_and_align(size, align)),
        Rule::OfWidth(width) => rules::scalar(width),
        Rule::OfElements(p) => rules::array(
            all.cfg,
            p,
            rows::answer_at(all.layouts, all.n, p.elem),
        ),
        Rule::OfMembers(block) => structs::struct_layout(all, offsets, block, row),
        Rule::OfHandle => Ok(TypeLayout::Handle(Handle::Opaque)),
    }
}

// The answer of a row; one that no sheet makes is refused with 1.
#[tactic(auto, unfolding(crate::specs::Records::layout_of_row, crate::specs::Records::by_rule_of_row, layout::specs::Layouts::by_rule))]
pub fn layout_of(
    all: &Members<'_>,
    offsets: &mut [u32],
    row: Option<DeclRow>,
) -> Result<TypeLayout, Refusal>
    ensures { both result offsets.new ≡ layout_of_row all.now.cfg (below_in all.now.layouts.now all.now.n) all.now.types.now all.now.given.now offsets.old row }
{
    let r = row.ok_or(Refusal::MISREAD)?;
    let rule = rule_of(all.cfg, r.ty)?;
    by_rule(all, offsets, r, rule)
}

// The row of type i, from the rows below it. Here and below the two lists that are written are lent apart: of lists written through a struct
// of `&mut` nothing is known afterwards.
#[tactic(auto, unfolding(crate::specs::Records::record_at))]
fn add_record(all: &Declared<'_>, i: u32, offsets: &mut [u32], layouts: &mut [u32])
    ensures { both offsets.new layouts.new ≡ record_at all.now.cfg i all.now.types.now all.now.members.now all.now.given.now offsets.old layouts.old }
{
    let row = spirv::read_row(all.types, i);
    let below = Members {
        cfg: all.cfg,
        layouts,
        n: i,
        types: all.members,
        given: all.given,
    };
    let a = layout_of(&below, offsets, row);
    rows::write_row(layouts, i, a);
}

// The layouts of these types, and their members' offsets; 24, and nothing written, where the list of layouts is too short for them.
#[tactic(auto, unfolding(crate::specs::Records::filling))]
pub fn layouts(all: &Declared<'_>, offsets: &mut [u32], layouts: &mut [u32]) -> Result<(), Refusal>
    ensures { both result (both offsets.new layouts.new) ≡ filling all.now.cfg all.now.types.now all.now.members.now all.now.given.now offsets.old layouts.old all.now.n }
{
    // no `From`: a word fits
    if layouts.len() < 10 * all.n as usize {
        return Err(Refusal::SHORT_LIST);
    }
    // by number: each row is made of the rows below it, in the list that is written
    for i in 0..all.n {
        add_record(all, i, offsets, layouts);
    }
    Ok(())
}
