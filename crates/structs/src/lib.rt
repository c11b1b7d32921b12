// The struct rule of layout_of: members by span, what their decorations come to, then offsets, given or in turn, and size.
#![tactic(auto)]

ghost use Rattle.std.specs.Prelude.{◌≡◌, ◌+◌, ◌≤◌, length, drop};
ghost use Rattle.std.proofs.lemmas.List.Edits.{sets};
ghost use Rattle.arith.specs.InCode.{in_code};
ghost use Rattle.arith.specs.Pairs.{both};
ghost use Rattle.rules.specs.Rules.{with_parts};
ghost use Rattle.shapes.specs.Spans.{answer_by, itself};
ghost use Rattle.layout.specs.Structs.{member_layouts, no_members, final_size};
ghost use Rattle.structs.specs.Steps.{mapped, passes, numbers_of, member_of, SaysStep, step_given, step_in_turn, extent_in, held_extent, joined, held_spot, step_of, extent_of, offsets_of};
ghost use Rattle.structs.specs.Rows.{below_in, decorations_of, with_size, memory_alone, Places, memory_of, span_within, block_or, fields_at, struct_of_row, struct_both};

use arith::refusal::Refusal;
use shapes::{
    Components, Handle, LayoutConfig, MaybeDynMemLayout, MemLayout, MemTypeLayout, TypeLayout, rows,
};
use spirv::DeclRow;

// A member's offset, and what the members then take up.
#[derive(Clone, Copy, Debug, PartialEq, Eq, Hash)]
pub struct Placed {
    pub offset: u32,
    pub extent: MaybeDynMemLayout,
}

// Members of structs, of one or of all, their types and given offsets, which are as many or none, beside the setting and the layouts of the first n types, in a
// list of a fixed size. `records::Declared` has the types of a sheet in
// their place; and it is no `Layouts`, whose offsets are the list that is being written.
#[derive(Clone, Copy)]
pub struct Members<'a> {
    pub cfg: LayoutConfig,
    pub layouts: &'a [u32],
    pub n: u32,
    pub types: &'a [u32],
    pub given: &'a [u32],
}

// ---- one member

// Its own refusal, then 11 of a handle.
#[tactic(auto, unfolding(arith::proofs::Opened::opened, crate::specs::Steps::member_of))]
pub fn member_of(a: Result<TypeLayout, Refusal>) -> Result<MaybeDynMemLayout, Refusal>
    ensures { result ≡ in_code (mapped numbers_of (member_of (answer_by itself a))) }
{
    match a? {
        TypeLayout::Concrete(m) => Ok(m.mem),
        _ => Err(Refusal::HANDLE_MEMBER),
    }
}

// With a member more: this size, the largest alignments, and the runtime stride of either.
fn with_member(x: MaybeDynMemLayout, size: u32, m: MaybeDynMemLayout) -> MaybeDynMemLayout
    ensures { result ≡ joined x size m }
{
    let a = x.fixed_base;
    let b = m.fixed_base;
    MaybeDynMemLayout {
        fixed_base: MemLayout {
            align: a.align.max(b.align),
            legacy_align: a.legacy_align.max(b.legacy_align),
            size,
        },
        dyn_unit_stride: x.dyn_unit_stride.max(m.dyn_unit_stride),
    }
}

// At a given offset: overflow comes before 15.
#[tactic(auto, unfolding(arith::proofs::Opened::opened, crate::specs::Steps::step_given))]
fn step_given(offset: u32, x: MaybeDynMemLayout, m: MaybeDynMemLayout) -> Result<Placed, Refusal>
    ensures { SaysStep result (λ parts. step_given offset (extent_in x) (with_parts m parts)) }
{
    let end = arith::sum(offset, m.fixed_base.size)?;
    if x.dyn_unit_stride == 0 || m.dyn_unit_stride == 0 {
        let extent = with_member(x, x.fixed_base.size.max(end), m);
        Ok(Placed { offset, extent })
    } else {
        Err(Refusal::UNSIZED_MISPLACED)
    }
}

// In turn: 15 after a runtime-sized one, rounding, then the end.
#[tactic(auto, unfolding(arith::proofs::Opened::opened, crate::specs::Steps::step_in_turn))]
fn step_in_turn(
    cfg: LayoutConfig,
    x: MaybeDynMemLayout,
    m: MaybeDynMemLayout,
) -> Result<Placed, Refusal>
    ensures { SaysStep result (λ parts. step_in_turn cfg (extent_in x) (with_parts m parts)) }
{
    if x.dyn_unit_stride != 0 {
        return Err(Refusal::UNSIZED_MISPLACED);
    }
    let offset = rules::round_both(cfg, x.fixed_base.size, m)?;
    let end = arith::sum(offset, m.fixed_base.size)?;
    let extent = with_member(x, end, m);
    Ok(Placed { offset, extent })
}

fn no_members(cfg: LayoutConfig) -> MaybeDynMemLayout
    ensures { result ≡ held_extent (no_members cfg) }
{
    MaybeDynMemLayout {
        fixed_base: MemLayout {
            align: 1,
            legacy_align: cfg.min_aggregate_legacy_align,
            size: 0,
        },
        dyn_unit_stride: 0,
    }
}

// ---- the struct

// Without a runtime-sized part size is rounded to align.
#[tactic(auto, unfolding(layout::specs::Structs::final_size))]
fn final_size(x: MaybeDynMemLayout) -> Result<u32, Refusal>
    ensures { result ≡ in_code (final_size (extent_in x)) }
{
    if x.dyn_unit_stride == 0 {
        arith::align_to(x.fixed_base.size, x.fixed_base.align)
    } else {
        Ok(x.fixed_base.size)
    }
}

// What the D lines come to, and as many offsets as members, if any.
#[tactic(auto, unfolding(arith::proofs::Opened::opened, crate::specs::Rows::decorations_of))]
fn check_decorations(r: DeclRow) -> Result<(), Refusal>
    ensures { result ≡ in_code (decorations_of r) }
{
    if r.refusal != 0 {
        return Err(Refusal::from(r.refusal));
    }
    if r.read == 0 || r.read == r.count {
        Ok(())
    } else {
        Err(Refusal::OFFSETS_MISSING)
    }
}

fn sized(x: MaybeDynMemLayout, size: u32) -> MaybeDynMemLayout
    ensures { result ≡ with_size x size }
{
    MaybeDynMemLayout {
        fixed_base: MemLayout {
            size,
            ..x.fixed_base
        },
        ..x
    }
}

impl Members<'_> {
    // That of type t, of the first n types.
    fn member_at(&self, t: u32) -> Result<MaybeDynMemLayout, Refusal>
        ensures { result ≡ in_code (mapped numbers_of (member_of (below_in self.now.layouts.now self.now.n t))) }
    {
        member_of(rows::answer_at(self.layouts, self.n, t))
    }

    // Member i, of type t, at its given offset if there is one.
    #[tactic(auto, unfolding(arith::proofs::Opened::opened, crate::specs::Steps::step_of))]
    fn step_at(&self, i: usize, t: u32, x: MaybeDynMemLayout) -> Result<Placed, Refusal>
        ensures { result ≡ in_code (mapped held_spot (step_of self.now.cfg (below_in self.now.layouts.now self.now.n) (drop i self.now.given.now) (extent_in x) t)) }
    {
        let m = self.member_at(t)?;
        match self.given.get(i) {
            Some(offset) => step_given(*offset, x, m),
            None => step_in_turn(self.cfg, x, m),
        }
    }

    // ---- all members

    // The members' own refusals, in order.
    #[tactic(auto, using(crate::proofs::Walk::check_end))]
    fn check_members(&self) -> Result<(), Refusal>
        ensures { result ≡ in_code (passes (member_layouts (below_in self.now.layouts.now self.now.n) self.now.types.now)) }
    {
        for t in self.types {
            self.member_at(*t)?;
        }
        Ok(())
    }

    // What the members take up.
    #[tactic(auto, using(crate::proofs::Walk::extent_next, crate::proofs::Walk::extent_stop, crate::proofs::Walk::extent_end))]
    fn extent(&self) -> Result<MaybeDynMemLayout, Refusal>
        ensures { result ≡ in_code (mapped held_extent (extent_of self.now.cfg (below_in self.now.layouts.now self.now.n) self.now.given.now (no_members self.now.cfg) self.now.types.now)) }
    {
        let mut x = no_members(self.cfg);
        for (i, t) in self.types.iter().enumerate() {
            x = self.step_at(i, *t, x)?.extent;
        }
        Ok(x)
    }

    // Where offsets are given, there must be one per member.
    #[tactic(auto, using(crate::proofs::Memory::placed_by, crate::proofs::Memory::not_placed))]
    fn place(&self) -> Result<MaybeDynMemLayout, Refusal>
        ensures { Places result self.now.cfg (below_in self.now.layouts.now self.now.n) self.now.types.now self.now.given.now }
    {
        let count = self.given.len();
        if count == 0 || count == self.types.len() {
            self.extent()
        } else {
            Err(Refusal::OFFSETS_MISSING)
        }
    }

    // Their offsets, written from `at` on, up to the first member that is refused. The walk of `extent` again, since a refusal leaves the list as it was.
    #[tactic(auto, using(crate::proofs::Walk::offsets_next, crate::proofs::Walk::offsets_stop, crate::proofs::Walk::offsets_end))]
    fn write_offsets(&self, offsets: &mut [u32], at: usize)
        requires { at + length self.now.types.now ≤ length offsets.old }
        ensures { offsets.new ≡ sets offsets.old at (offsets_of self.now.cfg (below_in self.now.layouts.now self.now.n) self.now.given.now (no_members self.now.cfg) self.now.types.now) }
    {
        let mut x = no_members(self.cfg);
        for (i, t) in self.types.iter().enumerate() {
            let Ok(member) = self.step_at(i, *t, x) else {
                return;
            };
            // by index: of what is written through iter_mut a proof knows nothing
            offsets[at + i] = member.offset;
            x = member.extent;
        }
    }

    // The memory of the struct.
    #[tactic(auto, unfolding(arith::proofs::Opened::opened, crate::specs::Rows::memory_of))]
    fn memory(&self, r: DeclRow) -> Result<MaybeDynMemLayout, Refusal>
        ensures { result ≡ in_code (mapped memory_alone (memory_of self.now.cfg (below_in self.now.layouts.now self.now.n) self.now.types.now self.now.given.now r)) }
    {
        self.check_members()?;
        check_decorations(r)?;
        let x = self.place()?;
        Ok(sized(x, final_size(x)?))
    }
}

// The span lies within lists of these lengths. `as usize`, here and below, widens: there is no `From` for it.
fn within(r: DeclRow, members: usize, given: usize, offsets: usize) -> bool
    ensures { result ≡ span_within r members given offsets }
{
    let end = r.start as usize + r.count as usize;
    end <= members && end <= given && end <= offsets
}

// With Block it is a buffer handle. The flag is that of `SpvType::Struct`, known where the rule is picked; two functions would say the rest twice.
fn block_or(block: bool, r: DeclRow, mem: MaybeDynMemLayout) -> TypeLayout
    ensures { result ≡ block_or block (fields_at r mem) }
{
    let components = Components::Fields {
        start: r.start,
        count: r.count,
    };
    let m = MemTypeLayout { mem, components };
    if block {
        TypeLayout::Handle(Handle::Buffer(m))
    } else {
        TypeLayout::Concrete(m)
    }
}

// A struct by its row; its members' offsets are written only where it is not refused.
#[tactic(auto, unfolding(arith::proofs::Opened::opened, crate::specs::Rows::struct_of_row, crate::specs::Rows::struct_both))]
pub fn struct_layout(
    all: &Members<'_>,
    offsets: &mut [u32],
    block: bool,
    r: DeclRow,
) -> Result<TypeLayout, Refusal>
    ensures { both result offsets.new ≡ struct_both block r offsets.old (struct_of_row all.now.cfg (below_in all.now.layouts.now all.now.n) all.now.types.now all.now.given.now (length offsets.old) r) }
{
    if !within(r, all.types.len(), all.given.len(), offsets.len()) {
        return Err(Refusal::MISREAD);
    }
    let types = rows::span(all.types, r.start, r.count);
    let given = rows::span(all.given, r.start, r.read);
    let own = Members {
        types,
        given,
        ..*all
    };
    let mem = own.memory(r)?;
    own.write_offsets(offsets, r.start as usize);
    Ok(block_or(block, r, mem))
}
