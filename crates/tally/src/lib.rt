// What was read of a sheet so far, as counts, and what a line adds to it or is refused by.
#![tactic(auto)]

ghost use Rattle.std.specs.Prelude.{◌≡◌, ◌≤◌};
ghost use Rattle.spirv.specs.Decl.{before, is_struct};
ghost use Rattle.sheet.specs.Sheet.{good_setting};
ghost use Rattle.lines.specs.Says.{count_of};
ghost use Rattle.tally.specs.Counts.{row_with, row_by, Small, opened_by, start_tally, declared_by, asked_by, decorated_by, judged, set_by, judged_first};

use arith::refusal::Refusal;
use lines::{Ask, SheetLine};
use shapes::LayoutConfig;
use spirv::{DeclRow, Decoration, MemberDecoration, SpvType};
use std::cmp::Ordering;

// A sheet's limits: types, members of all structs, indices of a chain.
pub const MAX_TYPES: u32 = 256;

pub const MAX_MEMBERS: usize = 1_024;

// The words of as many types, six a type, and of their layouts, ten a type.
pub const TYPE_WORDS: usize = 1_536;

pub const LAYOUT_WORDS: usize = 2_560;

pub const MAX_INDICES: usize = 255;

// What stands above a line: a struct, a decoration of one, or another line. A struct's row has what its D lines come to.
// Three states: in two options a decoration could stand without its struct.
#[derive(Clone, Copy, Debug, PartialEq, Eq, Hash)]
pub enum Place {
    Closed,
    Open(DeclRow),
    After(DeclRow, MemberDecoration),
}

#[derive(Clone, Copy, Debug, PartialEq, Eq, Hash)]
pub struct Tally {
    pub setting: LayoutConfig,
    pub types: u32,
    pub members: u32,
    pub place: Place,
}

// ---- decorations

// The order of an AttrSet: by member, decoration, value. A function: with `<` in decorate's guard the check closes neither of its two cases (tried).
fn comes_before(a: MemberDecoration, b: MemberDecoration) -> bool
    ensures { result ≡ before a b }
{
    a < b
}

// A struct's row with a D line more: the first refusal stays.
#[tactic(auto, using(std::proofs::lemmas::Bool::Decides::nat_tests), unfolding(crate::specs::Counts::row_by))]
pub fn reduce(row: DeclRow, d: MemberDecoration) -> DeclRow
    requires { row.read ≤ 65536 }
    ensures { result ≡ row_by row d }
{
    if row.refusal != 0 {
        return row;
    }
    match d.decoration {
        Decoration::RowMajor => refused(row, Refusal::ROW_MAJOR),
        Decoration::Offset(_) => match d.member.cmp(&row.read) {
            Ordering::Less => refused(row, Refusal::OFFSET_REPEATED),
            Ordering::Equal => DeclRow {
                read: row.read + 1,
                ..row
            },
            Ordering::Greater => refused(row, Refusal::OFFSETS_MISSING),
        },
    }
}

fn refused(row: DeclRow, e: Refusal) -> DeclRow
    ensures { result ≡ row_with row e.number row.read }
{
    DeclRow {
        refusal: e.number,
        ..row
    }
}

// ---- lines

// Said once for two crates.
pub fn is_struct(ty: SpvType) -> bool
    ensures { result ≡ is_struct ty }
{
    matches!(ty, SpvType::Struct { .. })
}

// What stands above the line behind a type. The row is what puts::fresh_row makes of a struct: with that here, a type would be asked twice whether it is one.
#[tactic(auto, unfolding(crate::specs::Counts::opened_by))]
fn opened(ty: SpvType, start: u32, count: u32) -> Place
    ensures { result ≡ opened_by ty start count }
{
    if is_struct(ty) {
        return Place::Open(DeclRow {
            ty,
            start,
            count,
            refusal: 0,
            read: 0,
        });
    }
    Place::Closed
}

// The counts below the setting.
pub fn start(setting: LayoutConfig) -> Tally
    ensures { result ≡ start_tally setting }
{
    Tally {
        setting,
        types: 0,
        members: 0,
        place: Place::Closed,
    }
}

#[tactic(auto, using(std::proofs::lemmas::Bool::Decides::nat_tests), unfolding(crate::specs::Counts::declared_by))]
fn declare(t: Tally, ty: SpvType, count: usize) -> Result<Tally, Refusal>
    ensures { result ≡ declared_by t ty count }
{
    // widens; the two casts to u32 below fit by the bound. There is no From between u32 and usize
    let members = count.saturating_add(t.members as usize);
    if MAX_TYPES <= t.types || MAX_MEMBERS < members {
        return Err(Refusal::OVERSIZE);
    }
    Ok(Tally {
        types: t.types + 1,
        members: members as u32,
        place: opened(ty, t.members, count as u32),
        ..t
    })
}

#[tactic(auto, unfolding(crate::specs::Counts::decorated_by))]
fn decorate(t: Tally, d: MemberDecoration) -> Result<Tally, Refusal>
    requires { Small t }
    ensures { result ≡ decorated_by t t.place d }
{
    let row = match t.place {
        Place::Open(row) => row,
        Place::After(row, c) if comes_before(c, d) => row,
        _ => return Err(Refusal::MISREAD),
    };
    Ok(Tally {
        place: Place::After(reduce(row, d), d),
        ..t
    })
}

// How many indices a question has: only a chain has any.
pub fn count_of(a: Ask) -> usize
    ensures { result ≡ count_of a }
{
    match a {
        Ask::C { count, .. } => count,
        _ => 0,
    }
}

#[tactic(auto, using(std::proofs::lemmas::Bool::Decides::nat_tests), unfolding(crate::specs::Counts::asked_by))]
fn ask(t: Tally, count: usize) -> Result<Tally, Refusal>
    ensures { result ≡ asked_by t count }
{
    if MAX_INDICES < count {
        return Err(Refusal::OVERSIZE);
    }
    Ok(Tally {
        place: Place::Closed,
        ..t
    })
}

// A line below others, where it keeps its form. It takes what reading the line gave: that a line says nothing is one refusal among the others here.
#[tactic(auto, unfolding(crate::specs::Counts::judged))]
pub fn judge(t: Tally, line: Option<SheetLine>) -> Result<Tally, Refusal>
    requires { Small t }
    ensures { result ≡ judged t line }
{
    match line.ok_or(Refusal::MISREAD)? {
        SheetLine::Setting(_) => Err(Refusal::MISREAD),
        SheetLine::Declared { ty, count, .. } => declare(t, ty, count),
        SheetLine::Decorated(d) => decorate(t, d),
        SheetLine::Asked { ask: a, .. } => ask(t, count_of(a)),
    }
}

// min, balign and palign are powers of two.
fn good_setting(g: LayoutConfig) -> bool
    ensures { result ≡ good_setting g }
{
    arith::is_power_of_two(g.min_aggregate_legacy_align)
        && arith::is_power_of_two(g.abstract_bool_align)
        && arith::is_power_of_two(g.logical_ptr_align)
}

// The counts below a setting, where it is a good one.
#[tactic(auto, unfolding(crate::specs::Counts::set_by))]
fn set(g: LayoutConfig) -> Result<Tally, Refusal>
    ensures { result ≡ set_by g }
{
    good_setting(g)
        .then_some(start(g))
        .ok_or(Refusal::BAD_SETTING)
}

// Line 1.
#[tactic(auto, unfolding(crate::specs::Counts::judged_first))]
pub fn judge_first(line: Option<SheetLine>) -> Result<Tally, Refusal>
    ensures { result ≡ judged_first line }
{
    match line {
        Some(SheetLine::Setting(g)) => set(g),
        _ => Err(Refusal::MISREAD),
    }
}
