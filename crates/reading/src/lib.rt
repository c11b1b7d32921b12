// Reads a sheet into lent lists: first without writing, then, where nothing is refused and the lists are long enough, into them.
#![tactic(auto)]

ghost use Rattle.std.specs.Prelude.{◌≡◌, ◌≤◌, length, drop};
ghost use Rattle.std.proofs.lemmas.List.Edits.{sets};
ghost use Rattle.decimal.specs.Text.{split};
ghost use Rattle.sheet.specs.Grammar.{Setting};
ghost use Rattle.sheet.specs.Sheet.{read_lines, read_pieces};
ghost use Rattle.sheet.specs.Tables.{setting_words};
ghost use Rattle.reading.specs.Reads.{finished_by, empty_sheet, Passed, fits_by, ReadsInto};

use arith::refusal::Refusal;
use shapes::LayoutConfig;
use tally::Tally;

// What a pass comes to: the setting, and how many types and members there are. It is a tally without the place, which ends with the last line.
#[derive(Clone, Copy, Debug, PartialEq, Eq, Hash)]
pub struct Counts {
    pub setting: LayoutConfig,
    pub types: u32,
    pub members: u32,
}

// ---- the lines from the top

// Behind the last LF nothing may stand.
#[tactic(auto, unfolding(crate::specs::Reads::finished_by))]
fn finished(rest: usize, t: Tally) -> Result<Counts, Refusal>
    ensures { result ≡ finished_by rest t }
{
    if 0 < rest {
        return Err(Refusal::MISREAD);
    }
    Ok(Counts {
        setting: t.setting,
        types: t.types,
        members: t.members,
    })
}

// The lines from index `from` on, below a setting. A pass writes, or only judges: a flag, since two functions would hold the same loop twice, and with empty
// lists for the first pass in place of the flag reading takes 7 % longer (measured). The lists are lent apart, here and below, for the reason given in puts.
fn rest(
    s: &[u8],
    from: usize,
    g: LayoutConfig,
    types: &mut [u32],
    members: &mut [u32],
    given: &mut [u32],
    write: bool,
) -> Result<Counts, Refusal>
    requires { (length s.now ≤ 65536) × (from ≤ length s.now) }
    ensures { Passed write (read_lines (empty_sheet g) (Setting g) (split 10 (drop from s.now))) result types.old members.old given.old types.new members.new given.new }
{
    let mut t = tally::start(g);
    let mut at = from;
    // by place: what stands behind the last LF is judged too, and pieces of a split don't tell it from a line
    while let Some(line) = fields::line_at(s, at) {
        let l = lines::read_line(line, t.types);
        let next = tally::judge(t, l)?;
        if write {
            puts::put(line, l, t, types, members, given);
        }
        t = next;
        at += line.len() + 1;
    }
    finished(s.len() - at, t)
}

// All lines, line 1 first.
fn pass(
    s: &[u8],
    types: &mut [u32],
    members: &mut [u32],
    given: &mut [u32],
    write: bool,
) -> Result<Counts, Refusal>
    requires { length s.now ≤ 65536 }
    ensures { Passed write (read_pieces (split 10 s.now)) result types.old members.old given.old types.new members.new given.new }
{
    let line = fields::line_at(s, 0).ok_or(Refusal::MISREAD)?;
    let first = tally::judge_first(lines::read_line(line, 0))?;
    rest(
        s,
        line.len() + 1,
        first.setting,
        types,
        members,
        given,
        write,
    )
}

// ---- the whole

// The words of which `shapes::words::setting_of` makes the setting again: the sheet's lists are words, so that a table of C's can hold them.
fn put_setting(list: &mut [u32], g: LayoutConfig)
    ensures { list.new ≡ sets list.old 0 (setting_words g) }
{
    let words = [
        u32::from(g.ignore_legacy_align),
        g.min_aggregate_legacy_align,
        g.abstract_bool_size,
        g.abstract_bool_align,
        g.logical_ptr_size,
        g.logical_ptr_align,
    ];
    spirv::put_words(list, 0, &words);
}

// Lists of these lengths hold a sheet of so many types and members. Casts widen, and have no From.
#[tactic(auto, unfolding(crate::specs::Reads::fits_by))]
fn fits(n: Counts, setting: usize, types: usize, members: usize, given: usize) -> bool
    ensures { result ≡ fits_by setting types members given n.types n.members }
{
    let (ts, ms) = (n.types as usize, n.members as usize);
    6 <= setting && 6 * ts <= types && ms <= members && ms <= given
}

// Reads a sheet into the lists, and says how many types there are. Where it is refused, every list is as it was.
pub fn read_sheet(
    sheet: &[u8],
    setting: &mut [u32],
    types: &mut [u32],
    members: &mut [u32],
    given: &mut [u32],
) -> Result<u32, Refusal>
    ensures { ReadsInto sheet.now result setting.old types.old members.old given.old setting.new types.new members.new given.new }
{
    if 65536 < sheet.len() {
        return Err(Refusal::OVERSIZE);
    }
    let counts = pass(sheet, types, members, given, false)?;
    if !fits(
        counts,
        setting.len(),
        types.len(),
        members.len(),
        given.len(),
    ) {
        return Err(Refusal::SHORT_LIST);
    }
    pass(sheet, types, members, given, true)?;
    put_setting(setting, counts.setting);
    Ok(counts.types)
}
