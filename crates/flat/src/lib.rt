// The table of a sheet for C: one list of 7,175 words, its parts one behind the other.
#![tactic(auto)]

ghost use Rattle.std.specs.Prelude.{◌≡◌};
ghost use Rattle.shapes.specs.Settings.{setting_of};
ghost use Rattle.flat.specs.Table.{TablesIn};
ghost use Rattle.flat.specs.Reads.{ReadsTable, stored_parts};

use arith::refusal::Refusal;
use records::Declared;
use shapes::rows;
use shapes::tables::{Layouts, Tables};

// Where the parts of a table begin, as specs/Table.antt has them: the number of types, the setting, the types, the members, their given offsets and those
// computed, the rows of layouts. Each part ends where the next begins, the last one with the table, whose length the header for C has too. All but
// COUNT_AT are u32, since a span goes by these; where a list is written or measured they are widened by `as`, for which there is no From.
const COUNT_AT: usize = 0;

const SETTING_AT: u32 = 1;

const TYPES_AT: u32 = 7;

const MEMBERS_AT: u32 = 1_543;

const GIVEN_AT: u32 = 2_567;

const OFFSETS_AT: u32 = 3_591;

const LAYOUTS_AT: u32 = 4_615;

const TABLE_WORDS: u32 = 7_175;

// Lays out the types, and stores all parts. Two lists: one is read, the other written. The setting's words, which `all` has as a struct, are those that
// the sheet was read into: to make them from the struct again would be a writer beside the reader's.
fn store(setting: &[u32], all: &Declared<'_>, table: &mut [u32])
    requires { all.now.cfg ≡ setting_of setting.now }
    ensures { table.new ≡ stored_parts all.now.n setting.now all.now.types.now all.now.members.now all.now.given.now table.old }
{
    let mut offsets = [0u32; tally::MAX_MEMBERS];
    let mut layouts = [0u32; tally::LAYOUT_WORDS];
    // never short: no sheet has more than 256 types
    let _ = records::layouts(all, &mut offsets, &mut layouts);
    spirv::put_word(table, COUNT_AT, all.n);
    spirv::put_words(table, SETTING_AT as usize, setting);
    spirv::put_words(table, TYPES_AT as usize, all.types);
    spirv::put_words(table, MEMBERS_AT as usize, all.members);
    spirv::put_words(table, GIVEN_AT as usize, all.given);
    spirv::put_words(table, OFFSETS_AT as usize, &offsets);
    spirv::put_words(table, LAYOUTS_AT as usize, &layouts);
}

// Reads a sheet into a table. Where it is refused, or the list is too short, the list is as it was.
pub fn read_table(sheet: &[u8], table: &mut [u32]) -> Result<u32, Refusal>
    ensures { ReadsTable sheet.now result table.old table.new }
{
    let mut setting = [0u32; 6];
    let mut types = [0u32; tally::TYPE_WORDS];
    let mut members = [0u32; tally::MAX_MEMBERS];
    let mut given = [0u32; tally::MAX_MEMBERS];
    // four lists, each lent by itself, since all are written: of a struct of such lists nothing is known after the call
    let n = reading::read_sheet(sheet, &mut setting, &mut types, &mut members, &mut given)?;
    if table.len() < TABLE_WORDS as usize {
        return Err(Refusal::SHORT_LIST);
    }
    let all = Declared {
        cfg: shapes::words::setting_of(&setting),
        n,
        types: &types,
        members: &members,
        given: &given,
    };
    store(&setting, &all, table);
    Ok(n)
}

// The parts of a table of any content and length: those of a short one are shorter. Inlined, so that a question finds those alone that it looks into.
#[inline(always)]
pub fn tables_in(table: &[u32]) -> Tables<'_>
    ensures { TablesIn table.now result }
{
    let layouts = Layouts {
        rows: rows::span(table, LAYOUTS_AT, TABLE_WORDS - LAYOUTS_AT),
        count: spirv::word_at(table, COUNT_AT),
        offsets: rows::span(table, OFFSETS_AT, LAYOUTS_AT - OFFSETS_AT),
        members: rows::span(table, MEMBERS_AT, GIVEN_AT - MEMBERS_AT),
    };
    Tables {
        cfg: shapes::words::setting_of(rows::span(table, SETTING_AT, TYPES_AT - SETTING_AT)),
        types: rows::span(table, TYPES_AT, MEMBERS_AT - TYPES_AT),
        layouts,
    }
}
