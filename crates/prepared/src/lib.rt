// The tables of a sheet, ready for questions: its bytes are read, and each type is laid out.
#![tactic(auto)]

ghost use Rattle.prepared.specs.Prepared.{Prepares};

use arith::refusal::Refusal;
use records::Declared;
use shapes::LayoutConfig;

// What tables that are ready have: the setting, and how many types there are.
#[derive(Clone, Copy)]
pub struct Ready {
    pub cfg: LayoutConfig,
    pub n: u32,
}

// Lists of 1,536, 1,024, 1,024 and 2,560 words hold the tables of every sheet: memory is fixed, and lists that are written are lent apart. A refusal leaves all as they were.
pub fn prepare(
    sheet: &[u8],
    types: &mut [u32],
    members: &mut [u32],
    offsets: &mut [u32],
    layouts: &mut [u32],
) -> Result<Ready, Refusal>
    ensures { Prepares sheet.now result types.old members.old offsets.old layouts.old types.new members.new offsets.new layouts.new }
{
    let mut setting = [0u32; 6];
    let mut given = [0u32; tally::MAX_MEMBERS];
    let n = reading::read_sheet(sheet, &mut setting, types, members, &mut given)?;
    let cfg = shapes::words::setting_of(&setting);
    let all = Declared {
        cfg,
        n,
        types,
        members,
        given: &given,
    };
    // where the list of layouts is too short for the types, it stays as it was
    let _ = records::layouts(&all, offsets, layouts);
    Ok(Ready { cfg, n })
}
