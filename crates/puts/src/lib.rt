// What a line of a sheet writes into the lent lists, at the counts of the lines above it.
#![tactic(auto)]

ghost use Rattle.std.specs.Prelude.{◌≡◌, ◌+◌, ◌≤◌, replicate};
ghost use Rattle.std.proofs.lemmas.List.Edits.{sets};
ghost use Rattle.puts.specs.Puts.{offset_words, fresh_row, Put, Putable};

use lines::SheetLine;
use spirv::{DeclRow, Decoration, MemberDecoration, SpvType};
use tally::{Place, Tally};

// The three lists that are written, types, members and given, are lent apart: a struct of `&mut` lists proves inside the functions that take it, but of its
// maker's lists nothing is known afterwards. Casts of u32 to usize widen, and have no From.

// n zeros from `first` on.
fn put_zeros(list: &mut [u32], first: u32, n: usize)
    ensures { list.new ≡ sets list.old first (replicate n 0) }
{
    let at = first as usize;
    if at < list.len() {
        let room = n.min(list.len() - at);
        list[at..at + room].fill(0);
    }
}

// The offset that a D line gives, at its place among the struct's, where it counts as read and there is such a member.
#[tactic(auto, using(std::proofs::lemmas::Bool::Decides::nat_tests), unfolding(crate::specs::Puts::offset_words))]
fn put_offset(list: &mut [u32], row: DeclRow, d: MemberDecoration)
    ensures { list.new ≡ sets list.old (row.start + row.read) (offset_words row d) }
{
    if row.refusal != 0 || d.member != row.read || row.count <= row.read {
        return;
    }
    if let Decoration::Offset(v) = d.decoration {
        lines::put_at(list, row.start as usize, row.read as usize, v);
    }
}

// The row of a type that no D line follows so far.
#[tactic(auto, unfolding(crate::specs::Puts::fresh_row))]
fn fresh_row(ty: SpvType, start: u32, count: u32) -> DeclRow
    ensures { result ≡ fresh_row ty start count }
{
    let (start, count) = if tally::is_struct(ty) {
        (start, count)
    } else {
        (0, 0)
    };
    DeclRow {
        ty,
        start,
        count,
        refusal: 0,
        read: 0,
    }
}

// What a line that is not refused writes.
pub fn put(
    line: &[u8],
    l: Option<SheetLine>,
    t: Tally,
    types: &mut [u32],
    members: &mut [u32],
    given: &mut [u32],
)
    requires { Putable t l }
    ensures { Put t line.now l types.old members.old given.old types.new members.new given.new }
{
    match l {
        // a type's row, its members, and zeros for their offsets
        Some(SheetLine::Declared { ty, count, at }) => {
            // fits, by what is required
            let row = fresh_row(ty, t.members, count as u32);
            spirv::write_row(types, t.types, row);
            lines::put_members(line, at, t.types, members, t.members as usize);
            put_zeros(given, t.members, count);
        }
        // the last struct's row anew, and its offset
        Some(SheetLine::Decorated(d)) => {
            if let Place::Open(row) | Place::After(row, _) = t.place {
                spirv::write_row(types, t.types - 1, tally::reduce(row, d));
                put_offset(given, row, d);
            }
        }
        _ => {}
    }
}
