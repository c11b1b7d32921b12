// Elements stored in a list one behind the other, and rows of them.
ghost use Rattle.std.specs.Prelude.{◌≡◌, ◌+◌, ◌*◌, ◌<◌, ◌≤◌, length, MatchOption};
ghost use Rattle.std.proofs.lemmas.List.Edits.{sets};
ghost use Rattle.arith.specs.Rows.{IsRow};

// The items from `at` on, where there is room for all. By number: a slice that is copied as a whole is a call of memmove, where it isn't known to lie apart
// from the list, and that is one name more that a host of the C library has to bring.
#[inline(always)]
fn put_all<T: Copy>(list: &mut [T], at: usize, items: &[T])
    requires { at + length items.now ≤ length list.old }
    ensures { list.new ≡ sets list.old at items.now }
{
    for i in 0..items.len() {
        list[at + i] = items[i];
    }
}

// The items from `at` on; what lies past the list's end is left out.
pub fn put<T: Copy>(list: &mut [T], at: usize, items: &[T])
    ensures { list.new ≡ sets list.old at items.now }
{
    // all items apart: where their number is known, such a copy is a few stores
    if items.len() <= list.len() && at <= list.len() - items.len() {
        put_all(list, at, items);
    } else if at < list.len() {
        let n = list.len() - at;
        put_all(list, at, &items[..n]);
    }
}

// Row i of a table whose rows have N items each; none where the table ends before it does.
pub fn row<T, const N: usize>(table: &[T], i: u32) -> Option<&[T; N]>
    ensures { MatchOption result (length table.now < N * i + N) (λ r. IsRow N table.now i r.now) }
{
    // here and below no `From`: the check proves that a word fits
    let at = N.checked_mul(i as usize)?;
    table.get(at..)?.first_chunk()
}

// Row i of such a table, written; what lies past the table's end is left out.
#[tactic(auto, using(crate::proofs::Stores::sets_past))]
pub fn put_row<T: Copy, const N: usize>(table: &mut [T], i: u32, row: &[T; N])
    ensures { table.new ≡ sets table.old (N * i) row.now }
{
    if let Some(at) = N.checked_mul(i as usize) {
        put(table, at, row);
    }
}
