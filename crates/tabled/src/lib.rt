// Chains lowered over a table: indices come in as bytes, and steps go out as bytes.
#![tactic(auto)]

ghost use Rattle.std.specs.Prelude.{◌≡◌, ◌+◌, ◌*◌, ◌≤◌, min, length};
ghost use Rattle.arith.specs.Refusals.{in_room};
ghost use Rattle.arith.specs.InCode.{in_code};
ghost use Rattle.moves.specs.Written.{Wrote};
ghost use Rattle.chain.specs.Chains.{room_of};
ghost use Rattle.tabled.specs.Chains.{op_of, asked_in, chain_in, room_in, Lowered};
ghost use Rattle.tabled.specs.InCode.{walk_in, held_by, PutBy, Walked};

use arith::refusal::Refusal;
use spirv::ChainOp;
use steps::Steps;

// The op that a number is, if it is one: SPIR-V's numbers, as C hands them over. Beside `fields`' reader of an op, which goes
// by text. No TryFrom: an impl with its law is longer, and says what the clause here says.
#[tactic(auto, unfolding(crate::specs::Chains::op_of))]
fn op_of(op: u32) -> Option<ChainOp>
    ensures { result ≡ op_of op }
{
    match op {
        65 => Some(ChainOp::AccessChain),
        66 => Some(ChainOp::InBoundsAccessChain),
        67 => Some(ChainOp::PtrAccessChain),
        70 => Some(ChainOp::InBoundsPtrAccessChain),
        _ => None,
    }
}

// What is asked: a chain of an op, from a type that the table has, by at most 255 indices; or why not.
#[tactic(auto, using(crate::proofs::Laws::asking))]
pub fn ask(table: &[u32], op: u32, ptr: u32, chain: &[u8]) -> Result<ChainOp, Refusal>
    ensures { result ≡ in_code (asked_in table.now op ptr chain.now) }
{
    let asked = op_of(op).ok_or(Refusal::MISREAD)?;
    if !wire::formed(chain) || spirv::word_at(table, 0) <= ptr {
        return Err(Refusal::MISREAD);
    }
    if tally::MAX_INDICES < chain.len() / 8 {
        return Err(Refusal::OVERSIZE);
    }
    Ok(asked)
}

// ---- into five lists

// The steps of what is asked into five lists. The indices' words are read into a list of WORDS, so that little is cleared for a short chain.
// Nine parameters: what C asks, which stays four, since a struct of them would be made in each function for C and only be taken apart here; and five lists, lent
// apart as `steps::store` takes them. The bounds of WORDS and of STEPS are clauses here and below: Rattle has no const block to assert them.
pub fn walk_asked<const WORDS: usize>(
    table: &[u32],
    op: u32,
    ptr: u32,
    chain: &[u8],
    kinds: &mut [u32],
    bytes: &mut [u32],
    bounds: &mut [u32],
    marks: &mut [u32],
    indices: &mut [u32],
) -> Result<usize, Refusal>
    requires held { min (length chain.now) 2040 ≤ 4 * WORDS }
    requires few { WORDS ≤ 510 }
    ensures { Wrote 0 (walk_in (room_of kinds.old bytes.old bounds.old marks.old indices.old) table.now op ptr chain.now) result kinds.old bytes.old bounds.old marks.old indices.old kinds.new bytes.new bounds.new marks.new indices.new }
{
    let asked = ask(table, op, ptr, chain)?;
    let mut words = [0u32; WORDS];
    words::read_words(chain, &mut words);
    lowering::lower_access_chain(
        &flat::tables_in(table),
        asked,
        ptr,
        &words[..chain.len() / 4],
        kinds,
        bytes,
        bounds,
        marks,
        indices,
    )
}

// ---- as bytes

// The steps that a walk left in five lists, as bytes; 24 where these don't fit. It takes the walk's result, and no count: its contract is over that result, and so is that of `lower_into`.
fn put(walk: Result<usize, Refusal>, steps: &Steps<'_>, out: &mut [u8]) -> Result<usize, Refusal>
    ensures { Lowered (in_room (room_in out.old) length (held_by walk steps.now.kinds.now steps.now.bytes.now steps.now.bounds.now steps.now.marks.now steps.now.indices.now)) result out.old out.new }
{
    let n = walk?;
    if out.len() / 20 < n {
        return Err(Refusal::SHORT_LIST);
    }
    wire::put_steps(out, 0, steps, n);
    Ok(n)
}

// The bytes of 8 indices, for which short lists suffice: 244 bytes are cleared for these, and 7 KB for a longer chain.
const SHORT_CHAIN: usize = 64;

// A chain is lowered in lists of so many steps and words, and put. Six parameters, here and in `lower_into`: what C asks, the list, and who writes it. The five lists and the call stand in `pointing`, too: the lists have to be locals of who reads the steps, and in a struct nothing would be known of them after the call.
fn lower<
    const STEPS: usize,
    const WORDS: usize,
    T,
    F: Fn(Result<usize, Refusal>, &Steps<'_>, &mut [T]) -> Result<usize, Refusal>,
>(table: &[u32], op: u32, ptr: u32, chain: &[u8], out: &mut [T], put: F) -> Result<usize, Refusal>
    requires callable { F.IsAlwaysCallable put }
    requires held { min (length chain.now) 2040 ≤ 4 * WORDS }
    requires few { WORDS ≤ 510 }
    requires tied { WORDS + 2 ≡ 2 * STEPS }
    ensures { PutBy F.Fn put (walk_in STEPS table.now op ptr chain.now) out.old result out.new }
{
    let mut kinds = [0u32; STEPS];
    let mut bytes = [0u32; STEPS];
    let mut bounds = [0u32; STEPS];
    let mut marks = [0u32; STEPS];
    let mut indices = [0u32; STEPS];
    let walk = walk_asked::<WORDS>(
        table,
        op,
        ptr,
        chain,
        &mut kinds,
        &mut bytes,
        &mut bounds,
        &mut marks,
        &mut indices,
    );
    let steps = Steps {
        kinds: &kinds,
        bytes: &bytes,
        bounds: &bounds,
        marks: &marks,
        indices: &indices,
    };
    put(walk, &steps, out)
}

// The steps of a chain into a list, as `put` puts those that a walk left in five lists.
pub fn lower_into<T, F: Fn(Result<usize, Refusal>, &Steps<'_>, &mut [T]) -> Result<usize, Refusal>>(
    table: &[u32],
    op: u32,
    ptr: u32,
    chain: &[u8],
    out: &mut [T],
    put: F,
) -> Result<usize, Refusal>
    requires { F.IsAlwaysCallable put }
    ensures { Walked table.now op ptr chain.now λ walk. PutBy F.Fn put walk out.old result out.new }
{
    if chain.len() <= SHORT_CHAIN {
        return lower::<9, 16, T, F>(table, op, ptr, chain, out, put);
    }
    lower::<256, 510, T, F>(table, op, ptr, chain, out, put)
}

// The steps of a chain into `out`, 20 bytes each, and how many; or the refusal, and `out` as it was.
pub fn lower_chain(
    table: &[u32],
    op: u32,
    ptr: u32,
    chain: &[u8],
    out: &mut [u8],
) -> Result<usize, Refusal>
    ensures { Lowered (chain_in (room_in out.old) table.now op ptr chain.now) result out.old out.new }
{
    lower_into(table, op, ptr, chain, out, put)
}
