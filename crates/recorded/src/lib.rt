// A chain's steps as records that C reads, lowered into a slice of records that the caller lends; and the one number that C gets of any answer.
#![tactic(auto)]

ghost use Rattle.std.specs.Prelude.{◌≡◌, ◌≤◌, pos, neg_ℤ, length};
ghost use Rattle.arith.specs.Refusals.{in_room};
ghost use Rattle.steps.specs.Lists.{steps_in};
ghost use Rattle.tabled.specs.Chains.{chain_in};
ghost use Rattle.tabled.specs.InCode.{held_by};
ghost use Rattle.recorded.specs.Records.{indexed, record_of, records_over, Recorded};
ghost use Rattle.recorded.specs.Held.{Held};
ghost use Rattle.recorded.specs.Code.{code_of, Small};

use arith::refusal::Refusal;
use lower::QPtrOp;
use spirv::Index;
use steps::Steps;

// Op 1 is H, 2 B, 3 O, 4 D. The bytes are a constant offset's. An index of kind 0 is a known one, of kind 1 an unknown one. What a step does not have is 0.
// Op and kind are words, and no enums, since C reads them.
#[repr(C)]
#[derive(Clone, Copy, Default)]
pub struct QPtrChainStep {
    pub op: u32,
    pub bytes: i32,
    pub stride: u32,
    pub length: u32,
    pub index_kind: u32,
    pub index: u32,
}

// ---- the record of a step

// As `steps::with_index`, for a record: its fields have other names, and its bytes a sign.
fn with_index(op: u32, stride: u32, length: u32, i: Index) -> QPtrChainStep
    ensures { result ≡ indexed op stride length i }
{
    // with the two words of `spirv::encode_index` the check doesn't find the proof (tried)
    let (index_kind, index) = match i {
        Index::Known(w) => (0, w),
        Index::Unknown(v) => (1, v),
    };
    QPtrChainStep {
        op,
        stride,
        length,
        index_kind,
        index,
        ..QPtrChainStep::default()
    }
}

// No From: an impl with its law is longer, and says what the clause here says. Beside `steps::words_of`, since C's record has other fields: made from its words, the bytes would be made signed again, and the stride told from them by the kind.
#[tactic(auto, unfolding(crate::specs::Records::record_of))]
pub fn record_of(s: QPtrOp) -> QPtrChainStep
    ensures { result ≡ record_of s }
{
    match s {
        QPtrOp::HandleArrayIndex { index } => with_index(1, 0, 0, index),
        QPtrOp::BufferData => QPtrChainStep {
            op: 2,
            ..QPtrChainStep::default()
        },
        QPtrOp::Offset(bytes) => QPtrChainStep {
            op: 3,
            bytes,
            ..QPtrChainStep::default()
        },
        QPtrOp::DynOffset {
            stride,
            bound,
            index,
        } => with_index(4, stride, bound, index),
    }
}

// ---- the records of a chain's steps

// The first n into the slice.
fn write_records(records: &mut [QPtrChainStep], n: usize, steps: &Steps<'_>)
    requires { n ≤ length records.old }
    ensures { records.new ≡ records_over (steps_in steps.now.kinds.now steps.now.bytes.now steps.now.bounds.now steps.now.marks.now steps.now.indices.now n) records.old }
{
    // by index: of what is written through iter_mut a proof knows nothing
    for i in 0..n {
        records[i] = record_of(steps.at(i));
    }
}

// The steps that a walk left in five lists, as records; 24 where these don't fit. As `tabled::put`, but for the room and the writer: with one function over both, these two would be closures with contracts of their own.
fn put(
    walk: Result<usize, Refusal>,
    steps: &Steps<'_>,
    records: &mut [QPtrChainStep],
) -> Result<usize, Refusal>
    ensures { Held (in_room (length records.old) length (held_by walk steps.now.kinds.now steps.now.bytes.now steps.now.bounds.now steps.now.marks.now steps.now.indices.now)) result records.old records.new }
{
    let n = walk?;
    if records.len() < n {
        return Err(Refusal::SHORT_LIST);
    }
    write_records(records, n, steps);
    Ok(n)
}

// The steps of a chain over a table, and how many. A function of one call: inside `lower_access_chain` the proof of that call needs a law of its own (tried).
fn lower(
    records: &mut [QPtrChainStep],
    op: u32,
    ptr: u32,
    table: &[u32],
    chain: &[u8],
) -> Result<usize, Refusal>
    ensures { Held (chain_in (length records.old) table.now op ptr chain.now) result records.old records.new }
{
    tabled::lower_into(table, op, ptr, chain, records, put)
}

// ---- for C

// Minus the number of a refusal.
pub fn refusal(e: Refusal) -> i64
    ensures { result ≡ neg_ℤ (pos e.number) }
{
    -i64::from(e.number)
}

// A number of bytes, steps or words, or minus the number of a refusal.
pub fn code(a: Result<usize, Refusal>) -> i64
    requires { Small a }
    ensures { result ≡ code_of a }
{
    match a {
        // no From: a usize may be above i64; the check proves that it is not
        Ok(n) => n as i64,
        Err(e) => refusal(e),
    }
}

// The steps of a chain over a table into the slice, and how many; or minus the refusal, and the slice as it was.
pub fn lower_access_chain(
    steps: &mut [QPtrChainStep],
    op: u32,
    ptr: u32,
    table: &[u32],
    chain: &[u8],
) -> i64
    ensures { Recorded (chain_in (length steps.old) table.now op ptr chain.now) result steps.old steps.new }
{
    code(lower(steps, op, ptr, table, chain))
}
