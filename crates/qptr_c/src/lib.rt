// The symbols of libqptr.a: each C function of qptr under its name, with its clauses, for a host that links the archive.
// They stand apart, one call each: a crate is a library or a static library, and what they do is proved in the library.
#![tactic(auto)]

ghost use Rattle.std.specs.Prelude.{length};
ghost use Rattle.asked.specs.Asked.{layout_for, found_for, length_for, variable_for};
ghost use Rattle.tabled.specs.Chains.{chain_in};
ghost use Rattle.recorded.specs.Records.{Recorded};
ghost use Rattle.qptr.specs.Answered.{Answered};
ghost use Rattle.qptr.specs.OverTable.{TableRead, ChainLowered, Got};

use recorded::QPtrChainStep;

// The answer lines of a sheet, as `lay` writes them, and how many bytes they have; -24 and `out` as it was where they don't fit.
#[unsafe(no_mangle)]
pub extern "C" fn qptr_answer_sheet(sheet: &[u8], out: &mut [u8]) -> i64
    ensures { Answered sheet.now out.old result out.new }
{
    qptr::qptr_answer_sheet(sheet, out)
}

// ---- over a table

// Reads a sheet into a table of at least 7,175 words, and how many types it has; -1, -2, -3, or -24 where the table is shorter, and it is as it was.
#[unsafe(no_mangle)]
pub extern "C" fn qptr_read_sheet(sheet: &[u8], table: &mut [u32]) -> i64
    ensures { TableRead sheet.now result table.old table.new }
{
    qptr::qptr_read_sheet(sheet, table)
}

// The steps of a chain over a table, 20 bytes each, and how many; or minus the refusal, and the bytes as they were.
#[unsafe(no_mangle)]
pub extern "C" fn qptr_lower_chain(
    table: &[u32],
    op: u32,
    ptr: u32,
    indices: &[u8],
    steps: &mut [u8],
) -> i64
    ensures { ChainLowered table.now op ptr indices.now result steps.old steps.new }
{
    qptr::qptr_lower_chain(table, op, ptr, indices, steps)
}

// The steps of a chain over a table, and how many; or minus the refusal, and the structs as they were.
#[unsafe(no_mangle)]
pub extern "C" fn qptr_lower_chain_steps(
    table: &[u32],
    op: u32,
    ptr: u32,
    indices: &[u8],
    steps: &mut [QPtrChainStep],
) -> i64
    ensures { Recorded (chain_in (length steps.old) table.now op ptr indices.now) result steps.old steps.new }
{
    qptr::step_structs::qptr_lower_chain_steps(table, op, ptr, indices, steps)
}

// ---- the other questions over a table: words, all of them or none, and how many; or minus the refusal, and the list as it was. Table and list are lent side by side, as C has them.

// The layout of a type: form (1 memory, 2 buffer, 3 opaque, 4 and 5 arrays of these), length, size, alignment, legacy alignment, runtime stride, stride of an array, then field offsets.
#[unsafe(no_mangle)]
pub extern "C" fn qptr_type_layout(table: &[u32], ty: u32, out: &mut [u32]) -> i64
    ensures { Got (layout_for table.now ty) result out.old out.new }
{
    qptr::qptr_type_layout(table, ty, out)
}

// The components of a type that hold the bytes from start to end.
#[unsafe(no_mangle)]
pub extern "C" fn qptr_find_components(
    table: &[u32],
    ty: u32,
    start: u32,
    end: u32,
    out: &mut [u32],
) -> i64
    ensures { Got (found_for table.now ty start end) result out.old out.new }
{
    qptr::qptr_find_components(table, ty, start, end, out)
}

// The offset and the stride of a buffer's runtime array.
#[unsafe(no_mangle)]
pub extern "C" fn qptr_array_length(table: &[u32], ptr: u32, member: u32, out: &mut [u32]) -> i64
    ensures { Got (length_for table.now ptr member) result out.old out.new }
{
    qptr::qptr_array_length(table, ptr, member, out)
}

// The size, alignment and legacy alignment of a local variable; no words where it is not of a fixed size.
#[unsafe(no_mangle)]
pub extern "C" fn qptr_local_variable(table: &[u32], ptr: u32, out: &mut [u32]) -> i64
    ensures { Got (variable_for table.now ptr) result out.old out.new }
{
    qptr::qptr_local_variable(table, ptr, out)
}
