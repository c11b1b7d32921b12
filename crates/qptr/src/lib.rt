// The C functions: numbers and lent bytes for a host that links libqptr.a. A negative answer is minus the number of a refusal.
#![tactic(auto)]

pub mod step_structs;

ghost use Rattle.qptr.specs.Answered.{Answered};
ghost use Rattle.asked.specs.Asked.{layout_for, found_for, length_for, variable_for};
ghost use Rattle.qptr.specs.OverTable.{TableRead, ChainLowered, Got};

use recorded::code;

// The answer lines of a sheet, as `lay` writes them, and how many bytes they have; -24 and `out` as it was where they don't fit.
pub fn qptr_answer_sheet(sheet: &[u8], out: &mut [u8]) -> i64
    ensures { Answered sheet.now out.old result out.new }
{
    code(whole::answer_sheet(sheet, out))
}

// ---- over a table

// Reads a sheet into a table of at least 7,175 words, and how many types it has; -1, -2, -3, or -24 where the table is shorter, and it is as it was.
pub fn qptr_read_sheet(sheet: &[u8], table: &mut [u32]) -> i64
    ensures { TableRead sheet.now result table.old table.new }
{
    // a number of types is a u32, which an i64 holds: `code` would want it as a usize
    match flat::read_table(sheet, table) {
        Ok(n) => i64::from(n),
        Err(e) => recorded::refusal(e),
    }
}

// The steps of a chain over a table, 20 bytes each, and how many; or minus the refusal, and the bytes as they were.
pub fn qptr_lower_chain(table: &[u32], op: u32, ptr: u32, indices: &[u8], steps: &mut [u8]) -> i64
    ensures { ChainLowered table.now op ptr indices.now result steps.old steps.new }
{
    code(tabled::lower_chain(table, op, ptr, indices, steps))
}

// ---- the other questions over a table: words, all of them or none, and how many; or minus the refusal, and the list as it was. Table and list are lent side by side, as C has them

// The layout of a type: form (1 memory, 2 buffer, 3 opaque, 4 and 5 arrays of these), length, size, alignment, legacy alignment, runtime stride, stride of an array, then field offsets.
pub fn qptr_type_layout(table: &[u32], ty: u32, out: &mut [u32]) -> i64
    ensures { Got (layout_for table.now ty) result out.old out.new }
{
    code(asked::type_layout(table, ty, out))
}

// The components of a type that hold the bytes from start to end.
pub fn qptr_find_components(table: &[u32], ty: u32, start: u32, end: u32, out: &mut [u32]) -> i64
    ensures { Got (found_for table.now ty start end) result out.old out.new }
{
    code(asked::find_components(table, ty, start, end, out))
}

// The offset and the stride of a buffer's runtime array.
pub fn qptr_array_length(table: &[u32], ptr: u32, member: u32, out: &mut [u32]) -> i64
    ensures { Got (length_for table.now ptr member) result out.old out.new }
{
    code(asked::array_length(table, ptr, member, out))
}

// The size, alignment and legacy alignment of a local variable; no words where it is not of a fixed size.
pub fn qptr_local_variable(table: &[u32], ptr: u32, out: &mut [u32]) -> i64
    ensures { Got (variable_for table.now ptr) result out.old out.new }
{
    code(asked::local_variable(table, ptr, out))
}
