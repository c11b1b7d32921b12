// A chain's steps as structs, in a slice of them that C lends.
ghost use Rattle.std.specs.Prelude.{length};
ghost use Rattle.tabled.specs.Chains.{chain_in};
ghost use Rattle.recorded.specs.Records.{Recorded};

use recorded::QPtrChainStep;

// The steps of a chain over a table, and how many; or minus the refusal, and the structs as they were. Beside `qptr_lower_chain`, which writes a step's five words as
// bytes: C has both, and these have fields of their own.
pub fn qptr_lower_chain_steps(
    table: &[u32],
    op: u32,
    ptr: u32,
    indices: &[u8],
    steps: &mut [QPtrChainStep],
) -> i64
    ensures { Recorded (chain_in (length steps.old) table.now op ptr indices.now) result steps.old steps.new }
{
    recorded::lower_access_chain(steps, op, ptr, table, indices)
}
