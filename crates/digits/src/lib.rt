// The digits alone, as C functions: an object that holds nothing but number printing and reading, so that the gate can see that it has no table.
#![tactic(auto)]

ghost use Rattle.std.specs.Prelude.{◌≡◌};
ghost use Rattle.text.specs.Printed.{Printed};
ghost use Rattle.decimal.specs.Decimal.{decimal, signed_decimal, read_number};
ghost use Rattle.digits.specs.Code.{code_of};

// The digits of n at the start of a list; how many there are.
#[unsafe(no_mangle)]
pub extern "C" fn digits_print_unsigned(out: &mut [u8], n: u32) -> usize
    ensures { Printed (decimal n) out.old 0 result out.new }
{
    decimal::print_unsigned(out, 0, n)
}

// With a sign where it is below 0.
#[unsafe(no_mangle)]
pub extern "C" fn digits_print_signed(out: &mut [u8], n: i32) -> usize
    ensures { Printed (signed_decimal n) out.old 0 result out.new }
{
    decimal::print_signed(out, 0, n)
}

// The number that bytes spell, or 4294967296 where they spell none: C has no Option, and no digits are read as that.
#[unsafe(no_mangle)]
pub extern "C" fn digits_read(f: &[u8]) -> u64
    ensures { result ≡ code_of (read_number f.now) }
{
    decimal::read_number(f).map_or(0x1_0000_0000, u64::from)
}
