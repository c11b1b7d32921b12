// The refusals of the table, by number.
ghost use Rattle.std.specs.Prelude.{◌≡◌};

// A number of the table. It is no enum: a row that C lends may hold any word in a refusal's place, and that word is handed on.
#[derive(Clone, Copy, Debug, PartialEq, Eq, Hash)]
pub struct Refusal {
    pub number: u32,
}

impl Refusal {
    // A line breaks the sheet's form.
    pub const MISREAD: Refusal = Refusal { number: 1 };

    // A count is above its limit.
    pub const OVERSIZE: Refusal = Refusal { number: 2 };

    // An alignment of the setting is no power of two.
    pub const BAD_SETTING: Refusal = Refusal { number: 3 };

    pub const UNSUPPORTED: Refusal = Refusal { number: 4 };

    // A width is no power of two from 8.
    pub const ODD_WIDTH: Refusal = Refusal { number: 5 };

    pub const ZERO_LENGTH: Refusal = Refusal { number: 6 };

    pub const SPECIALIZATION: Refusal = Refusal { number: 7 };

    pub const ZERO_STRIDE: Refusal = Refusal { number: 8 };

    // A handle array in an array.
    pub const NESTED_HANDLES: Refusal = Refusal { number: 9 };

    pub const UNSIZED_ELEMENT: Refusal = Refusal { number: 10 };

    pub const HANDLE_MEMBER: Refusal = Refusal { number: 11 };

    pub const ROW_MAJOR: Refusal = Refusal { number: 12 };

    // An offset of a member below the count read.
    pub const OFFSET_REPEATED: Refusal = Refusal { number: 13 };

    // An offset of a member above it, or fewer offsets than members.
    pub const OFFSETS_MISSING: Refusal = Refusal { number: 14 };

    pub const UNSIZED_MISPLACED: Refusal = Refusal { number: 15 };

    // Rounding, a sum, a product or a legacy multiple is above 32 bits.
    pub const OVERFLOW: Refusal = Refusal { number: 16 };

    // The two alignments round a size differently.
    pub const AMBIGUOUS: Refusal = Refusal { number: 17 };

    pub const NO_POINTER: Refusal = Refusal { number: 18 };

    // An index into a scalar or an opaque, or a range of a handle.
    pub const NO_PARTS: Refusal = Refusal { number: 19 };

    // A field's index is not known.
    pub const UNKNOWN_FIELD: Refusal = Refusal { number: 20 };

    pub const FIELD_OUTSIDE: Refusal = Refusal { number: 21 };

    // A field's offset is above 2147483647.
    pub const FAR_FIELD: Refusal = Refusal { number: 22 };

    // A merged offset is outside signed 32 bits.
    pub const STEP_OVERFLOW: Refusal = Refusal { number: 23 };

    // The answer is complete, and longer than the lent list.
    pub const SHORT_LIST: Refusal = Refusal { number: 24 };

    pub const NO_BUFFER: Refusal = Refusal { number: 25 };

    pub const NO_RUNTIME_ARRAY: Refusal = Refusal { number: 26 };

    // The runtime array doesn't begin where its block's size ends.
    pub const NOT_LAST: Refusal = Refusal { number: 27 };

    // A range's end is below its start.
    pub const REVERSED: Refusal = Refusal { number: 28 };
}

impl From<u32> for Refusal {
    ghost from_gives = { λ n e. e.number ≡ n };

    fn from(number: u32) -> Refusal {
        Refusal { number }
    }
}
