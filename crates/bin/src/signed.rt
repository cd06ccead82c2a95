// Two's complement numbers as signed ones, and back: a line of the library's for each width, whose contract names its half.
ghost use Rattle.std.specs.Prelude.{◌≡◌};
ghost use Rattle.format.specs.Fields.{less_one};
ghost use Rattle.bin.specs.Signed.{signed, unsigned};

pub fn to_i8(v: u8) -> i8
    ensures { result ≡ signed 128 v }
{
    v.cast_signed()
}

pub fn from_i8(k: i8) -> u8
    ensures { result ≡ unsigned 128 k }
{
    k.cast_unsigned()
}

pub fn to_i16(v: u16) -> i16
    ensures { result ≡ signed 32768 v }
{
    v.cast_signed()
}

pub fn from_i16(k: i16) -> u16
    ensures { result ≡ unsigned 32768 k }
{
    k.cast_unsigned()
}

pub fn to_i32(v: u32) -> i32
    ensures { result ≡ signed 2147483648 v }
{
    v.cast_signed()
}

pub fn from_i32(k: i32) -> u32
    ensures { result ≡ unsigned 2147483648 k }
{
    k.cast_unsigned()
}

// One less, and never below 0: a value below 1 is 0, the lowest number as any other.
#[tactic(auto, unfolding(format::specs::Fields::less_one))]
pub fn less_one(v: u32) -> u32
    ensures { result ≡ less_one v }
{
    if v < crate::NEGATIVE {
        return v.saturating_sub(1);
    }
    0
}
