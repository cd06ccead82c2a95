// Durations: the codes of the file, and lengths.
ghost use Rattle.std.specs.Prelude.{◌≡◌};
ghost use Rattle.bin.specs.Signed.{signed};
ghost use Rattle.model.specs.Kinds.{duration_code, units_of};

use crate::Duration;

impl Duration {
    // Lengths in sixty-fourths of a whole note.
    pub const WHOLE: u32 = 64;

    pub const HALF: u32 = 32;

    pub const QUARTER: u32 = 16;

    pub const EIGHTH: u32 = 8;

    pub const SIXTEENTH: u32 = 4;

    pub const THIRTY_SECOND: u32 = 2;

    pub const SIXTY_FOURTH: u32 = 1;

    // The file's code, a byte in two's complement: 254 is -2 and 255 is -1. Every other code is a quarter.
    pub fn from_code(code: u8) -> Duration
        ensures { result ≡ duration_code (signed 128 code) }
    {
        match code {
            1 => Duration::Eighth,
            2 => Duration::Sixteenth,
            3 => Duration::ThirtySecond,
            4 => Duration::SixtyFourth,
            254 => Duration::Whole,
            255 => Duration::Half,
            _ => Duration::Quarter,
        }
    }

    pub fn units(self) -> u32
        ensures { result ≡ units_of self }
    {
        match self {
            Duration::Whole => Duration::WHOLE,
            Duration::Half => Duration::HALF,
            Duration::Quarter => Duration::QUARTER,
            Duration::Eighth => Duration::EIGHTH,
            Duration::Sixteenth => Duration::SIXTEENTH,
            Duration::ThirtySecond => Duration::THIRTY_SECOND,
            Duration::SixtyFourth => Duration::SIXTY_FOURTH,
        }
    }
}
