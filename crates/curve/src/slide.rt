// Slides and slide marks, from the slide byte of a note.
ghost use Rattle.std.specs.Prelude.{◌≡◌};
ghost use Rattle.curve.specs.Slide.{bits_slide, kind_slide, slide_of};

// What a slide byte says.
#[derive(Clone, Copy, PartialEq, Eq)]
pub struct SlideEffect {
    pub slide: bool, // a shift or legato slide
    pub falloff: bool,
    pub doit: bool,
    pub scoop: bool,
    pub plop: bool,
    pub lost: bool, // it names a slide that is not carried over: a loss
}

// From v500 on the byte is a set of bits.
#[tactic(auto, unfolding(format::specs::Prog::has))]
fn bits_slide(bits: u8) -> SlideEffect
    ensures { result ≡ bits_slide bits }
{
    SlideEffect {
        slide: bits & 0x03 != 0,
        falloff: bits & 0x04 != 0,
        doit: bits & 0x08 != 0,
        scoop: bits & 0x10 != 0,
        plop: bits & 0x20 != 0,
        lost: bits & 0xC0 != 0,
    }
}

// Before v500 the byte is a kind from -2 to 4.
fn kind_slide(kind: u8) -> SlideEffect
    ensures { result ≡ kind_slide kind }
{
    SlideEffect {
        slide: kind == 1 || kind == 2,
        falloff: kind == 3,
        doit: kind == 4,
        scoop: kind == 0xff,
        plop: kind == 0xfe,
        lost: 4 < kind && kind < 0xfe,
    }
}

// What the slide byte of a note says in a file of that version.
#[tactic(auto, unfolding(crate::specs::Slide::slide_of))]
pub fn slide_of(version: u32, byte: u8) -> SlideEffect
    ensures { result ≡ slide_of version byte }
{
    if version < 500 {
        kind_slide(byte)
    } else {
        bits_slide(byte)
    }
}
