// The frets that a voice remembers, lent: document 01, "The fret memory: first by value, then a thin form that changes one lent
// memory, as `&mut VoiceState` does". `with_fret` makes the change, and whoever has no memory lent to it calls `remembered`.
#![tactic(auto)]

ghost use Rattle.std.specs.Prelude.{◌≡◌};
ghost use Rattle.memory.specs.Change.{changed};

// By string, in file order, each as its word in a voice.
#[derive(Clone, Copy)]
pub struct VoiceState {
    pub frets: [u32; 7],
}

// By value. A string past the seventh is none that is remembered: the memory stays as it was.
pub fn with_fret(mut state: VoiceState, string: usize, fret: u8) -> VoiceState
    ensures { result ≡ changed state string fret }
{
    if string < state.frets.len() {
        state.frets[string] = u32::from(fret) + 1;
    }
    state
}

// The memory that is lent changes where it stands.
pub fn remember(state: &mut VoiceState, string: usize, fret: u8)
    ensures { state.new ≡ changed state.old string fret }
{
    *state = with_fret(*state, string, fret);
}

// Lends a memory of its own: neither parameter nor result is a reference.
pub fn remembered(mut state: VoiceState, string: usize, fret: u8) -> VoiceState
    ensures { result ≡ changed state string fret }
{
    remember(&mut state, string, fret);
    state
}
