// Flat tables of words that a caller lends: entries of a fixed number of words (the stride), one after another from the start.
// Total: a word past the end loads as 0 and a store past the end does nothing, at every index. Nothing of music. Slices and strides, and no
// table type, since a caller lends words of any number (docs/TABLES.md).
#![tactic(auto)]

ghost use Rattle.std.specs.Prelude.{◌≡◌, ◌+◌, ◌*◌, ◌/◌, ◌%◌, ◌<◌, ◌≤◌, min, length, get_or, set};
ghost use Rattle.std.proofs.lemmas.List.Edits.{sets};
ghost use Rattle.tables.specs.Table.{entry, room, one_more};

// Of bytes `bin::ahead::byte` is the same line: in one for both the zero of each would be a parameter.
pub fn load(t: &[u32], at: usize) -> u32
    ensures { result ≡ get_or t.now at 0 }
{
    t.get(at).copied().unwrap_or(0)
}

pub fn store<T: Copy>(t: &mut [T], at: usize, item: T)
    ensures { t.new ≡ set t.old at item }
{
    // by an index: of a slice's `get_mut` the library promises the length alone, and the proof didn't close
    if at < t.len() {
        t[at] = item;
    }
}

// Items for which there is room: no test for each.
fn store_all<T: Copy>(t: &mut [T], at: usize, w: &[T])
    requires { at + length w.now ≤ length t.old }
    ensures { t.new ≡ sets t.old at w.now }
{
    // one by one, as below: an entry stored and read by `copy_from_slice` took 80 instructions, and takes 54 so
    for j in 0..w.len() {
        t[at + j] = w[j];
    }
}

// Items of which some may stand past the end.
fn store_some<T: Copy>(t: &mut [T], at: usize, w: &[T])
    ensures { t.new ≡ sets t.old at w.now }
{
    for j in 0..w.len() {
        store(t, at.saturating_add(j), w[j]);
    }
}

// Words, or other items, one after another from `at` on, as far as the table goes.
pub fn store_words<T: Copy>(t: &mut [T], at: usize, w: &[T])
    ensures { t.new ≡ sets t.old at w.now }
{
    if t.len() <= at {
        return;
    }
    if w.len() <= t.len() - at {
        store_all(t, at, w);
    } else {
        store_some(t, at, w);
    }
}

// Where entry `i` starts, or the table's end if it would start past that.
pub fn start_of(t: &[u32], i: usize, stride: usize) -> usize
    ensures { result ≡ min (i * stride) (length t.now) }
{
    i.saturating_mul(stride).min(t.len())
}

// One field: word `k` of entry `i`.
pub fn load_field(t: &[u32], i: usize, stride: usize, k: usize) -> u32
    ensures { result ≡ get_or t.now (i * stride + k) 0 }
{
    load(t, start_of(t, i, stride).saturating_add(k))
}

pub fn store_field(t: &mut [u32], i: usize, stride: usize, k: usize, word: u32)
    ensures { t.new ≡ set t.old (i * stride + k) word }
{
    let at = start_of(t, i, stride).saturating_add(k);
    store(t, at, word);
}

// The words of entry `i`; their number is the stride.
pub fn store_entry(t: &mut [u32], i: usize, w: &[u32])
    ensures { t.new ≡ sets t.old (i * length w.now) w.now }
{
    let at = start_of(t, i, w.len());
    store_words(t, at, w);
}

// The words of entry `i`, and none where the table does not hold it whole.
pub fn entry_of(t: &[u32], i: usize, stride: usize) -> &[u32]
    ensures { result.now ≡ entry t.now i stride }
{
    let at = start_of(t, i, stride);
    t[at..].get(..stride).unwrap_or(&[])
}

// How many whole entries a table has room for.
pub fn room_of(t: &[u32], stride: usize) -> usize
    ensures { result ≡ room t.now stride }
{
    t.len().checked_div(stride).unwrap_or(0)
}

// How many words to lend for so many entries.
pub fn words_for(count: u32, stride: u32) -> usize
    ensures { result ≡ count * stride }
{
    (count as usize) * (stride as usize)
}

// One more, and the largest word stays.
#[tactic(auto, unfolding(crate::specs::Table::one_more))]
pub fn up(n: u32) -> u32
    ensures { result ≡ one_more n }
{
    n.saturating_add(1)
}

// The low 32 bits of a number: the number itself where a word holds it.
pub fn low(x: usize) -> u32
    ensures { result ≡ x % 4294967296 }
{
    (x % 4294967296) as u32
}
