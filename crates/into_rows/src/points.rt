// The curve of a bend: gathered where its points stand in the file, and entered in the table of points.
ghost use Rattle.std.specs.Prelude.{◌≡◌, ◌+◌, ◌<◌, min, length, get_or};
ghost use Rattle.tables.specs.Table.{stores};
ghost use Rattle.entries.specs.Words.{point_stride, point_words};
ghost use Rattle.curve.specs.Slots.{shown};
ghost use Rattle.note.specs.Points.{word, bend_in};
ghost use Rattle.score.specs.Rows.{curve_of};
ghost use Rattle.into_rows.specs.Entry.{bent_of};

use curve::bend::Slots;
use entries::Entry;
use model::Cents;
use note::bend::Bend;

// What a row holds of its curve: how many points, and its height.
#[derive(Clone, Copy)]
pub struct Bent {
    pub count: u32,
    pub height: Option<Cents>,
}

const STRAIGHT: Bent = Bent {
    count: 0,
    height: None,
};

// The bytes of a point: its offset, its value, its vibrato.
const POINT: usize = 9;

// The byte `k` after a position; past the end of the file it is 0.
fn byte_after(s: &[u8], at: usize, k: usize) -> u32
    ensures { (result ≡ get_or s.now (at + k) 0) × (result < 256) }
{
    match s.get(at.saturating_add(k)) {
        Some(byte) => *byte as u32,
        None => 0,
    }
}

// The number of four bytes that stands `k` after a position.
fn word_after(s: &[u8], at: usize, k: usize) -> u32
    requires { k < 9 }
    ensures { result ≡ word s.now (at + k) }
{
    let a = byte_after(s, at, k);
    let b = byte_after(s, at, k + 1);
    let c = byte_after(s, at, k + 2);
    let d = byte_after(s, at, k + 3);
    a + 256 * (b + 256 * (c + 256 * d))
}

// Where the point after one at `at` stands. Past the end of the file all points are alike.
fn point_after(s: &[u8], at: usize) -> usize
    ensures { result ≡ min (at + 9) (length s.now) }
{
    at.saturating_add(POINT).min(s.len())
}

fn curve_of(s: &[u8], bend: Bend) -> Slots
    ensures { shown result ≡ curve_of (bend_in s.now bend) }
{
    let mut curve = Slots::new();
    let mut at = bend.start;
    for _ in 0..bend.count {
        curve.add(word_after(s, at, 0), word_after(s, at, 4));
        at = point_after(s, at);
    }
    curve.finish();
    curve
}

// From point number `first` on, as far as the table goes.
fn add_points(points: &mut [u32], first: u32, curve: &Slots)
    ensures { points.new ≡ stores point_words point_stride points.old first (shown curve.now) }
{
    for (i, point) in curve.points().enumerate() {
        point.store(points, first as usize + i);
    }
}

// A note without a bend, as most are, costs no curve.
#[tactic(auto, unfolding(curve::specs::Bend::curve_height), using(crate::proofs::Curves::no_curve))]
pub(crate) fn add_curve(s: &[u8], points: &mut [u32], first: u32, bend: Bend) -> Bent
    ensures points { points.new
        ≡ stores point_words point_stride points.old first (curve_of (bend_in s.now bend)) }
    ensures bent { result ≡ bent_of (curve_of (bend_in s.now bend)) }
{
    if bend.count == 0 {
        return STRAIGHT;
    }
    let curve = curve_of(s, bend);
    add_points(points, first, &curve);
    Bent {
        count: curve.count() as u32,
        height: curve.height(),
    }
}
