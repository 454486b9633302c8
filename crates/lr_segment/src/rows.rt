//! Rows of a segment in the whole image.

ghost use Rattle.std.specs.Prelude.{◌≡◌, ◌+◌, ◌-◌, ◌*◌, ◌^◌, ◌<◌, ◌≤◌, ℕ, true, false, length, slice_index};
ghost use Rattle.std.specs.Prelude.{slice_index_or};
ghost use Rattle.lr_segment.specs.Rows.{IsCovered, IsOverwritten};

/// Where a segment stands in the whole image.
#[derive(Clone, Copy)]
pub(crate) struct Place {
    /// The columns of the whole image.
    pub whole: usize,
    pub column: usize,
    pub line: usize,
    /// The columns of the segment.
    pub width: usize,
}

/// Writes this many lines of a segment over the pixels of the whole image, and notes that they are covered.
pub(crate) fn put_lines(
    pixels: &mut [u16],
    covered: &mut [bool],
    place: Place,
    segment: &[u16],
    lines: usize,
)
    requires few { length pixels.old < 2 ^ 32 }
    requires same { length covered.old ≡ length pixels.old }
    requires some { 1 ≤ place.whole }
    requires columns { place.column + place.width ≤ place.whole }
    requires lines { (place.line + lines) * place.whole ≤ length pixels.old }
    requires segment { length segment.now ≡ place.width * lines }
    requires small { length segment.now < 2 ^ 32 }
    ensures pixels { IsOverwritten place lines segment.now pixels.old pixels.new }
    ensures covered { IsCovered place lines covered.old covered.new }
{
    for line in 0..lines {
        let from = line * place.width;
        let to = (place.line + line) * place.whole + place.column;
        put_row(pixels, to, &segment[from..from + place.width]);
        cover_row(covered, to, place.width);
    }
}

/// Writes a row over the pixels from a place on.
fn put_row(pixels: &mut [u16], place: usize, row: &[u16])
    requires { place + length row.now ≤ length pixels.old }
    ensures row { (k : ℕ) → place ≤ k → k < place + length row.now
        → slice_index pixels.new k ≡ slice_index row.now (k - place) }
    ensures before { (k : ℕ) → k < place → slice_index pixels.new k ≡ slice_index pixels.old k }
    ensures after { (k : ℕ) → place + length row.now ≤ k → slice_index pixels.new k ≡ slice_index pixels.old k }
{
    pixels[place..place + row.len()].copy_from_slice(row);
}

/// Notes that this many places from one on are covered.
fn cover_row(covered: &mut [bool], place: usize, count: usize)
    requires { place + count ≤ length covered.old }
    ensures row { (k : ℕ) → place ≤ k → k < place + count → slice_index_or covered.new k false ≡ true }
    ensures before { (k : ℕ) → k < place → slice_index_or covered.new k false ≡ slice_index_or covered.old k false }
    ensures after { (k : ℕ) → place + count ≤ k
        → slice_index_or covered.new k false ≡ slice_index_or covered.old k false }
{
    covered[place..place + count].fill(true);
}
