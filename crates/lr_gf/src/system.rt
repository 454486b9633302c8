//! Small linear systems, by Gauss-Jordan elimination.
#![tactic(auto)]

ghost use Rattle.std.specs.Prelude.{◌≡◌, ◌≢◌, ℕ, ◌+◌, ◌<◌, ◌≤◌, bit_xor, true, false, MatchOption, slice_index};
ghost use Rattle.std.specs.Prelude.{IsTrue, OnOk, OnErr, length, List, ◌⊎◌};
ghost use Rattle.lr_gf.specs.Field.{times};
ghost use Rattle.lr_gf.specs.Systems.{entry, AreElements, IsInKernel, IsNonzero, HasTrivialKernel, IsSolution};
ghost use Rattle.lr_gf.specs.RowOperations.{moved_row, cleared_column, IsPivotStep};

use crate::element::Gf;
use std::marker::Model;

/// The equations have no solution.
#[derive(Drop)]
pub struct NoSolution;

/// A matrix of 16 rows and 17 columns.
#[derive(Drop)]
pub struct System {
    cells: [[Gf; 17]; 16],
}

impl Model for System {
    ghost Value = { List (List ℕ) };

    ghost view = { λ s. s.cells };

    ghost invariant = { λ s. AreElements (entry s.cells) };
}

impl System {
    /// All entries 0.
    pub fn new() -> System
        ensures { (i k : ℕ) → entry result i k ≡ 0 }
    {
        System {
            cells: [[Gf(0); 17]; 16],
        }
    }

    /// Sets one entry.
    pub fn set(&mut self, row: usize, column: usize, value: Gf)
        requires row { row < 16 }
        requires column { column < 17 }
        ensures set { entry self.new row column ≡ value }
        ensures kept { (i k : ℕ) → i < 16 → k < 17 → (i ≢ row) ⊎ (k ≢ column)
            → entry self.new i k ≡ entry self.old i k }
    {
        // So the proof sees that the entry is a byte.
        let _ = &value.0;
        let mut changed = self.cells[row];
        changed[column] = value;
        self.cells[row] = changed;
    }

    /// Finds a vector other than 0 that the first rows send to 0, over the first columns: writes it
    /// and answers true, or leaves `x` and answers false where there is none. The entries are used up.
    pub fn kernel(&mut self, rows: usize, columns: usize, x: &mut [Gf; 17]) -> bool
        requires rows { rows ≤ 16 }
        requires columns { columns ≤ 17 }
        ensures sent { result ≡ true → IsInKernel rows columns (entry self.old) (slice_index x.new) }
        ensures nonzero { result ≡ true → IsNonzero columns (slice_index x.new) }
        ensures elements { result ≡ true → (k : ℕ) → slice_index x.new k < 256 }
        ensures none { result ≡ false → HasTrivialKernel rows columns (entry self.old) }
        ensures narrow { result ≡ false → columns ≤ rows }
        ensures unchanged { result ≡ false → x.new ≡ x.old }
    {
        kernel_of(&mut self.cells, rows, columns, x)
    }

    /// Finds a solution of the n equations in the first rows: the columns below n belong to the
    /// unknowns, and column n has the right sides. Where there is none it leaves `x`. The entries are
    /// used up.
    pub fn solve(&mut self, n: usize, x: &mut [Gf; 16]) -> Result<(), NoSolution>
        requires { n ≤ 16 }
        ensures ok { OnOk result (IsSolution n (entry self.old) (slice_index x.new)) }
        ensures elements { OnOk result ((k : ℕ) → slice_index x.new k < 256) }
        ensures none { OnErr result ((x : ℕ → ℕ) → IsSolution n (entry self.old) x → ⊥) }
        ensures unchanged { OnErr result (x.new ≡ x.old) }
    {
        solve_of(&mut self.cells, n, x)
    }
}

/// Adds a multiple of a row to another one, from a column on.
fn add_scaled(target: &mut [Gf; 17], source: &[Gf; 17], factor: Gf, from: usize)
    requires { from < 17 }
    ensures added { (k : ℕ) → from ≤ k → k < 17
        → slice_index target.new k ≡ bit_xor (slice_index target.old k) (times factor (slice_index source.now k)) }
    ensures kept { (k : ℕ) → k < from → slice_index target.new k ≡ slice_index target.old k }
{
    for k in from..17 {
        target[k] = target[k].add(factor.mul(source[k]));
    }
}

/// The entry of a row in the column.
fn cell_at(row: &[Gf; 17], column: usize) -> Gf
    requires { column < 17 }
    ensures { result ≡ slice_index row.now column }
{
    row[column]
}

/// Multiplies a row.
fn scale(row: &mut [Gf; 17], factor: Gf)
    ensures { (k : ℕ) → k < 17 → slice_index row.new k ≡ times factor (slice_index row.old k) }
{
    for k in 0..17 {
        row[k] = factor.mul(row[k]);
    }
}

/// The first row from `from` on whose entry in the column isn't 0.
fn find_pivot(cells: &[[Gf; 17]; 16], rows: usize, from: usize, column: usize) -> Option<usize>
    requires rows { rows ≤ 16 }
    requires column { column < 17 }
    ensures { MatchOption result
        ((i : ℕ) → from ≤ i → i < rows → entry cells.now i column ≡ 0)
        (λ p. (from ≤ p) × (p < rows) × (entry cells.now p column ≢ 0)) }
{
    let mut i = from;
    while i < rows {
        let cell = cell_at(&cells[i], column);
        if cell.0 != 0 {
            return Some(i);
        }
        i += 1;
    }
    None
}

/// Swaps a row with another one, and multiplies it by a factor.
fn move_pivot(cells: &mut [[Gf; 17]; 16], from: usize, to: usize, factor: Gf)
    requires from { from < 16 }
    requires to { to < 16 }
    ensures { (i k : ℕ) → i < 16 → k < 17
        → entry cells.new i k ≡ moved_row (record { from = from; to = to; factor = factor })
        (entry cells.old) i k }
{
    let mut row = cells[from];
    scale(&mut row, factor);
    cells[from] = cells[to];
    cells[to] = row;
}

/// Makes the entries of a column 0 outside the pivot row, which is 0 before that column.
fn clear_column(cells: &mut [[Gf; 17]; 16], pivot: usize, column: usize)
    requires pivot { pivot < 16 }
    requires column { column < 17 }
    requires zeros { (k : ℕ) → k < column → entry cells.old pivot k ≡ 0 }
    ensures { (i k : ℕ) → i < 16 → k < 17
        → entry cells.new i k ≡ cleared_column pivot column (entry cells.old) i k }
{
    let source = cells[pivot];
    for i in 0..16 {
        if i != pivot {
            let mut row = cells[i];
            let factor = cell_at(&row, column);
            add_scaled(&mut row, &source, factor, column);
            cells[i] = row;
        }
    }
}

/// Eliminates a column, or says that it has no pivot from the row `place` on. Those rows are 0
/// before it.
fn eliminate_column(cells: &mut [[Gf; 17]; 16], rows: usize, place: usize, column: usize) -> bool
    requires rows { rows ≤ 16 }
    requires column { column < 17 }
    requires elements { AreElements (entry cells.old) }
    requires zeros { (i k : ℕ) → place ≤ i → i < rows → k < column → entry cells.old i k ≡ 0 }
    ensures same { result ≡ false → cells.new ≡ cells.old }
    ensures none { result ≡ false → (i : ℕ) → place ≤ i → i < rows → entry cells.old i column ≡ 0 }
    ensures step { result ≡ true
        → IsPivotStep rows place column (entry cells.old) (entry cells.new) }
{
    let Some(from) = find_pivot(cells, rows, place, column) else {
        return false;
    };
    let factor = cell_at(&cells[from], column).inv();
    move_pivot(cells, from, place, factor);
    clear_column(cells, place, column);
    true
}

/// Writes the combination of the unit columns that cancels the column after them.
fn write_dependence(cells: &[[Gf; 17]; 16], column: usize, x: &mut [Gf; 17])
    requires { column < 17 }
    ensures before { (k : ℕ) → k < column → slice_index x.new k ≡ entry cells.now k column }
    ensures here { slice_index x.new column ≡ 1 }
    ensures after { (k : ℕ) → column < k → slice_index x.new k ≡ 0 }
{
    let zeros = [Gf(0); 17];
    *x = zeros;
    for k in 0..column {
        x[k] = cell_at(&cells[k], column);
    }
    x[column] = Gf(1);
}

/// The kernel of the first rows and columns.
fn kernel_of(cells: &mut [[Gf; 17]; 16], rows: usize, columns: usize, x: &mut [Gf; 17]) -> bool
    requires rows { rows ≤ 16 }
    requires columns { columns ≤ 17 }
    requires elements { AreElements (entry cells.old) }
    ensures elements { AreElements (entry cells.new) }
    ensures sent { result ≡ true → IsInKernel rows columns (entry cells.old) (slice_index x.new) }
    ensures nonzero { result ≡ true → IsNonzero columns (slice_index x.new) }
    ensures vector { result ≡ true → (k : ℕ) → slice_index x.new k < 256 }
    ensures none { result ≡ false → HasTrivialKernel rows columns (entry cells.old) }
    ensures narrow { result ≡ false → columns ≤ rows }
    ensures unchanged { result ≡ false → x.new ≡ x.old }
{
    for column in 0..columns {
        if !eliminate_column(cells, rows, column, column) {
            write_dependence(cells, column, x);
            return true;
        }
    }
    false
}

/// Whether the elimination of the first n columns shows a solution, which is then written.
fn solve_of(cells: &mut [[Gf; 17]; 16], n: usize, x: &mut [Gf; 16]) -> Result<(), NoSolution>
    requires n { n ≤ 16 }
    requires elements { AreElements (entry cells.old) }
    ensures elements { AreElements (entry cells.new) }
    ensures ok { OnOk result (IsSolution n (entry cells.old) (slice_index x.new)) }
    ensures vector { OnOk result ((k : ℕ) → slice_index x.new k < 256) }
    ensures none { OnErr result ((x : ℕ → ℕ) → IsSolution n (entry cells.old) x → ⊥) }
    ensures unchanged { OnErr result (x.new ≡ x.old) }
{
    let mut places = [0usize; 16];
    let mut rank = 0;
    for column in 0..n {
        if eliminate_column(cells, n, rank, column) {
            places[rank] = column;
            rank += 1;
        }
    }
    if let Some(_) = find_pivot(cells, n, rank, n) {
        return Err(NoSolution);
    }
    let zeros = [Gf(0); 16];
    *x = zeros;
    for i in 0..rank {
        x[places[i]] = cell_at(&cells[i], n);
    }
    Ok(())
}
