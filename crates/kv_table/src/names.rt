// A table of texts, looked up by text and by row.

ghost use Rattle.std.specs.Prelude.{ℕ, ◌≡◌, ◌<◌, ◌↔◌, Some, IfSome, IsTrue, slice_get, map, length};
ghost use Rattle.kv_table.specs.Names.{are_different, row_of};

use std::marker::Model;

/// A table of `N` different texts. Contracts see the list of the rows, each as its bytes.
#[derive(Drop)]
pub struct Names<const N: usize> {
    rows: &'static [&'static str],
}

impl<const N: usize> Model for Names<N> {
    ghost use Rattle.std.specs.Prelude.{List, ℕ, ◌≡◌, map, length, IsTrue};
    ghost use Rattle.kv_table.specs.Names.{are_different};

    ghost Value = { List (List ℕ) };

    ghost view = { λ names. map (λ row. row.now) names.rows.now };

    ghost invariant = { λ names. (length names.rows.now ≡ N) × IsTrue (are_different (map (λ row. row.now) names.rows.now)) };
}

impl<const N: usize> Names<N> {
    /// The table with these rows, which must be pairwise different.
    pub fn new(rows: &'static [&'static str]) -> Names<N>
        requires count { length rows.now ≡ N }
        requires different { IsTrue (are_different (map (λ row. row.now) rows.now)) }
        ensures { result ≡ map (λ row. row.now) rows.entry.now }
    {
        Names { rows }
    }

    /// The row that is the text, counted from 0; None where no row is.
    pub fn find(&self, text: &str) -> Option<usize>
        ensures value { result ≡ row_of self.now text.now }
        ensures within { IfSome result (λ i. i < N) }
        ensures exact { (i : ℕ) → (result ≡ Some i) ↔ (slice_get self.now i ≡ Some text.now) }
    {
        for (i, row) in self.rows.iter().enumerate() {
            if *row == text {
                return Some(i);
            }
        }
        None
    }

    /// The text of row `i`.
    pub fn name(&self, i: usize) -> &'static str
        requires { i < N }
        ensures { slice_get self.now i ≡ Some result.now }
    {
        let rows = self.rows;
        rows[i]
    }
}
