//! Marks of lists, in rows and columns.
ghost use Rattle.std.specs.Prelude.{◌≡◌, ◌≢◌, ◌<◌, ◌⊎◌, ℕ, true, false};
ghost use Rattle.atlas_search.specs.Masks.{IsMarked, has, is_marked_at};

use crate::bands::{BANDS, Place};
use crate::masks::Mask;
use std::marker::Model;

/// A set of places. Contracts see the marked columns of each row.
#[derive(Drop)]
pub struct Marks {
    rows: [Mask; BANDS],
    columns: [Mask; BANDS],
    used: Mask,
}

impl Model for Marks {
    ghost use Rattle.std.specs.Prelude.{List};
    ghost use Rattle.atlas_search.specs.declared.masks.Mask.{Mask};
    ghost use Rattle.atlas_search.specs.Masks.{AreMarks};

    ghost Value = { List Mask };

    ghost view = { λ m. m.rows };

    ghost invariant = { λ m. AreMarks m.rows m.columns m.used };
}

impl Marks {
    /// No place is marked.
    pub fn none() -> Marks
        ensures { (i j : ℕ) → is_marked_at result i j ≡ false }
    {
        let none = Mask::none();
        Marks {
            rows: [none; BANDS],
            columns: [none; BANDS],
            used: none,
        }
    }

    /// A copy of the marks.
    pub fn copy(&self) -> Marks
        ensures { result ≡ self.now }
    {
        Marks {
            rows: self.rows,
            columns: self.columns,
            used: self.used,
        }
    }

    /// Marks a place.
    pub fn mark(&mut self, at: Place)
        requires row { at.row < BANDS }
        requires column { at.column < BANDS }
        ensures this { is_marked_at self.new at.row at.column ≡ true }
        ensures others { (i j : ℕ) → (i ≢ at.row) ⊎ (j ≢ at.column)
            → is_marked_at self.new i j ≡ is_marked_at self.old i j }
    {
        self.rows[at.row] = self.rows[at.row].with(at.column);
        self.columns[at.column] = self.columns[at.column].with(at.row);
        self.used = self.used.with(at.row);
    }

    /// Takes the mark of a place away.
    pub fn unmark(&mut self, at: Place)
        requires row { at.row < BANDS }
        requires column { at.column < BANDS }
        ensures this { is_marked_at self.new at.row at.column ≡ false }
        ensures others { (i j : ℕ) → (i ≢ at.row) ⊎ (j ≢ at.column)
            → is_marked_at self.new i j ≡ is_marked_at self.old i j }
    {
        let row = self.rows[at.row].without(at.column);
        self.rows[at.row] = row;
        self.columns[at.column] = self.columns[at.column].without(at.row);
        if row.is_empty() {
            self.used = self.used.without(at.row);
        }
    }

    /// The marked columns of a row.
    pub fn row(&self, i: usize) -> Mask
        requires { i < BANDS }
        ensures marked { (j : ℕ) → has result j ≡ is_marked_at self.now i j }
        ensures inside { (j : ℕ) → IsMarked result j → j < BANDS }
    {
        self.rows[i]
    }

    /// The marked rows of a column.
    pub fn column(&self, j: usize) -> Mask
        requires { j < BANDS }
        ensures marked { (i : ℕ) → has result i ≡ is_marked_at self.now i j }
        ensures inside { (i : ℕ) → IsMarked result i → i < BANDS }
    {
        self.columns[j]
    }

    /// The rows with a mark.
    pub fn used(&self) -> Mask
        ensures each { (i j : ℕ) → is_marked_at self.now i j ≡ true → IsMarked result i }
        ensures only { (i : ℕ) → IsMarked result i → (j : ℕ) × (j < BANDS) × (is_marked_at self.now i j ≡ true) }
        ensures inside { (i : ℕ) → IsMarked result i → i < BANDS }
    {
        self.used
    }
}
