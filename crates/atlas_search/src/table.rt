//! The table of the lists of free slots: the first slot of each, and marks of those that have a slot and of the one that
//! was emptied last.
ghost use Rattle.std.specs.Prelude.{◌≡◌, ◌≢◌, ◌+◌, ◌*◌, ◌<◌, ◌≤◌, ◌⊎◌, ℕ, [], true, false, IfOk, OnOk, OnErr, length, replicate, slice_set};
ghost use Rattle.atlas_search.specs.Bands.{number_of};
ghost use Rattle.atlas_search.specs.Masks.{IsMarked, has, is_marked_at};
ghost use Rattle.atlas_search.specs.Numbers.{no_slot};
ghost use Rattle.atlas_search.specs.Tables.{head_of, heads_from, is_used_at, no_link, AreStored, CanHold, IsTable};

use crate::bands::{BANDS, Place};
use crate::link::{Link, NO_SLOT};
use crate::marks::Marks;
use crate::masks::Mask;
use std::alloc::{AllocError, Allocator};
use std::marker::Model;

/// How many lists of free slots there are.
pub const LISTS: usize = 2704;

/// How many slots a table has room for before it has grown.
pub const FEW: usize = 8;

// In the place of a list: none.
const NO_LIST: u16 = 2704;

// The first slot of a list, or none, where these are the lists that the first few slots come first in.
#[cold]
#[inline(never)]
fn head_in(only: &[u16; FEW], number: usize) -> Link
    requires { number < LISTS }
    ensures { result ≡ head_of (heads_from only.now 0) number }
{
    for i in 0..FEW {
        if only[i] as usize == number {
            return Link { number: i as u32 };
        }
    }
    Link::NONE
}

// A list begins with this slot, one of the first few, or with none, from now on.
#[cold]
#[inline(never)]
fn set_head_in(only: &mut [u16; FEW], number: usize, first: Link)
    requires number { number < LISTS }
    requires few { CanHold (heads_from only.old 0) number first }
    ensures head { head_of (heads_from only.new 0) number ≡ first }
    ensures heads { (k : ℕ) → k ≢ number → head_of (heads_from only.new 0) k ≡ head_of (heads_from only.old 0) k }
{
    for i in 0..FEW {
        if i == first.number as usize {
            only[i] = number as u16;
        } else if only[i] as usize == number {
            only[i] = NO_LIST;
        }
    }
}

// Writes the heads of the first few slots over those of empty lists, and marks them.
fn write_heads<A: Allocator>(heads: &mut Vec<Link, A>, marks: &mut Marks, only: &[u16; FEW])
    requires blank { heads.old.items ≡ replicate 2704 no_link }
    requires unmarked { (i j : ℕ) → is_marked_at marks.old i j ≡ false }
    ensures heads { heads.new.items ≡ heads_from only.now 0 }
    ensures table { IsTable heads.new.items marks.new LISTS }
{
    let mut i = FEW;
    while i > 0 {
        i -= 1;
        let list = only[i] as usize;
        if list < LISTS {
            heads[list] = Link { number: i as u32 };
            marks.mark(Place {
                row: list / BANDS,
                column: list % BANDS,
            });
        }
    }
}

// Stores the heads and marks of the first few slots, where none are stored.
#[cold]
#[inline(never)]
fn store<A: Allocator>(
    heads: &mut Vec<Link, A>,
    marks: &mut Vec<Marks, A>,
    only: &[u16; FEW],
) -> Result<(), AllocError>
    requires heads { heads.old.items ≡ [] }
    requires marks { marks.old.items ≡ [] }
    ensures heads { OnOk result (heads.new.items ≡ heads_from only.now 0) }
    ensures table { OnOk result (AreStored heads.new.items marks.new.items LISTS) }
    ensures err { OnErr result ((heads.new.items ≡ []) × (marks.new.items ≡ [])) }
{
    marks.reserve_exact(1)?;
    heads.resize(LISTS, Link::NONE)?;
    let mut own = Marks::none();
    write_heads(heads, &mut own, only);
    marks.push_reserved(own);
    Ok(())
}

// A copy of the marks that are stored, which are one table's at most.
fn copy_marks<A: Allocator + Copy>(marks: &Vec<Marks, A>) -> Result<Vec<Marks, A>, AllocError>
    requires { length marks.now.items ≤ 1 }
    ensures { IfOk result (λ it. it.items ≡ marks.now.items) }
{
    let mut copy = Vec::with_capacity(*marks.allocator(), marks.len())?;
    if !marks.is_empty() {
        copy.push_reserved(marks[0].copy());
    }
    Ok(copy)
}

// The lists of a row are empty in these columns from now on.
fn blank_row(heads: &mut [Link], row: usize, columns: Mask)
    requires long { length heads.old ≡ LISTS }
    requires row { row < BANDS }
    requires columns { (j : ℕ) → IsMarked columns j → j < BANDS }
    ensures long { length heads.new ≡ LISTS }
    ensures blank { (j : ℕ) → IsMarked columns j → is_used_at heads.new (52 * row + j) ≡ false }
    ensures kept { (k : ℕ) → is_used_at heads.old k ≡ false → is_used_at heads.new k ≡ false }
{
    let mut left = columns;
    while let Some(column) = left.take_first() {
        heads[BANDS * row + column] = Link::NONE;
    }
}

// All lists are empty from now on, of which only marked ones may have a slot.
fn blank_marked(heads: &mut [Link], marks: &Marks)
    requires long { length heads.old ≡ LISTS }
    requires marked { (i j : ℕ) → i < BANDS → j < BANDS → is_used_at heads.old (52 * i + j) ≡ true
        → is_marked_at marks.now i j ≡ true }
    ensures long { length heads.new ≡ LISTS }
    ensures blank { (k : ℕ) → is_used_at heads.new k ≡ false }
{
    let mut left = marks.used();
    while let Some(row) = left.take_first() {
        blank_row(heads, row, marks.row(row));
    }
}

// A slot comes first in a list, where heads are stored.
#[inline(always)]
fn raise_in<A: Allocator>(
    heads: &mut Vec<Link, A>,
    marks: &mut Vec<Marks, A>,
    emptied: usize,
    at: Place,
    first: Link,
)
    requires row { at.row < BANDS }
    requires column { at.column < BANDS }
    requires slot { first.number ≢ no_slot }
    requires table { AreStored heads.old.items marks.old.items emptied }
    requires some { 0 < length heads.old.items }
    ensures heads { heads.new.items ≡ slice_set heads.old.items (number_of at) first }
    ensures table { AreStored heads.new.items marks.new.items emptied }
{
    let list = BANDS * at.row + at.column;
    let before = heads[list];
    heads[list] = first;
    if before.number == NO_SLOT && emptied != list {
        marks[0].mark(at);
    }
}

// Another slot, or none, comes first in a list that has a slot, where heads are stored.
#[inline(always)]
fn set_first_in<A: Allocator>(
    heads: &mut Vec<Link, A>,
    marks: &mut Vec<Marks, A>,
    emptied: &mut usize,
    number: usize,
    first: Link,
)
    requires number { number < LISTS }
    requires used { is_used_at heads.old.items number ≡ true }
    requires table { AreStored heads.old.items marks.old.items emptied.old }
    requires some { 0 < length heads.old.items }
    ensures heads { heads.new.items ≡ slice_set heads.old.items number first }
    ensures table { AreStored heads.new.items marks.new.items emptied.new }
{
    heads[number] = first;
    if first.number != NO_SLOT {
        return;
    }
    if *emptied != number {
        let before = *emptied;
        *emptied = number;
        if before < LISTS && heads[before].number == NO_SLOT {
            marks[0].unmark(Place {
                row: before / BANDS,
                column: before % BANDS,
            });
        }
    }
}

/// The heads of all lists, and their marks. A new table takes no memory and has room for the first eight slots; `grow` takes 10,816
/// bytes and 840, and then there is room for all. Contracts see the heads, and whether the table has grown.
///
/// The list that was emptied last is often the next that gets a slot: so it stays marked until another list is emptied,
/// and a mark says only that a list may have a slot.
#[derive(Drop)]
pub struct Table<A: Allocator> {
    // The first slot of each list, or nothing before the table has grown.
    heads: Vec<Link, A>,
    // The marks, or nothing before the table has grown.
    marks: Vec<Marks, A>,
    // Until then the list that each of the first few slots comes first in; NO_LIST if it does in none.
    only: [u16; FEW],
    // The list that was emptied last, whose mark is kept; LISTS if none was.
    emptied: usize,
}

impl<A: Allocator> Model for Table<A> {
    ghost use Rattle.std.specs.Prelude.{◌≡◌, length};
    ghost use Rattle.atlas_search.specs.Tables.{heads_in, is_stored, AreStored, Lists};

    ghost Value = { Lists };

    ghost view = { λ t. record { heads = heads_in t.heads.items t.only; is_grown = is_stored t.heads.items } };

    ghost invariant = { λ t. (length t.only ≡ 8) × AreStored t.heads.items t.marks.items t.emptied };
}

impl<A: Allocator> Table<A> {
    /// A table of empty lists, with room for the first eight slots. Takes no memory.
    pub fn new(alloc: A) -> Table<A>
    where
        A: Copy,
        ensures { (k : ℕ) → is_used_at result.heads k ≡ false }
    {
        Table {
            heads: Vec::new(alloc),
            marks: Vec::new(alloc),
            only: [NO_LIST; FEW],
            emptied: LISTS,
        }
    }

    /// A copy, in new memory of the same allocator, which takes as much as the table has.
    pub fn copy(&self) -> Result<Table<A>, AllocError>
    where
        A: Copy,
        ensures { IfOk result (λ it. it ≡ self.now) }
    {
        Ok(Table {
            heads: Vec::from_slice(*self.heads.allocator(), &self.heads)?,
            marks: copy_marks(&self.marks)?,
            only: self.only,
            emptied: self.emptied,
        })
    }

    /// Whether there is room for all slots. Before that only the first eight come first in lists.
    pub fn is_grown(&self) -> bool
        ensures grown { result ≡ self.now.is_grown }
        ensures few { self.now.is_grown ≡ false → (k : ℕ) → is_used_at self.now.heads k ≡ true
            → (head_of self.now.heads k).number < FEW }
    {
        !self.heads.is_empty()
    }

    /// Makes room for all slots. The heads stay.
    pub fn grow(&mut self) -> Result<(), AllocError>
        ensures ok { OnOk result (self.new.is_grown ≡ true) }
        ensures err { OnErr result (self.new ≡ self.old) }
        ensures heads { self.new.heads ≡ self.old.heads }
    {
        if self.heads.is_empty() {
            store(&mut self.heads, &mut self.marks, &self.only)?;
            self.emptied = LISTS;
        }
        Ok(())
    }

    /// Each list is empty from now on. Writes the heads of marked lists alone.
    pub fn clear(&mut self)
        ensures blank { (k : ℕ) → is_used_at self.new.heads k ≡ false }
        ensures room { self.new.is_grown ≡ self.old.is_grown }
    {
        if self.marks.is_empty() {
            self.only = [NO_LIST; FEW];
            return;
        }
        blank_marked(&mut self.heads, &self.marks[0]);
        self.marks[0] = Marks::none();
        self.emptied = LISTS;
    }

    /// The first slot of a list, or none.
    #[inline(always)]
    pub fn head(&self, at: Place) -> Link
        requires row { at.row < BANDS }
        requires column { at.column < BANDS }
        ensures { result ≡ head_of self.now.heads (number_of at) }
    {
        self.first(BANDS * at.row + at.column)
    }

    /// The first slot of the list of this number, or none.
    #[inline(always)]
    pub fn first(&self, number: usize) -> Link
        requires { number < LISTS }
        ensures { result ≡ head_of self.now.heads number }
    {
        if number < self.heads.len() {
            self.heads[number]
        } else {
            head_in(&self.only, number)
        }
    }

    /// The first slot of a list, or none, in a table that has grown.
    pub fn stored_head(&self, at: Place) -> Link
        requires grown { self.now.is_grown ≡ true }
        requires row { at.row < BANDS }
        requires column { at.column < BANDS }
        ensures { result ≡ head_of self.now.heads (number_of at) }
    {
        self.heads[BANDS * at.row + at.column]
    }

    /// The list that one of the first few slots comes first in, in a table that hasn't grown; LISTS or more if it does in none.
    pub fn list_of_few(&self, i: usize) -> usize
        requires { i < FEW }
        ensures { self.now.is_grown ≡ false → (k : ℕ) → k < LISTS → (head_of self.now.heads k).number ≡ i → result ≡ k }
    {
        self.only[i] as usize
    }

    /// A slot comes first in a list. In a table that hasn't grown it is one of the first eight, and comes first in no other list.
    #[inline(always)]
    pub fn raise(&mut self, at: Place, first: Link)
        requires row { at.row < BANDS }
        requires column { at.column < BANDS }
        requires slot { first.number ≢ no_slot }
        requires few { self.old.is_grown ≡ false → CanHold self.old.heads (number_of at) first }
        ensures head { head_of self.new.heads (number_of at) ≡ first }
        ensures heads { (k : ℕ) → k ≢ number_of at → head_of self.new.heads k ≡ head_of self.old.heads k }
        ensures room { self.new.is_grown ≡ self.old.is_grown }
    {
        let list = BANDS * at.row + at.column;
        if list < self.heads.len() {
            raise_in(&mut self.heads, &mut self.marks, self.emptied, at, first);
        } else {
            set_head_in(&mut self.only, list, first);
        }
    }

    /// Another slot, or none, comes first in the list of this number, which has a slot. In a table that hasn't grown it is
    /// one of the first eight, and comes first in no other list, or it is none.
    #[inline(always)]
    pub fn set_first(&mut self, number: usize, first: Link)
        requires number { number < LISTS }
        requires used { is_used_at self.old.heads number ≡ true }
        requires few { self.old.is_grown ≡ false → CanHold self.old.heads number first }
        ensures head { head_of self.new.heads number ≡ first }
        ensures heads { (k : ℕ) → k ≢ number → head_of self.new.heads k ≡ head_of self.old.heads k }
        ensures room { self.new.is_grown ≡ self.old.is_grown }
    {
        if number < self.heads.len() {
            set_first_in(
                &mut self.heads,
                &mut self.marks,
                &mut self.emptied,
                number,
                first,
            );
        } else {
            set_head_in(&mut self.only, number, first);
        }
    }

    /// The columns of a row with lists that may have a slot: each that has one. In a table that hasn't grown, none.
    pub fn row(&self, i: usize) -> Mask
        requires { i < BANDS }
        ensures used { self.now.is_grown ≡ true → (j : ℕ) → j < BANDS → is_used_at self.now.heads (52 * i + j) ≡ true
            → IsMarked result j }
        ensures inside { (j : ℕ) → IsMarked result j → j < BANDS }
        ensures few { self.now.is_grown ≡ false → (j : ℕ) → has result j ≡ false }
    {
        if self.marks.is_empty() {
            return Mask::none();
        }
        self.marks[0].row(i)
    }

    /// The rows of a column with lists that may have a slot: each that has one. In a table that hasn't grown, none.
    pub fn column(&self, j: usize) -> Mask
        requires { j < BANDS }
        ensures used { self.now.is_grown ≡ true → (i : ℕ) → i < BANDS → is_used_at self.now.heads (52 * i + j) ≡ true
            → IsMarked result i }
        ensures inside { (i : ℕ) → IsMarked result i → i < BANDS }
    {
        if self.marks.is_empty() {
            return Mask::none();
        }
        self.marks[0].column(j)
    }

    /// The rows with a list that may have a slot: each with one that has. In a table that hasn't grown, none.
    pub fn used(&self) -> Mask
        ensures each { self.now.is_grown ≡ true → (i j : ℕ) → i < BANDS → j < BANDS → is_used_at self.now.heads (52 * i + j) ≡ true
            → IsMarked result i }
        ensures inside { (i : ℕ) → IsMarked result i → i < BANDS }
        ensures few { self.now.is_grown ≡ false → (i : ℕ) → has result i ≡ false }
    {
        if self.marks.is_empty() {
            return Mask::none();
        }
        self.marks[0].used()
    }
}
