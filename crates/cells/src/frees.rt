// The free list of an array of linked cells: taken from and given back to at its front.
ghost use Rattle.std.specs.Prelude.{◌≡◌, ℕ, ◌+◌, ◌-◌, ◌<◌, ◌≤◌, List, map, length, Some, None, slice_index_or, slice_set};
ghost use Rattle.cells.specs.Chains.{down};
ghost use Rattle.cells.specs.Frees.{Free, Parted, Freed};

use crate::linked::Linked;

// Where the list begins, and how many cells it has.
// The cells are lent to each call, so what a call needs of them (`within`, `room`, `few`) is asked there, and what it leaves alone (`loads`)
// is said there: the list alone can't carry it.
#[derive(Clone, Copy)]
pub struct FreeList {
    pub first: Option<u16>,
    pub count: u16,
}

impl FreeList {
    // Takes the first cell off the list, or finds none there. No cell is written.
    pub fn take<C: Linked>(&mut self, cells: &[C]) -> Option<u16>
        requires within { (i : ℕ) → self.old.first ≡ Some i → (i < length cells.now) × (0 < self.old.count) }
        ensures result { result ≡ self.old.first }
        ensures some { (i : ℕ) → result ≡ Some i → (self.new.first ≡ slice_index_or (map C.linkof cells.now) i None) × (self.new.count ≡ self.old.count - 1) }
        ensures none { result ≡ None → self.new ≡ self.old }
    {
        let at = self.first?;
        self.first = cells[at as usize].link();
        self.count -= 1;
        Some(at)
    }

    // Puts the cell in front of the list.
    pub fn give<C: Linked>(&mut self, cells: &mut [C], at: u16)
        requires within { at < length cells.old }
        requires room { self.old.count < 65535 }
        ensures first { self.new.first ≡ Some at }
        ensures count { self.new.count ≡ self.old.count + 1 }
        ensures links { map C.linkof cells.new ≡ slice_set (map C.linkof cells.old) at self.old.first }
        ensures loads { map C.loadof cells.new ≡ map C.loadof cells.old }
    {
        cells[at as usize].set_link(self.first);
        self.first = Some(at);
        self.count += 1;
    }

    // Makes a list of all the cells of an array.
    pub fn of_all<C: Linked>(cells: &mut [C]) -> FreeList
        requires few { length cells.old ≤ 65535 }
        ensures free { Free (map C.linkof cells.new) result (down (length cells.old)) }
        ensures loads { map C.loadof cells.new ≡ map C.loadof cells.old }
    {
        let mut list = FreeList {
            first: None,
            count: 0,
        };
        for at in 0..cells.len() as u16 {
            list.give(cells, at);
        }
        list
    }

    // Gives a whole chain of cells back, first to last.
    pub fn give_chain<C: Linked>(&mut self, cells: &mut [C], first: Option<u16>)
        requires few { length cells.old ≤ 65535 }
        requires held { ∥ ((is : List ℕ) × (free : List ℕ) × Parted (map C.linkof cells.old) first is self.old free) ∥₁ }
        ensures freed { (is free : List ℕ) → Parted (map C.linkof cells.old) first is self.old free → ((left : List ℕ) × Freed (map C.linkof cells.old) is free (map C.linkof cells.new) self.new left) }
        ensures loads { map C.loadof cells.new ≡ map C.loadof cells.old }
    {
        let mut todo = first;
        while let Some(at) = todo {
            todo = cells[at as usize].link();
            self.give(cells, at);
        }
    }
}
