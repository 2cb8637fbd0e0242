//! A rehearsal: which box of a page would be free, were some of its rectangles freed.
ghost use Rattle.std.specs.Prelude.{◌≡◌, ◌<◌, ◌≤◌, ℕ, Bool, false, length, IfSome, IsSome, None, OnOk};
ghost use Rattle.guillotiere.specs.Changes.{and_id};
ghost use Rattle.guillotiere.specs.Pages.{rectangle_on};
ghost use Rattle.guillotiere.specs.Pixels.{box_of};
ghost use Rattle.atlas_cache.specs.Vacating.{AreAllShown, AreShownOn, HasNoRoomWithout, IsRoomWithout};

use crate::rooms::Rooms;
use guillotiere::{AllocId, Rectangle, Size};
use std::alloc::{AllocError, Allocator};

impl<A: Allocator + Copy> Rooms<A> {
    /// Begins a rehearsal on a page: no rectangle is shown as freed. An error: memory for the marks is refused, one for each slot of it.
    pub(crate) fn show_none(&self, page: u32, marks: &mut Vec<bool, A>) -> Result<(), AllocError>
        requires { page < length self.now.pages }
        ensures { OnOk result (AreShownOn self.now.pages page marks.new.items (λ id. false)) }
    {
        let atlas = &self.pages[page as usize];
        let slots = atlas.slots().kept as usize;
        marks.clear();
        marks.resize(slots, false)?;
        atlas.prove_none_shown(marks);
        Ok(())
    }

    // There are marks for each page, be they none.
    fn add_marks(&self, marks: &mut Vec<Vec<bool, A>, A>) -> Result<(), AllocError>
        ensures { OnOk result (length self.now.pages ≤ length marks.new.items) }
    {
        for _page in marks.len()..self.pages.len() {
            marks.push(Vec::new(*marks.allocator()))?;
        }
        Ok(())
    }

    /// Nothing is shown on any page, each of which has marks of its own.
    pub(crate) fn show_none_on_all(
        &self,
        marks: &mut Vec<Vec<bool, A>, A>,
    ) -> Result<(), AllocError>
        ensures { OnOk result (AreAllShown self.now.pages marks.new.items (λ page id. false)) }
    {
        self.add_marks(marks)?;
        for page in 0..self.len() {
            self.show_none(page, &mut marks[page as usize])?;
        }
        Ok(())
    }

    /// Takes memory for the marks of each page, where it uses so many more slots. An error is a refusal of it.
    pub(crate) fn reserve_marks(
        &self,
        additional: u32,
        marks: &mut Vec<Vec<bool, A>, A>,
    ) -> Result<(), AllocError> {
        self.add_marks(marks)?;
        for page in 0..self.pages.len() {
            let own = &mut marks[page];
            own.clear();
            own.reserve(self.pages[page].slots().kept as usize + additional as usize)?;
        }
        Ok(())
    }

    /// Shows the rectangle of an id of a page as freed, with those that are shown already. The free box that there would be around it, if
    /// a request fits that. Nothing changes on the page.
    pub(crate) fn rehearse(
        &self,
        page: u32,
        marks: &mut [bool],
        id: AllocId,
        asked: Size,
    ) -> Option<Rectangle>
        requires on_page { IsSome (rectangle_on self.now.pages page id) }
        requires showing { (ids : ℕ → Bool) × AreShownOn self.now.pages page marks.old ids × (ids id ≡ false) }
        ensures shown { (ids : ℕ → Bool) → AreShownOn self.now.pages page marks.old ids → ids id ≡ false
            → AreShownOn self.now.pages page marks.new (and_id ids id) }
        ensures none { (ids : ℕ → Bool) → AreShownOn self.now.pages page marks.old ids → ids id ≡ false
            → result ≡ None → HasNoRoomWithout asked self.now.pages page ids
            → HasNoRoomWithout asked self.now.pages page (and_id ids id) }
        ensures room { (ids : ℕ → Bool) → AreShownOn self.now.pages page marks.old ids → ids id ≡ false
            → IfSome result (λ area. IsRoomWithout asked self.now.pages page (and_id ids id) (box_of area)) }
    {
        let atlas = &self.pages[page as usize];
        let area = atlas.rehearse(marks, id);
        if atlas.fits(asked, &area) {
            return Some(area);
        }
        None
    }
}
