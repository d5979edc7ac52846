//! The calls of a mirror as a rack.

use crate::asking::{
    asks_right, count_fault, either, level_after, read_page_of, read_row_of, settle, sync_of,
    write_page_of, write_row_of,
};
use crate::attaching::{attach_sides, attached_by};
use crate::creating::create_both;
use crate::mirror::Mirror;
use bm_base::{Dims, Failed, PAGE_BYTES};
use bm_rack::{AttachError, CreateError, Found, Rack};

impl<L: Rack, G: Rack> Rack for Mirror<L, G> {
    ghost use Rattle.std.specs.Prelude.{◌≡◌, ◌&&◌, ◌<◌, length, Some, IsTrue, IsOk, IsErr, IsErrOf};
    ghost use Rattle.bm_base.specs.declared.dims.Dims.{Dims};
    ghost use Rattle.bm_base.specs.Count.{raised};
    ghost use Rattle.bm_rack.specs.RackView.{IsAttached};
    ghost use Rattle.bm_rack.specs.Frames.{Keeps, RaisesCounts, HasCause, SameState};
    ghost use Rattle.bm_rack.specs.Calls.{RowFits, RowRead, RowWritten, PageRead, PageWritten, Synced, AttachDone, CreateDone};
    ghost use Rattle.bm_mirror.specs.TwoSides.{two_sides, preferred, tells_all, shown};
    ghost use Rattle.bm_mirror.specs.SideCalls.{MirrorCall, MirrorRead};
    ghost use Rattle.bm_mirror.specs.Attaching.{Lapses};
    ghost use Rattle.bm_mirror.specs.Creating.{MirrorCreate, Starves};
    ghost use Rattle.bm_mirror.specs.Lasting.{history, mirror_facts, LevelNow};
    ghost use Rattle.bm_mirror.specs.Consistent.{mirror_is_consistent};

    ghost tells_stands = { L.tells_stands && G.tells_stands };

    ghost tells_contents = { tells_all L.tells_stands G.tells_stands
        L.tells_contents G.tells_contents };

    ghost view = { λ m. shown (L.tells_stands && G.tells_stands)
        (tells_all L.tells_stands G.tells_stands L.tells_contents G.tells_contents)
        (preferred (two_sides (L.view m.left) (G.view m.right) m.sides))
        m.attached m.faults m.moves m.pages m.syncs
        (mirror_facts (L.tells_stands && G.tells_stands)
        (two_sides (L.view m.left) (G.view m.right) m.sides)
        (history m.level m.lapsed m.starved m.faults)) };

    ghost consistent = { λ m. mirror_is_consistent
        L.tells_stands L.tells_contents G.tells_stands G.tells_contents
        (two_sides (L.view m.left) (G.view m.right) m.sides)
        m.attached m.faults m.moves m.pages m.syncs
        (mirror_facts (L.tells_stands && G.tells_stands)
        (two_sides (L.view m.left) (G.view m.right) m.sides)
        (history m.level m.lapsed m.starved m.faults))
        m.keeps (L.consistent m.left) (G.consistent m.right)
        m.faults_fit m.moves_fit m.pages_fit m.syncs_fit };

    fn attach(&mut self, dims: &Dims) -> Result<Found, AttachError>
        ensures attached { AttachDone (L.tells_stands && G.tells_stands) dims.now
            (⟦<Mirror<L, G> as Rack>⟧.view self.old) result
            (⟦<Mirror<L, G> as Rack>⟧.view self.new) }
        ensures counts { RaisesCounts 0 0 0
            (⟦<Mirror<L, G> as Rack>⟧.view self.old) (⟦<Mirror<L, G> as Rack>⟧.view self.new) }
        ensures keeps { Keeps
            (⟦<Mirror<L, G> as Rack>⟧.view self.old) (⟦<Mirror<L, G> as Rack>⟧.view self.new) }
        ensures cause { HasCause (IsErrOf result AttachError.Failed)
            (⟦<Mirror<L, G> as Rack>⟧.view self.old) (⟦<Mirror<L, G> as Rack>⟧.view self.new) }
        ensures quiet { ¬ IsErrOf result AttachError.Failed → self.new.faults ≡ self.old.faults }
        ensures failed { IsErrOf result AttachError.Failed
            → self.new.faults ≡ raised self.old.faults 1 }
        ensures lapsed { Lapses (L.tells_stands && G.tells_stands) result
            self.old.lapsed self.new.lapsed self.old.sides self.new.sides }
        ensures level { (self.new.level ≡ self.old.level) × (self.new.starved ≡ self.old.starved) }
        ensures sides { MirrorCall 0 0 0 (IsErrOf result AttachError.Failed)
            (IsTrue self.new.lapsed)
            (two_sides (L.view self.old.left) (G.view self.old.right) self.old.sides)
            (two_sides (L.view self.new.left) (G.view self.new.right) self.new.sides) }
    {
        self.attached = None;
        let answer = attach_sides(
            &mut self.left,
            &mut self.right,
            &mut self.sides,
            &mut self.lapsed,
            dims,
        );
        self.attached = attached_by(answer, dims);
        count_fault(&mut self.faults, answer == Err(AttachError::Failed));
        answer
    }

    fn create(&mut self, dims: &Dims) -> Result<(), CreateError>
        ensures created { CreateDone ⟦<Mirror<L, G> as Rack>⟧.tells_stands
            ⟦<Mirror<L, G> as Rack>⟧.tells_contents dims.now
            (⟦<Mirror<L, G> as Rack>⟧.view self.old) result
            (⟦<Mirror<L, G> as Rack>⟧.view self.new) }
        ensures counts { RaisesCounts 0 0 0
            (⟦<Mirror<L, G> as Rack>⟧.view self.old) (⟦<Mirror<L, G> as Rack>⟧.view self.new) }
        ensures keeps { Keeps
            (⟦<Mirror<L, G> as Rack>⟧.view self.old) (⟦<Mirror<L, G> as Rack>⟧.view self.new) }
        ensures cause { HasCause (IsErrOf result CreateError.Failed)
            (⟦<Mirror<L, G> as Rack>⟧.view self.old) (⟦<Mirror<L, G> as Rack>⟧.view self.new) }
        ensures quiet { ¬ IsErrOf result CreateError.Failed → self.new.faults ≡ self.old.faults }
        ensures failed { IsErrOf result CreateError.Failed
            → self.new.faults ≡ raised self.old.faults 1 }
        ensures sides { MirrorCreate L.tells_stands L.tells_contents
            G.tells_stands G.tells_contents dims.now result self.new.starved
            (two_sides (L.view self.old.left) (G.view self.old.right) self.old.sides)
            (two_sides (L.view self.new.left) (G.view self.new.right) self.new.sides) }
        ensures starved { Starves L.tells_stands L.tells_contents
            G.tells_stands G.tells_contents dims.now result self.old.starved self.new.starved
            (two_sides (L.view self.old.left) (G.view self.old.right) self.old.sides)
            (two_sides (L.view self.new.left) (G.view self.new.right) self.new.sides) }
        ensures lapsed { self.new.lapsed ≡ self.old.lapsed }
        ensures left_level { LevelNow self.new.faults self.new.sides.left
            self.old.level.left self.new.level.left }
        ensures right_level { LevelNow self.new.faults self.new.sides.right
            self.old.level.right self.new.level.right }
    {
        self.attached = None;
        let answer = create_both(
            &mut self.left,
            &mut self.right,
            &mut self.sides,
            &mut self.starved,
            dims,
        );
        count_fault(&mut self.faults, answer == Err(CreateError::Failed));
        self.level = level_after(self.level, self.sides, self.faults);
        answer
    }

    fn read_row(&mut self, places: &[Option<u64>], bytes: &mut [u8]) -> Result<(), Failed>
        requires { RowFits (⟦<Mirror<L, G> as Rack>⟧.view self.old).attached
            places.now (length bytes.old) }
        ensures bytes { (dims : Dims)
            → (⟦<Mirror<L, G> as Rack>⟧.view self.old).attached ≡ Some dims
            → RowRead ⟦<Mirror<L, G> as Rack>⟧.tells_contents dims
            (⟦<Mirror<L, G> as Rack>⟧.view self.old).contents
            places.now result bytes.old bytes.new }
        ensures state { SameState
            (⟦<Mirror<L, G> as Rack>⟧.view self.old) (⟦<Mirror<L, G> as Rack>⟧.view self.new) }
        ensures counts { RaisesCounts 1 0 0
            (⟦<Mirror<L, G> as Rack>⟧.view self.old) (⟦<Mirror<L, G> as Rack>⟧.view self.new) }
        ensures keeps { Keeps
            (⟦<Mirror<L, G> as Rack>⟧.view self.old) (⟦<Mirror<L, G> as Rack>⟧.view self.new) }
        ensures cause { HasCause (IsErr result)
            (⟦<Mirror<L, G> as Rack>⟧.view self.old) (⟦<Mirror<L, G> as Rack>⟧.view self.new) }
        ensures quiet { IsOk result → self.new.faults ≡ self.old.faults }
        ensures failed { IsErr result → self.new.faults ≡ raised self.old.faults 1 }
        ensures sides { MirrorCall 1 0 0 (IsErr result) ⊥
            (two_sides (L.view self.old.left) (G.view self.old.right) self.old.sides)
            (two_sides (L.view self.new.left) (G.view self.new.right) self.new.sides) }
        ensures same { (self.new.level ≡ self.old.level) × (self.new.lapsed ≡ self.old.lapsed)
            × (self.new.starved ≡ self.old.starved) }
        ensures read { MirrorRead
            (two_sides (L.view self.old.left) (G.view self.old.right) self.old.sides)
            (two_sides (L.view self.new.left) (G.view self.new.right) self.new.sides) }
    {
        self.moves = self.moves.saturating_add(1);
        let left = read_row_of(&mut self.left, self.sides.left, places, bytes);
        let asked = asks_right(self.sides, left);
        let right = read_row_of(&mut self.right, asked, places, bytes);
        let answer = either(left, right);
        count_fault(&mut self.faults, answer.is_err());
        answer
    }

    fn write_row(&mut self, places: &[Option<u64>], bytes: &[u8]) -> Result<(), Failed>
        requires { RowFits (⟦<Mirror<L, G> as Rack>⟧.view self.old).attached
            places.now (length bytes.now) }
        ensures written { (dims : Dims)
            → (⟦<Mirror<L, G> as Rack>⟧.view self.old).attached ≡ Some dims
            → RowWritten ⟦<Mirror<L, G> as Rack>⟧.tells_contents dims
            (⟦<Mirror<L, G> as Rack>⟧.view self.old) places.now bytes.now result
            (⟦<Mirror<L, G> as Rack>⟧.view self.new) }
        ensures counts { RaisesCounts 1 0 0
            (⟦<Mirror<L, G> as Rack>⟧.view self.old) (⟦<Mirror<L, G> as Rack>⟧.view self.new) }
        ensures keeps { Keeps
            (⟦<Mirror<L, G> as Rack>⟧.view self.old) (⟦<Mirror<L, G> as Rack>⟧.view self.new) }
        ensures cause { HasCause (IsErr result)
            (⟦<Mirror<L, G> as Rack>⟧.view self.old) (⟦<Mirror<L, G> as Rack>⟧.view self.new) }
        ensures quiet { IsOk result → self.new.faults ≡ self.old.faults }
        ensures failed { IsErr result → self.new.faults ≡ raised self.old.faults 1 }
        ensures sides { MirrorCall 1 0 0 (IsErr result) ⊥
            (two_sides (L.view self.old.left) (G.view self.old.right) self.old.sides)
            (two_sides (L.view self.new.left) (G.view self.new.right) self.new.sides) }
        ensures same { (self.new.level ≡ self.old.level) × (self.new.lapsed ≡ self.old.lapsed)
            × (self.new.starved ≡ self.old.starved) }
    {
        self.moves = self.moves.saturating_add(1);
        let left = write_row_of(&mut self.left, self.sides.left, places, bytes);
        let right = write_row_of(&mut self.right, self.sides.right, places, bytes);
        let answer = settle(&mut self.sides, left, right);
        count_fault(&mut self.faults, answer.is_err());
        answer
    }

    fn read_page(&mut self, page: u16, bytes: &mut [u8; PAGE_BYTES]) -> Result<(), Failed>
        requires ready { IsAttached (⟦<Mirror<L, G> as Rack>⟧.view self.old).attached }
        requires page { page < 516 }
        ensures length { length bytes.new ≡ 512 }
        ensures bytes { PageRead ⟦<Mirror<L, G> as Rack>⟧.tells_contents
            (⟦<Mirror<L, G> as Rack>⟧.view self.old).contents page result bytes.new }
        ensures state { SameState
            (⟦<Mirror<L, G> as Rack>⟧.view self.old) (⟦<Mirror<L, G> as Rack>⟧.view self.new) }
        ensures counts { RaisesCounts 0 1 0
            (⟦<Mirror<L, G> as Rack>⟧.view self.old) (⟦<Mirror<L, G> as Rack>⟧.view self.new) }
        ensures keeps { Keeps
            (⟦<Mirror<L, G> as Rack>⟧.view self.old) (⟦<Mirror<L, G> as Rack>⟧.view self.new) }
        ensures cause { HasCause (IsErr result)
            (⟦<Mirror<L, G> as Rack>⟧.view self.old) (⟦<Mirror<L, G> as Rack>⟧.view self.new) }
        ensures quiet { IsOk result → self.new.faults ≡ self.old.faults }
        ensures failed { IsErr result → self.new.faults ≡ raised self.old.faults 1 }
        ensures sides { MirrorCall 0 1 0 (IsErr result) ⊥
            (two_sides (L.view self.old.left) (G.view self.old.right) self.old.sides)
            (two_sides (L.view self.new.left) (G.view self.new.right) self.new.sides) }
        ensures same { (self.new.level ≡ self.old.level) × (self.new.lapsed ≡ self.old.lapsed)
            × (self.new.starved ≡ self.old.starved) }
        ensures read { MirrorRead
            (two_sides (L.view self.old.left) (G.view self.old.right) self.old.sides)
            (two_sides (L.view self.new.left) (G.view self.new.right) self.new.sides) }
    {
        self.pages = self.pages.saturating_add(1);
        let left = read_page_of(&mut self.left, self.sides.left, page, bytes);
        let asked = asks_right(self.sides, left);
        let right = read_page_of(&mut self.right, asked, page, bytes);
        let answer = either(left, right);
        count_fault(&mut self.faults, answer.is_err());
        answer
    }

    fn write_page(&mut self, page: u16, bytes: &[u8; PAGE_BYTES]) -> Result<(), Failed>
        requires ready { IsAttached (⟦<Mirror<L, G> as Rack>⟧.view self.old).attached }
        requires page { page < 516 }
        ensures written { PageWritten ⟦<Mirror<L, G> as Rack>⟧.tells_contents
            (⟦<Mirror<L, G> as Rack>⟧.view self.old) page bytes.now result
            (⟦<Mirror<L, G> as Rack>⟧.view self.new) }
        ensures counts { RaisesCounts 0 1 0
            (⟦<Mirror<L, G> as Rack>⟧.view self.old) (⟦<Mirror<L, G> as Rack>⟧.view self.new) }
        ensures keeps { Keeps
            (⟦<Mirror<L, G> as Rack>⟧.view self.old) (⟦<Mirror<L, G> as Rack>⟧.view self.new) }
        ensures cause { HasCause (IsErr result)
            (⟦<Mirror<L, G> as Rack>⟧.view self.old) (⟦<Mirror<L, G> as Rack>⟧.view self.new) }
        ensures quiet { IsOk result → self.new.faults ≡ self.old.faults }
        ensures failed { IsErr result → self.new.faults ≡ raised self.old.faults 1 }
        ensures sides { MirrorCall 0 1 0 (IsErr result) ⊥
            (two_sides (L.view self.old.left) (G.view self.old.right) self.old.sides)
            (two_sides (L.view self.new.left) (G.view self.new.right) self.new.sides) }
        ensures same { (self.new.level ≡ self.old.level) × (self.new.lapsed ≡ self.old.lapsed)
            × (self.new.starved ≡ self.old.starved) }
    {
        self.pages = self.pages.saturating_add(1);
        let left = write_page_of(&mut self.left, self.sides.left, page, bytes);
        let right = write_page_of(&mut self.right, self.sides.right, page, bytes);
        let answer = settle(&mut self.sides, left, right);
        count_fault(&mut self.faults, answer.is_err());
        answer
    }

    fn sync(&mut self) -> Result<(), Failed>
        requires { IsAttached (⟦<Mirror<L, G> as Rack>⟧.view self.old).attached }
        ensures synced { Synced (⟦<Mirror<L, G> as Rack>⟧.view self.old) result
            (⟦<Mirror<L, G> as Rack>⟧.view self.new) }
        ensures counts { RaisesCounts 0 0 1
            (⟦<Mirror<L, G> as Rack>⟧.view self.old) (⟦<Mirror<L, G> as Rack>⟧.view self.new) }
        ensures keeps { Keeps
            (⟦<Mirror<L, G> as Rack>⟧.view self.old) (⟦<Mirror<L, G> as Rack>⟧.view self.new) }
        ensures cause { HasCause (IsErr result)
            (⟦<Mirror<L, G> as Rack>⟧.view self.old) (⟦<Mirror<L, G> as Rack>⟧.view self.new) }
        ensures quiet { IsOk result → self.new.faults ≡ self.old.faults }
        ensures failed { IsErr result → self.new.faults ≡ raised self.old.faults 1 }
        ensures sides { MirrorCall 0 0 1 (IsErr result) ⊥
            (two_sides (L.view self.old.left) (G.view self.old.right) self.old.sides)
            (two_sides (L.view self.new.left) (G.view self.new.right) self.new.sides) }
        ensures same { (self.new.level ≡ self.old.level) × (self.new.lapsed ≡ self.old.lapsed)
            × (self.new.starved ≡ self.old.starved) }
    {
        self.syncs = self.syncs.saturating_add(1);
        let left = sync_of(&mut self.left, self.sides.left);
        let right = sync_of(&mut self.right, self.sides.right);
        let answer = settle(&mut self.sides, left, right);
        count_fault(&mut self.faults, answer.is_err());
        answer
    }

    fn rows(&self) -> u64 {
        self.moves
    }
}
