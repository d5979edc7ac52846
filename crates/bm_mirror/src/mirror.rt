//! Two racks as one.

ghost use Rattle.std.specs.Prelude.{◌≡◌, ◌&&◌, ◌<◌, ◌^◌};
ghost use Rattle.bm_mirror.specs.TwoSides.{two_sides, tells_all, IsMirror};
ghost use Rattle.bm_mirror.specs.Lasting.{history, Remembers};

use crate::asking::{count_fault, level_after};
use crate::healing::{HealError, Healed, fill_sides};
use crate::sides::{Side, Sides};
use bm_base::Dims;
use bm_rack::Rack;

/// Two racks that hold the same, as one: it fails only where both do.
///
/// A side that is in holds what the mirror holds. A write or a sync goes to each side that is in,
/// and one that fails goes out, but for the last. A read asks the left side first, and takes none
/// out. A side that is out is not asked, and `heal` takes it in again. Where both are in, a create
/// is `Present` and asks neither. The mirror takes no memory.
///
/// It keeps for proofs which sides are level: they were in while no call of it had failed. `lapsed`
/// says that the right side went out by its answer to an attach, with no fault of its own. `starved`
/// says that a create made the side that was out and was then refused memory for the other one. No
/// create is begun after that, since it would find the one made and leave it out, with no fault.
#[derive(Drop)]
pub struct Mirror<L: Rack, G: Rack> {
    pub(crate) left: L,
    pub(crate) right: G,
    pub(crate) sides: Sides,
    pub(crate) attached: Option<Dims>,
    pub(crate) faults: u64,
    pub(crate) moves: u64,
    pub(crate) pages: u64,
    pub(crate) syncs: u64,
    pub(crate) level: Sides,
    pub(crate) lapsed: bool,
    pub(crate) starved: bool,
    pub ghost keeps: { IsMirror (L.tells_stands && G.tells_stands)
        (tells_all L.tells_stands G.tells_stands L.tells_contents G.tells_contents)
        (two_sides (L.view left) (G.view right) sides) attached },
    pub ghost remembers: { Remembers (L.tells_stands && G.tells_stands)
        (two_sides (L.view left) (G.view right) sides) (history level lapsed starved faults) },
    ghost faults_fit: { faults < 2 ^ 64 },
    ghost moves_fit: { moves < 2 ^ 64 },
    ghost pages_fit: { pages < 2 ^ 64 },
    ghost syncs_fit: { syncs < 2 ^ 64 },
}

impl<L: Rack, G: Rack> Mirror<L, G> {
    ghost use Rattle.std.specs.Prelude.{◌≡◌, ◌≢◌, ◌&&◌, ◌*◌, ◌≤◌, true, false, length, None, IsTrue, IsFalse, IsOk};
    ghost use Rattle.bm_base.specs.Count.{raised};
    ghost use Rattle.bm_rack.specs.RackView.{IsClean};
    ghost use Rattle.bm_rack.specs.Frames.{Keeps};
    ghost use Rattle.bm_mirror.specs.Healing.{MirrorHeal, ShowsTheSame};
    ghost use Rattle.bm_mirror.specs.TwoSides.{two_sides, tells_all, IsLevel, HasSideImages};
    ghost use Rattle.bm_mirror.specs.Lasting.{LevelNow};

    /// The first side is in and level, the other out. Nothing is attached, and every count is 0.
    pub fn new(left: L, right: G, first: Side) -> Mirror<L, G>
        ensures left { result.left ≡ left }
        ensures right { result.right ≡ right }
        ensures first_left { first ≡ Side.Left
            → (result.sides.left ≡ true) × (result.sides.right ≡ false) }
        ensures first_right { first ≡ Side.Right
            → (result.sides.left ≡ false) × (result.sides.right ≡ true) }
        ensures attached { result.attached ≡ None }
        ensures counts { (result.faults ≡ 0) × (result.moves ≡ 0)
            × (result.pages ≡ 0) × (result.syncs ≡ 0) }
        ensures level { result.level ≡ result.sides }
        ensures fresh { (result.lapsed ≡ false) × (result.starved ≡ false) }
    {
        let sides = Sides {
            left: first == Side::Left,
            right: first == Side::Right,
        };
        Mirror {
            left,
            right,
            sides,
            attached: None,
            faults: 0,
            moves: 0,
            pages: 0,
            syncs: 0,
            level: sides,
            lapsed: false,
            starved: false,
        }
    }

    /// Which sides are in. One at least always is, two that are in are level, and each image of one
    /// that is in is an image of the mirror, as far as that is told.
    pub fn sides(&self) -> Sides
        ensures answer { result ≡ self.now.sides }
        ensures some_in { IsFalse result.left → IsTrue result.right }
        ensures level { IsTrue result.left → IsTrue result.right
            → IsLevel (L.tells_stands && G.tells_stands)
            (tells_all L.tells_stands G.tells_stands L.tells_contents G.tells_contents)
            (L.view self.now.left) (G.view self.now.right) }
        ensures images { IsTrue (tells_all L.tells_stands G.tells_stands
            L.tells_contents G.tells_contents)
            → HasSideImages (two_sides (L.view self.now.left) (G.view self.now.right) result)
            (⟦<Mirror<L, G> as Rack>⟧.view self.now) }
    {
        self.sides
    }

    /// Takes in the side that is out, where one is, by a copy of the other.
    ///
    /// The mirror is attached with these sizes, of at most 64 disks, and `row` is one block of each
    /// disk long. It syncs the side that is in, attaches the other, makes it where nothing stands,
    /// copies all blocks and pages, and syncs it. `Level` takes it in. `Apart` leaves it out: it
    /// failed, or something else stands there. `Failed` where the side that is in failed. No answer
    /// changes what the mirror shows, but for the sync, and none its counts, but that of faults.
    pub fn heal(&mut self, dims: &Dims, row: &mut [u8]) -> Result<Healed, HealError>
        requires attached { self.old.attached ≡ Some dims.now }
        requires few { dims.now.disks ≤ 64 }
        requires fits { length row.old ≡ dims.now.disks * dims.now.block }
        ensures sides { MirrorHeal L.tells_stands L.tells_contents
            G.tells_stands G.tells_contents dims.now result
            (two_sides (L.view self.old.left) (G.view self.old.right) self.old.sides)
            (two_sides (L.view self.new.left) (G.view self.new.right) self.new.sides) }
        ensures shows { ShowsTheSame
            (⟦<Mirror<L, G> as Rack>⟧.view self.old) (⟦<Mirror<L, G> as Rack>⟧.view self.new) }
        ensures clean { ¬ (IsTrue self.old.sides.left × IsTrue self.old.sides.right)
            → IsOk result → IsClean (⟦<Mirror<L, G> as Rack>⟧.view self.new) }
        ensures failed { result ≡ Err HealError.Failed
            → self.new.faults ≡ raised self.old.faults 1 }
        ensures quiet { result ≢ Err HealError.Failed → self.new.faults ≡ self.old.faults }
        ensures keeps { Keeps
            (⟦<Mirror<L, G> as Rack>⟧.view self.old) (⟦<Mirror<L, G> as Rack>⟧.view self.new) }
        ensures left_level { LevelNow self.new.faults self.new.sides.left
            self.old.level.left self.new.level.left }
        ensures right_level { LevelNow self.new.faults self.new.sides.right
            self.old.level.right self.new.level.right }
        ensures same { (self.new.lapsed ≡ self.old.lapsed)
            × (self.new.starved ≡ self.old.starved) }
    {
        let answer = fill_sides(&mut self.left, &mut self.right, &mut self.sides, dims, row);
        count_fault(&mut self.faults, answer == Err(HealError::Failed));
        self.level = level_after(self.level, self.sides, self.faults);
        answer
    }

    /// The two racks, left first.
    pub fn parts(self) -> (L, G)
        ensures left { result.0 ≡ self.left }
        ensures right { result.1 ≡ self.right }
    {
        let Mirror {
            left,
            right,
            sides: _,
            attached: _,
            faults: _,
            moves: _,
            pages: _,
            syncs: _,
            level: _,
            lapsed: _,
            starved: _,
        } = self;
        (left, right)
    }
}
