//! The places of a row call.

ghost use Rattle.std.specs.Prelude.{◌≡◌, ℕ, ◌<◌, length, Some};
ghost use Rattle.bm_rack.specs.Calls.{place_on};

use bm_base::MOST_DISKS;

/// One place on each disk that a rack can have. A row call takes the entries of its own disks,
/// which are the first.
pub fn same_places(place: u64) -> [Option<u64>; MOST_DISKS as usize]
    ensures length { length result ≡ 64 }
    ensures each { (disk : ℕ) → disk < 64 → place_on result disk ≡ Some place }
{
    let mut places = [None; MOST_DISKS as usize];
    for disk in 0..MOST_DISKS as usize {
        places[disk] = Some(place);
    }
    places
}
