//! Racks in folders of their own, and bays of one folder.

use crate::racks::{DIMS, is_attached};
use bm_filerack::FileRack;
use bm_rack::{CreateError, Found, Rack};
use file_helpers::enter_empty_folder;
use std::fs;
use std::test::Fail;

// How long a file is, or nothing where it can't be read.
fn length_of(rt: &HostRuntime, path: &str) -> Option<usize> {
    Some(fs::read(rt, path).ok()?.len())
}

// A rack of a folder has its files there alone, and none where the folder is missing.
#[test]
fn racks_in_other_folders(rt: HostRuntime) -> Result<(), Fail> {
    enter_empty_folder(&rt, "racks_in_other_folders")?;
    fs::create_dir_all(&rt, "left")?;
    let mut left = FileRack::at(&rt, rt.alloc(), "left").map_err(|_| "memory")?;
    let mut missing = FileRack::at(&rt, rt.alloc(), "right").map_err(|_| "memory")?;
    let mut here = FileRack::new(&rt, rt.alloc()).map_err(|_| "memory")?;
    let created = [left.create(&DIMS), missing.create(&DIMS)];
    let found = here.attach(&DIMS);
    assert_eq!(rt;
        (created, found, is_attached(&mut left)),
        ([Ok(()), Err(CreateError::Failed)], Ok(Found::Absent), true)
    );
    let lengths = [
        length_of(&rt, "left/bmmc-slate"),
        length_of(&rt, "left/bmmc-disk-01"),
    ];
    assert_eq!(rt; lengths, [Some(264192), Some(12)]);
    Ok(())
}

// Bays lie side by side in one folder, and beside its rack.
#[test]
fn bays_of_one_folder(rt: HostRuntime) -> Result<(), Fail> {
    enter_empty_folder(&rt, "bays_of_one_folder")?;
    let mut seven = FileRack::bay(&rt, rt.alloc(), 7).map_err(|_| "memory")?;
    let mut last = FileRack::bay(&rt, rt.alloc(), 63).map_err(|_| "memory")?;
    let mut rack = FileRack::new(&rt, rt.alloc()).map_err(|_| "memory")?;
    let made = seven.create(&DIMS);
    let before = last.attach(&DIMS);
    let created = [made, last.create(&DIMS)];
    let found = [before, rack.attach(&DIMS)];
    assert_eq!(rt;
        (created, found, is_attached(&mut seven)),
        ([Ok(()); 2], [Ok(Found::Absent); 2], true)
    );
    let lengths = [
        length_of(&rt, "bmmc-bay-07-disk-01"),
        length_of(&rt, "bmmc-bay-63-slate"),
    ];
    assert_eq!(rt; lengths, [Some(12), Some(264192)]);
    Ok(())
}
