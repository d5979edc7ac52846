//! Racks over real files.

ghost use Rattle.std.specs.Prelude.{◌≡◌, IsTrue, Some};

use bm_base::{Dims, Failed};
use bm_filerack::FileRack;
use bm_rack::{AttachError, CreateError, Found, Rack};
use file_helpers::enter_empty_folder;
use std::fs;
use std::fs::{File, Permissions};
use std::os::unix::fs::{PermissionsExt, symlink};
use std::test::Fail;

/// Two disks of three blocks of four bytes.
pub const DIMS: Dims = Dims {
    disks: 2,
    places: 3,
    block: 4,
};

// A disk longer than any file.
const TOO_LONG: Dims = Dims {
    disks: 1,
    places: 1 << 62,
    block: 2,
};

/// Attaches the rack of two disks.
pub fn is_attached<R: Rack>(rack: &mut R) -> bool
    ensures { IsTrue result → (R.view rack.new).attached ≡ Some DIMS }
{
    match rack.attach(&DIMS) {
        Ok(Found::Ready) => true,
        _ => false,
    }
}

// Writes two rows and reads one of them, with other places on each disk.
fn move_rows<R: Rack>(rack: &mut R, row: &mut [u8; 8]) -> Result<(), Failed>
    requires { (R.view rack.old).attached ≡ Some DIMS }
    ensures { (R.view rack.new).attached ≡ Some DIMS }
{
    rack.write_row(&[Some(1), Some(2)], b"abcdefgh")?;
    rack.write_row(&[Some(2), Some(0)], b"ijklmnop")?;
    rack.read_row(&[Some(1), None], row)
}

// Writes two neighbouring pages and the last one, and reads the first two.
fn move_pages<R: Rack>(rack: &mut R, one: &mut [u8; 512], two: &mut [u8; 512]) -> Result<(), Failed>
    requires { (R.view rack.old).attached ≡ Some DIMS }
{
    rack.write_page(1, &[5; 512])?;
    rack.write_page(2, &[6; 512])?;
    rack.write_page(515, &[7; 512])?;
    rack.read_page(1, one)?;
    rack.read_page(2, two)?;
    rack.sync()
}

/// Whether a file can be read and holds these bytes.
pub fn holds(rt: &HostRuntime, path: &str, want: &[u8]) -> bool {
    match fs::read(rt, path) {
        Ok(bytes) => bytes.as_slice() == want,
        Err(_) => false,
    }
}

#[test]
fn a_rack_of_files_keeps_its_blocks(rt: HostRuntime) -> Result<(), Fail> {
    enter_empty_folder(&rt, "a_rack_of_files_keeps_its_blocks")?;
    let mut rack = FileRack::new(&rt, rt.alloc()).ok().ok_or("memory")?;
    let found = rack.attach(&DIMS);
    let created = [
        rack.create(&TOO_LONG),
        rack.create(&DIMS),
        rack.create(&DIMS),
    ];
    assert_eq!(rt;
        (found, created),
        (
            Ok(Found::Absent),
            [Err(CreateError::Failed), Ok(()), Err(CreateError::Present)]
        )
    );
    let mut row = [9; 8];
    let done = is_attached(&mut rack) && move_rows(&mut rack, &mut row).is_ok();
    assert_eq!(rt;
        (done, rack.rows(), row),
        (true, 3, *b"abcd\x09\x09\x09\x09")
    );
    assert_eq!(rt;
        (
            holds(&rt, "bmmc-disk-00", b"\0\0\0\0abcdijkl"),
            holds(&rt, "bmmc-disk-01", b"mnop\0\0\0\0efgh")
        ),
        (true, true)
    );
    Ok(())
}

#[test]
fn a_rack_of_files_keeps_its_pages(rt: HostRuntime) -> Result<(), Fail> {
    enter_empty_folder(&rt, "a_rack_of_files_keeps_its_pages")?;
    let mut rack = FileRack::new(&rt, rt.alloc()).ok().ok_or("memory")?;
    let mut one = [0; 512];
    let mut two = [0; 512];
    let done = rack.create(&DIMS).is_ok()
        && is_attached(&mut rack)
        && move_pages(&mut rack, &mut one, &mut two).is_ok();
    let slate = fs::read(&rt, "bmmc-slate")?;
    assert_eq!(rt;
        (done, one == [5; 512], two == [6; 512], slate.len()),
        (true, true, true, 264192)
    );
    for (at, want) in [
        (511, 0),
        (512, 5),
        (1023, 5),
        (1024, 6),
        (1535, 6),
        (1536, 0),
        (263679, 0),
        (263680, 7),
    ] {
        assert_eq!(rt; slate.get(at).copied(), Some(want), "{at}");
    }
    Ok(())
}

#[test]
fn another_set_of_files_is_something_else(rt: HostRuntime) -> Result<(), Fail> {
    enter_empty_folder(&rt, "another_set_of_files_is_something_else")?;
    let mut rack = FileRack::new(&rt, rt.alloc()).ok().ok_or("memory")?;
    assert_eq!(rt;
        (rack.create(&DIMS), rack.attach(&TOO_LONG)),
        (Ok(()), Ok(Found::Other))
    );
    for (path, length) in [("bmmc-disk-63", 12), ("bmmc-disk-02", 0)] {
        File::create(&rt, path)?.set_len(length)?;
        assert_eq!(rt; rack.attach(&DIMS), Ok(Found::Other), "{path}");
        fs::remove_file(&rt, path)?;
    }
    for (path, length, right) in [
        ("bmmc-disk-01", 13, 12),
        ("bmmc-disk-00", 11, 12),
        ("bmmc-slate", 0, 264192),
    ] {
        let file = File::options().write(true).open(&rt, path)?;
        file.set_len(length)?;
        let other = rack.attach(&DIMS);
        file.set_len(right)?;
        let found = [other, rack.attach(&DIMS)];
        assert_eq!(rt; found, [Ok(Found::Other), Ok(Found::Ready)], "{path}");
    }
    fs::remove_file(&rt, "bmmc-disk-00")?;
    let gone = rack.attach(&DIMS);
    fs::create_dir(&rt, "bmmc-disk-00")?;
    let found = [gone, rack.attach(&DIMS)];
    assert_eq!(rt;
        (found, rack.create(&DIMS)),
        ([Ok(Found::Other); 2], Err(CreateError::Present))
    );
    Ok(())
}

#[test]
fn a_name_that_is_taken_is_present(rt: HostRuntime) -> Result<(), Fail> {
    enter_empty_folder(&rt, "a_name_that_is_taken_is_present")?;
    let mut rack = FileRack::new(&rt, rt.alloc()).ok().ok_or("memory")?;
    for path in ["bmmc-disk-01", "bmmc-slate"] {
        symlink(&rt, "nowhere", path)?;
        let taken = rack.attach(&DIMS);
        let created = rack.create(&DIMS);
        fs::remove_file(&rt, path)?;
        assert_eq!(rt;
            (taken, created, rack.attach(&DIMS)),
            (
                Ok(Found::Absent),
                Err(CreateError::Present),
                Ok(Found::Absent)
            ),
            "{path}"
        );
    }
    assert_eq!(rt; rack.create(&DIMS), Ok(()));
    Ok(())
}

#[test]
fn a_disk_may_lie_elsewhere(rt: HostRuntime) -> Result<(), Fail> {
    enter_empty_folder(&rt, "a_disk_may_lie_elsewhere")?;
    let mut rack = FileRack::new(&rt, rt.alloc()).ok().ok_or("memory")?;
    let made = rack.create(&DIMS);
    fs::create_dir(&rt, "elsewhere")?;
    fs::rename(&rt, "bmmc-disk-01", "elsewhere/disk")?;
    symlink(&rt, "elsewhere/disk", "bmmc-disk-01")?;
    let mut row = [9; 8];
    let done = is_attached(&mut rack) && move_rows(&mut rack, &mut row).is_ok();
    let held = holds(&rt, "elsewhere/disk", b"mnop\0\0\0\0efgh");
    assert_eq!(rt; (made, done, held), (Ok(()), true, true));
    Ok(())
}

#[test]
fn a_rack_is_attached_once(rt: HostRuntime) -> Result<(), Fail> {
    enter_empty_folder(&rt, "a_rack_is_attached_once")?;
    let mut rack = FileRack::new(&rt, rt.alloc()).ok().ok_or("memory")?;
    let made = rack.create(&DIMS);
    let first = rack.attach(&DIMS);
    let mut other = FileRack::new(&rt, rt.alloc()).ok().ok_or("memory")?;
    let apart = other.attach(&DIMS);
    let again = other.create(&DIMS);
    let still = rack.attach(&DIMS);
    drop(rack);
    let ready = Ok(Found::Ready);
    assert_eq!(rt;
        ([made, again], [first, apart, still, other.attach(&DIMS)]),
        (
            [Ok(()), Err(CreateError::Present)],
            [ready, Err(AttachError::Failed), ready, ready]
        )
    );
    Ok(())
}

#[test]
fn a_file_that_may_not_be_written_is_a_fault(rt: HostRuntime) -> Result<(), Fail> {
    enter_empty_folder(&rt, "a_file_that_may_not_be_written_is_a_fault")?;
    let mut rack = FileRack::new(&rt, rt.alloc()).ok().ok_or("memory")?;
    assert_eq!(rt; rack.create(&DIMS), Ok(()));
    for path in ["bmmc-slate", "bmmc-disk-01"] {
        fs::set_permissions(&rt, path, Permissions::from_mode(0o444))?;
        // The superuser may write each file.
        let may_write = File::options().write(true).open(&rt, path).is_ok();
        let want = if may_write {
            Ok(Found::Ready)
        } else {
            Err(AttachError::Failed)
        };
        assert_eq!(rt; rack.attach(&DIMS), want, "{path}");
        fs::set_permissions(&rt, path, Permissions::from_mode(0o644))?;
    }
    Ok(())
}
