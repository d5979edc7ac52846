//! Racks over files whose calls are noted.

ghost use Rattle.std.specs.Prelude.{◌≡◌, Some};

use crate::racks::{DIMS, is_attached};
use bm_base::Failed;
use bm_filerack::FileRack;
use bm_rack::{CreateError, Found, Rack};
use file_helpers::{Notes, Watched, enter_empty_folder};
use std::fs;
use std::test::Fail;

#[test]
fn a_rack_is_made_with_its_names_durable(rt: HostRuntime) -> Result<(), Fail> {
    enter_empty_folder(&rt, "a_rack_is_made_with_its_names_durable")?;
    let notes = Notes::new(rt.alloc());
    let files = Watched::new(&rt, &notes);
    let mut rack = FileRack::new(&files, rt.alloc()).ok().ok_or("memory")?;
    assert_eq!(rt; rack.create(&DIMS), Ok(()));
    assert_eq!(rt;
        notes.take().as_str(),
        "make bmmc-disk-00
length bmmc-disk-00 12
sync bmmc-disk-00
make bmmc-disk-01
length bmmc-disk-01 12
sync bmmc-disk-01
make bmmc-slate
lock bmmc-slate
open .
sync .
length bmmc-slate 264192
sync bmmc-slate
"
    );
    assert_eq!(rt; rack.attach(&DIMS), Ok(Found::Ready));
    assert_eq!(rt;
        notes.take().as_str(),
        "open bmmc-slate\nlock bmmc-slate\nopen bmmc-disk-00\nopen bmmc-disk-01\n"
    );
    Ok(())
}

#[test]
fn a_create_that_fails_removes_what_it_made(rt: HostRuntime) -> Result<(), Fail> {
    enter_empty_folder(&rt, "a_create_that_fails_removes_what_it_made")?;
    let notes = Notes::new(rt.alloc());
    let files = Watched::new(&rt, &notes);
    let mut rack = FileRack::new(&files, rt.alloc()).ok().ok_or("memory")?;
    // It looks for 65 files, makes each disk by three calls, and the slate by six.
    for number in 1..78 {
        notes.fail(number);
        assert_eq!(rt; rack.create(&DIMS), Err(CreateError::Failed), "{number}");
        assert_eq!(rt; rack.attach(&DIMS), Ok(Found::Absent), "{number}");
        let _ = notes.take();
    }
    notes.fail(77);
    assert_eq!(rt; rack.create(&DIMS), Err(CreateError::Failed));
    let text = notes.take();
    assert!(rt;
        text.ends_with(
            "sync bmmc-slate
remove bmmc-slate
remove bmmc-disk-00
remove bmmc-disk-01
open .
sync .
"
        )
    );
    notes.fail(78);
    assert_eq!(rt; rack.create(&DIMS), Ok(()));
    Ok(())
}

// Writes here and there, and syncs after each write and twice at the start.
fn write_and_sync<R: Rack>(rack: &mut R) -> Result<(), Failed>
    requires { (R.view rack.old).attached ≡ Some DIMS }
{
    rack.sync()?;
    rack.sync()?;
    rack.write_page(515, &[7u8; 512])?;
    rack.sync()?;
    rack.write_row(&[None, Some(2)], b"abcdefgh")?;
    rack.sync()
}

#[test]
fn a_file_is_synced_where_it_was_written(rt: HostRuntime) -> Result<(), Fail> {
    enter_empty_folder(&rt, "a_file_is_synced_where_it_was_written")?;
    let notes = Notes::new(rt.alloc());
    let files = Watched::new(&rt, &notes);
    let mut rack = FileRack::new(&files, rt.alloc()).ok().ok_or("memory")?;
    assert_eq!(rt; rack.create(&DIMS), Ok(()));
    let ready = is_attached(&mut rack);
    let _ = notes.take();
    let done = ready && write_and_sync(&mut rack).is_ok();
    assert!(rt; done);
    assert_eq!(rt;
        notes.take().as_str(),
        "data bmmc-disk-00
data bmmc-disk-01
data bmmc-slate
write bmmc-slate 263680 512
data bmmc-slate
write bmmc-disk-01 8 4
data bmmc-disk-01
"
    );
    Ok(())
}

// A write that fails, a sync that fails, and one that does not.
fn fail_and_sync<R: Rack>(rack: &mut R, notes: &Notes) -> Result<(), Failed>
    requires { (R.view rack.old).attached ≡ Some DIMS }
{
    rack.sync()?;
    let _ = notes.take();
    notes.fail(2);
    let _ = rack.write_row(&[Some(1), Some(1)], b"abcdefgh");
    notes.fail(2);
    let _ = rack.sync();
    rack.sync()
}

#[test]
fn a_file_that_failed_is_synced_again(rt: HostRuntime) -> Result<(), Fail> {
    enter_empty_folder(&rt, "a_file_that_failed_is_synced_again")?;
    let notes = Notes::new(rt.alloc());
    let files = Watched::new(&rt, &notes);
    let mut rack = FileRack::new(&files, rt.alloc()).ok().ok_or("memory")?;
    assert_eq!(rt; rack.create(&DIMS), Ok(()));
    let ready = is_attached(&mut rack);
    let done = ready && fail_and_sync(&mut rack, &notes).is_ok();
    assert!(rt; done);
    assert_eq!(rt;
        notes.take().as_str(),
        "write bmmc-disk-00 4 4
write bmmc-disk-01 4 4
data bmmc-disk-00
data bmmc-disk-01
data bmmc-disk-01
"
    );
    Ok(())
}
