//! The folder of a test.

use file_helpers::enter_empty_folder;
use std::os::unix::fs::symlink;
use std::test::Fail;
use std::{env, fs, io};

// Leaves a file, a folder that holds another, and a link that leads nowhere.
fn litter(rt: &HostRuntime) -> io::Result<()> {
    fs::write(rt, "file", b"text")?;
    fs::create_dir_all(rt, "folder/below")?;
    fs::write(rt, "folder/below/file", b"text")?;
    symlink(rt, "nowhere", "link")
}

// How many names the current folder holds.
fn names(rt: &HostRuntime) -> io::Result<usize> {
    let mut count = 0usize;
    for entry in fs::read_dir(rt, ".")? {
        let _ = entry?;
        count = count.saturating_add(1);
    }
    Ok(count)
}

// The folder is empty whatever a test, or one that was cut off, left in it or in its place.
#[test]
fn a_folder_is_made_anew(rt: HostRuntime) -> Result<(), Fail> {
    let name = "a_folder_is_made_anew";
    let path = "test-folders/a_folder_is_made_anew";
    enter_empty_folder(&rt, name)?;
    let empty = names(&rt)?;
    litter(&rt)?;
    let littered = names(&rt)?;
    env::set_current_dir(&rt, "../..")?;
    enter_empty_folder(&rt, name)?;
    let after_files = names(&rt)?;
    env::set_current_dir(&rt, "../..")?;
    fs::remove_dir(&rt, path)?;
    fs::write(&rt, path, b"text")?;
    enter_empty_folder(&rt, name)?;
    let after_a_file = names(&rt)?;
    env::set_current_dir(&rt, "../..")?;
    fs::remove_dir(&rt, path)?;
    symlink(&rt, "nowhere", path)?;
    enter_empty_folder(&rt, name)?;
    let after_a_link = names(&rt)?;
    assert_eq!(rt;
        [empty, littered, after_files, after_a_file, after_a_link],
        [0, 3, 0, 0, 0]
    );
    Ok(())
}
