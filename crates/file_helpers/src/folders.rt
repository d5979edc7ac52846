//! A folder for each test. The tests of a crate may run one after another in the crate's folder,
//! where the files of one would stand before the next, and before the next run.

use std::{env, fs, io};

/// Makes the folder `test-folders/NAME` below the current one, empty, and makes it the current
/// folder. A test calls it first, with its own name.
///
/// Whatever an earlier run left there is removed: a folder with all that it holds, a file, a link.
pub fn enter_empty_folder(rt: &HostRuntime, name: &str) -> io::Result<()> {
    let path = format!(in rt.alloc(); "test-folders/{name}")?;
    fs::create_dir_all(rt, "test-folders")?;
    // One of them fails, and both where nothing stands. What can't be removed fails the next call.
    let _ = fs::remove_dir_all(rt, path.as_str());
    let _ = fs::remove_file(rt, path.as_str());
    fs::create_dir(rt, path.as_str())?;
    env::set_current_dir(rt, path.as_str())
}
