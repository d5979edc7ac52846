//! The paths of a rack's files.

ghost use Rattle.std.specs.Prelude.{◌≡◌, ◌+◌, ◌<◌, ◌≤◌, ◌++◌, codes, IfOk};
ghost use Rattle.std.specs.String.{string_bytes, string_len, string_capacity};
ghost use Rattle.bm_filerack.specs.FileNames.{disk_name, bay_front};

use std::alloc::{AllocError, Global};

// The most bytes of a file's name after what all paths begin with.
const NAME_BYTES: usize = 7;

/// The path of one of a rack's files. To spell another one takes no memory.
#[derive(Drop)]
pub struct FilePath {
    // What each path begins with.
    front: String,
    path: String,
    ghost room: { string_len front + 7 ≤ string_capacity path },
}

impl FilePath {
    /// An empty path, and room for each of those that begin so.
    pub fn new(alloc: Global, front: &str) -> Result<FilePath, AllocError>
        ensures { IfOk result (λ path. string_bytes path.front ≡ front.now) }
    {
        let path = String::with_capacity(alloc, front.len() + NAME_BYTES)?;
        let front = String::from_str(alloc, front)?;
        Ok(FilePath { front, path })
    }

    /// The path that was spelled last.
    pub fn as_str(&self) -> &str
        ensures { result.now ≡ string_bytes self.now.path }
    {
        self.path.as_str()
    }

    /// Spells the path of the slate's file.
    pub fn spell_slate(&mut self)
        ensures path { string_bytes self.new.path ≡ string_bytes self.old.front ++ codes "slate" }
        ensures front { self.new.front ≡ self.old.front }
    {
        self.path.clear();
        let _ = self.path.push_str(self.front.as_str());
        let _ = self.path.push_str("slate");
    }

    /// Spells the path of a disk's file.
    pub fn spell_disk(&mut self, disk: u32)
        requires { disk < 100 }
        ensures path { string_bytes self.new.path ≡ string_bytes self.old.front ++ disk_name disk }
        ensures front { self.new.front ≡ self.old.front }
    {
        self.path.clear();
        let _ = self.path.push_str(self.front.as_str());
        let _ = self.path.push_str("disk-");
        let _ = self.path.push(digit(disk / 10));
        let _ = self.path.push(digit(disk % 10));
    }
}

/// What the paths of the files in a folder begin with.
pub fn front_in(alloc: Global, folder: &str) -> Result<String, AllocError>
    ensures { IfOk result (λ front. string_bytes front ≡ folder.now ++ codes "/bmmc-") }
{
    let mut front = String::from_str(alloc, folder)?;
    front.push_str("/bmmc-")?;
    Ok(front)
}

/// What the paths of a bay's files begin with.
pub fn bay_front(alloc: Global, number: u16) -> Result<String, AllocError>
    requires { number < 100 }
    ensures { IfOk result (λ front. string_bytes front ≡ bay_front number) }
{
    let number = u32::from(number);
    let mut front = String::from_str(alloc, "bmmc-bay-")?;
    front.push(digit(number / 10))?;
    front.push(digit(number % 10))?;
    front.push('-')?;
    Ok(front)
}

// A decimal digit.
fn digit(value: u32) -> char
    requires { value < 10 }
    ensures { result ≡ 48 + value }
{
    char::from(b'0' + value as u8)
}
