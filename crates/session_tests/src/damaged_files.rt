//! Files that are not as a command left them.

use bm_filerack::FileRack;
use file_helpers::enter_empty_folder;
use session_helpers::{clear, loaded, said};
use std::fs::File;
use std::os::unix::fs::{FileExt, symlink};
use std::test::Fail;
use std::{fs, io};

// Sets the length of a file that is there.
fn set_length(rt: &HostRuntime, path: &str, length: u64) -> io::Result<()> {
    File::options().write(true).open(rt, path)?.set_len(length)
}

// Sets all bytes of a page of the control file to one value.
fn fill_page(rt: &HostRuntime, page: u16, byte: u8) -> io::Result<()> {
    File::options()
        .write(true)
        .open(rt, "bmmc-slate")?
        .write_all_at(&[byte; 512], 512 * u64::from(page))
}

// Puts a folder, or a link to a device, in the place of a file.
fn replace(rt: &HostRuntime, path: &str, device: Option<&str>) -> io::Result<()> {
    fs::remove_file(rt, path)?;
    match device {
        Some(device) => symlink(rt, device, path),
        None => fs::create_dir(rt, path),
    }
}

// What is done to the files.
#[derive(Clone, Copy, Debug, PartialEq, Eq)]
enum Change {
    Nothing,
    Page(u16),
    Gone(&'static str),
    Folder(&'static str),
    Device(&'static str, &'static str),
    Length(&'static str, u64),
    Extra(&'static str),
}

fn change_files(rt: &HostRuntime, what: Change) -> io::Result<()> {
    match what {
        Change::Nothing => Ok(()),
        Change::Page(page) => fill_page(rt, page, 0xA5),
        Change::Gone(path) => fs::remove_file(rt, path),
        Change::Folder(path) => replace(rt, path, None),
        Change::Device(path, device) => replace(rt, path, Some(device)),
        Change::Length(path, length) => set_length(rt, path, length),
        Change::Extra(path) => fs::write(rt, path, b"more"),
    }
}

// What is done to the files, and the status after it.
const CASES: [(Change, u8); 19] = [
    (Change::Nothing, 0),
    (Change::Page(0), 20),
    (Change::Page(1), 15),
    (Change::Page(2), 20),
    (Change::Page(3), 0),
    (Change::Gone("bmmc-disk-01"), 13),
    (Change::Gone("bmmc-slate"), 13),
    (Change::Folder("bmmc-disk-00"), 13),
    (Change::Folder("bmmc-slate"), 13),
    (Change::Device("bmmc-disk-00", "/dev/zero"), 13),
    (Change::Device("bmmc-slate", "/dev/null"), 13),
    (Change::Length("bmmc-disk-01", 23), 13),
    (Change::Length("bmmc-disk-01", 25), 13),
    (Change::Length("bmmc-slate", 0), 13),
    (Change::Extra("bmmc-disk-02"), 13),
    (Change::Gone("job.toml"), 3),
    (Change::Folder("job.toml"), 3),
    (Change::Device("job.toml", "/dev/null"), 5),
    (Change::Device("job.toml", "/dev/zero"), 4),
];

// A run over files that were damaged after another run, and a status after it.
#[test]
fn damage_is_told(rt: HostRuntime) -> Result<(), Fail> {
    enter_empty_folder(&rt, "damage_is_told")?;
    for (what, want) in CASES {
        clear(&rt);
        let mut rack = FileRack::new(&rt, rt.alloc()).map_err(|_| "memory")?;
        let before = loaded(&rt, &mut rack).ok_or("memory")?;
        let first = said(&rt, "run job.toml", &mut rack).ok_or("memory")?;
        drop(rack);
        change_files(&rt, what)?;
        let mut rack = FileRack::new(&rt, rt.alloc()).map_err(|_| "memory")?;
        let ran = said(&rt, "run job.toml", &mut rack).ok_or("memory")?;
        let told = said(&rt, "status job.toml", &mut rack).ok_or("memory")?;
        assert_eq!(rt;
            (before, first.code, ran.code, told.code),
            (0, 0, want, want),
            "{what:?}"
        );
    }
    Ok(())
}
