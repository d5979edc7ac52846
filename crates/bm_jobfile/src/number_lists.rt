//! Lists of numbers.

ghost use Rattle.std.specs.Prelude.{◌≡◌, IfOk, List, Option, ℕ, option_map};
ghost use Rattle.toml.specs.View.{items_view};
ghost use Rattle.bm_jobfile.specs.Fields.{is_byte, is_any, numbers_of};

use crate::fields::{byte_of, count_of};
use std::alloc::{AllocError, Global};
use std::marker::Model;
use toml::Value;

/// Numbers of one byte. Contracts see the list.
#[derive(Drop)]
pub struct ByteList {
    list: Vec<u8>,
}

impl Model for ByteList {
    ghost use Rattle.std.specs.Prelude.{List, ℕ};

    ghost Value = { List ℕ };

    ghost view = { λ s. s.list.items };
}

impl ByteList {
    /// The numbers.
    pub fn as_slice(&self) -> &[u8]
        ensures { result.now ≡ self.now }
    {
        self.list.as_slice()
    }
}

/// Numbers of at least 0. Contracts see the list.
#[derive(Drop)]
pub struct WordList {
    list: Vec<u64>,
}

impl Model for WordList {
    ghost use Rattle.std.specs.Prelude.{List, ℕ};

    ghost Value = { List ℕ };

    ghost view = { λ s. s.list.items };
}

impl WordList {
    /// The numbers.
    pub fn as_slice(&self) -> &[u64]
        ensures { result.now ≡ self.now }
    {
        self.list.as_slice()
    }
}

/// The values as numbers of one byte, or nothing where one is none.
pub fn bytes_of(alloc: Global, values: &[Value]) -> Result<Option<ByteList>, AllocError>
    ensures { IfOk result (λ found. found ≡ numbers_of is_byte (items_view values.now)) }
{
    let mut list = Vec::new(alloc);
    for value in values {
        match byte_of(value) {
            Some(number) => list.push(number)?,
            None => return Ok(None),
        }
    }
    Ok(Some(ByteList { list }))
}

/// The values as numbers of at least 0, or nothing where one is none.
pub fn words_of(alloc: Global, values: &[Value]) -> Result<Option<WordList>, AllocError>
    ensures { IfOk result (λ found. found ≡ numbers_of is_any (items_view values.now)) }
{
    let mut list = Vec::new(alloc);
    for value in values {
        match count_of(value) {
            Some(number) => list.push(number)?,
            None => return Ok(None),
        }
    }
    Ok(Some(WordList { list }))
}
