//! The keys that a job text may have.

ghost use Rattle.std.specs.Prelude.{◌≡◌, codes, [], ◌∷◌, option_map};
ghost use Rattle.toml.specs.View.{table_view};
ghost use Rattle.bm_jobfile.specs.Keys.{is_one_of, has_only, map_keys, known_keys, optional_members};

use crate::kinds::Kind;
use toml::Table;

/// A table of a job text.
#[derive(Clone, Copy, Debug, PartialEq, Eq)]
pub enum TableName {
    /// The document itself.
    Document,
    /// `shape`.
    Shape,
    /// `map`, of a map of this kind.
    Map { kind: Kind },
    /// `drill`.
    Drill,
    /// `run`.
    Run,
}

/// Tests that each key of the table is one that it may have.
pub fn has_known_keys(name: TableName, table: &Table) -> bool
    ensures { result ≡ has_only (known_keys name) (table_view table.now) }
{
    for key in table.keys() {
        if !is_known(name, key.as_str()) {
            return false;
        }
    }
    true
}

/// The same of a table that may be missing.
pub fn has_known_keys_if_there(name: TableName, table: Option<&Table>) -> bool
    ensures { result ≡ has_only (known_keys name)
        (optional_members (option_map (λ t. table_view t.now) table.entry)) }
{
    match table {
        Some(found) => has_known_keys(name, found),
        None => true,
    }
}

// Tests that the key is one of the table's.
fn is_known(name: TableName, key: &str) -> bool
    ensures { result ≡ is_one_of (known_keys name) key.now }
{
    match name {
        TableName::Document => is_document_key(key),
        TableName::Shape => is_shape_key(key),
        TableName::Map { kind } => is_key_of_map(kind, key),
        TableName::Drill => is_drill_key(key),
        TableName::Run => key == "checkpoint",
    }
}

// Tests that the key is one of a job text itself.
fn is_document_key(key: &str) -> bool
    ensures { result ≡ is_one_of (known_keys TableName.Document) key.now }
{
    key == "shape" || key == "map" || key == "drill" || key == "run"
}

// Tests that the key is one of a shape.
fn is_shape_key(key: &str) -> bool
    ensures { result ≡ is_one_of (known_keys TableName.Shape) key.now }
{
    key == "n" || key == "b" || key == "d" || key == "m" || key == "width"
}

// Tests that the key is one of a drill.
fn is_drill_key(key: &str) -> bool
    ensures { result ≡ is_one_of (known_keys TableName.Drill) key.now }
{
    key == "start" || key == "stops"
}

// Tests that the key is one of a map of this kind.
fn is_key_of_map(kind: Kind, key: &str) -> bool
    ensures { result ≡ is_one_of (map_keys kind) key.now }
{
    match kind {
        Kind::Walsh => key == "kind",
        Kind::Transpose => is_key_of_map_or(key, "p"),
        Kind::Rotation => is_key_of_map_or(key, "by"),
        Kind::Bits => is_key_of_map_or(key, "bits"),
        Kind::Rows => is_key_of_map_or(key, "rows"),
        Kind::Identity | Kind::Reversal | Kind::BitReversal | Kind::Gray | Kind::InverseGray => {
            is_key_of_every_map(key)
        }
    }
}

// Tests that the key is one that a map of each kind has, but for the transform.
fn is_key_of_every_map(key: &str) -> bool
    ensures { result ≡ is_one_of (map_keys Kind.Identity) key.now }
{
    key == "kind" || key == "complement"
}

// The same, or this one.
fn is_key_of_map_or(key: &str, own: &str) -> bool
    ensures { result ≡ is_one_of (codes "kind" ∷ codes "complement" ∷ own.now ∷ []) key.now }
{
    key == "kind" || key == "complement" || key == own
}
