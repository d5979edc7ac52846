//! Tables of two keys.

ghost use Rattle.std.specs.Prelude.{◌≡◌, [], ◌∷◌};
ghost use Rattle.toml.specs.View.{table_view};
ghost use Rattle.bm_jobfile.specs.Keys.{is_one_of, has_only};

use toml::Table;

// Tests that the key is one of two.
fn is_either(key: &str, one: &str, other: &str) -> bool
    ensures { result ≡ is_one_of (one.now ∷ other.now ∷ []) key.now }
{
    key == one || key == other
}

/// Tests that each key of the table is one of two.
pub fn has_only_keys(table: &Table, one: &str, other: &str) -> bool
    ensures { result ≡ has_only (one.now ∷ other.now ∷ []) (table_view table.now) }
{
    for key in table.keys() {
        if !is_either(key.as_str(), one, other) {
            return false;
        }
    }
    true
}
