//! The kinds of a transform by their names.

ghost use Rattle.std.specs.Prelude.{◌≡◌, codes};
ghost use Rattle.toml.specs.Data.{get_member};
ghost use Rattle.toml.specs.View.{table_view};
ghost use Rattle.bm_kindjob.specs.KindNames.{kind_named, kind_in};

use bm_base::FieldName;
use bm_jobfile::value_at;
use toml::Table;

/// The kind of a transform, as the text names it.
#[derive(Clone, Copy, Debug, PartialEq, Eq)]
pub enum KindName {
    /// `walsh-bits`.
    WalshBits,
    /// `sums`.
    Sums,
    /// `differences`.
    Differences,
    /// `xors`.
    Xors,
}

// The kind of this name.
#[tactic(auto, unfolding(crate::specs::KindNames::kind_named))]
fn kind_named(name: &str) -> Option<KindName>
    ensures { result ≡ kind_named name.now }
{
    match name {
        "walsh-bits" => Some(KindName::WalshBits),
        "sums" => Some(KindName::Sums),
        "differences" => Some(KindName::Differences),
        "xors" => Some(KindName::Xors),
        _ => None,
    }
}

/// The kind that the table of the map names.
pub fn kind_field(map: &Table) -> Result<KindName, FieldName>
    ensures { result ≡ kind_in (get_member (codes "kind") (table_view map.now)) }
{
    let Some(value) = value_at(map, "kind") else {
        return Err(FieldName::Kind);
    };
    match value.as_str() {
        Some(name) => match kind_named(name) {
            Some(kind) => Ok(kind),
            None => Err(FieldName::Kind),
        },
        None => Err(FieldName::Kind),
    }
}
