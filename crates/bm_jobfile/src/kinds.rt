//! The kinds of a map.

ghost use Rattle.std.specs.Prelude.{◌≡◌, codes};
ghost use Rattle.toml.specs.Data.{get_member};
ghost use Rattle.toml.specs.View.{table_view};
ghost use Rattle.bm_jobfile.specs.Kinds.{kind_named, kind_in};

use crate::fields::value_at;
use bm_base::FieldName;
use toml::Table;

/// The kind of a map, as the text names it.
#[derive(Clone, Copy, Debug, PartialEq, Eq)]
pub enum Kind {
    /// `identity`.
    Identity,
    /// `reversal`.
    Reversal,
    /// `bit-reversal`.
    BitReversal,
    /// `transpose`.
    Transpose,
    /// `gray`.
    Gray,
    /// `inverse-gray`.
    InverseGray,
    /// `rotation`.
    Rotation,
    /// `bits`.
    Bits,
    /// `rows`.
    Rows,
    /// `walsh`: no map of addresses, but the transform.
    Walsh,
}

/// The kind of this name.
#[tactic(auto, unfolding(crate::specs::Kinds::kind_named))]
pub fn kind_named(name: &str) -> Option<Kind>
    ensures { result ≡ kind_named name.now }
{
    match name {
        "identity" => Some(Kind::Identity),
        "reversal" => Some(Kind::Reversal),
        "bit-reversal" => Some(Kind::BitReversal),
        "transpose" => Some(Kind::Transpose),
        "gray" => Some(Kind::Gray),
        "inverse-gray" => Some(Kind::InverseGray),
        "rotation" => Some(Kind::Rotation),
        "bits" => Some(Kind::Bits),
        "rows" => Some(Kind::Rows),
        "walsh" => Some(Kind::Walsh),
        _ => None,
    }
}

/// The kind that the table of the map names.
pub fn kind_field(map: &Table) -> Result<Kind, FieldName>
    ensures { result ≡ kind_in (get_member (codes "kind") (table_view map.now)) }
{
    let Some(value) = value_at(map, "kind") else {
        return Err(FieldName::Kind);
    };
    match value.as_str() {
        Some(name) => match kind_named(name) {
            Some(kind) => Ok(kind),
            None => Err(FieldName::Kind),
        },
        None => Err(FieldName::Kind),
    }
}
