//! The maps that records are moved by.

ghost use Rattle.std.specs.Prelude.{◌≡◌, ◌^◌, ◌<◌, ◌≤◌};
ghost use Rattle.bm_gf2.specs.Matrix.{IsNonsingular};

use crate::plan_maps::{leading_identity, morton, streams};
use crate::random_map::random;
use bm_gf2::Affine;
use bm_named::{bit_reversal, gray, identity, transpose};
use std::fmt;

/// A map that is made for any size.
#[derive(Clone, Copy, Debug, PartialEq, Eq)]
pub enum MapName {
    Identity,
    Gray,
    /// Of as many rows as columns, or half as many.
    Transpose,
    BitReversal,
    /// Of mixed numbers.
    Random,
    /// With the low half of the bits kept.
    LeadingIdentity,
    /// Of 32 columns.
    Streams32,
    /// Of 256 columns.
    Streams256,
    Morton,
}

impl MapName {
    /// The map of this name for addresses of n bits, 1 to 52.
    pub fn map(self, n: u8) -> Affine
        requires some { 1 ≤ n }
        requires few { n ≤ 52 }
        ensures size { result.a.n ≡ n }
        ensures nonsingular { IsNonsingular result.a }
    {
        match self {
            MapName::Identity => identity(n),
            MapName::Gray => gray(n),
            MapName::Transpose => transpose(n, n / 2),
            MapName::BitReversal => bit_reversal(n),
            MapName::Random => random(n),
            MapName::LeadingIdentity => leading_identity(n),
            MapName::Streams32 => streams(n, 5),
            MapName::Streams256 => streams(n, 8),
            MapName::Morton => morton(n),
        }
    }
}

impl fmt::Display for MapName {
    fn fmt<W: fmt::Write>(&self, f: &mut fmt::Formatter<W>) -> fmt::Result {
        f.write_str(match self {
            MapName::Identity => "identity",
            MapName::Gray => "gray",
            MapName::Transpose => "transpose",
            MapName::BitReversal => "bit-reversal",
            MapName::Random => "random",
            MapName::LeadingIdentity => "leading-identity",
            MapName::Streams32 => "32-streams",
            MapName::Streams256 => "256-streams",
            MapName::Morton => "morton",
        })
    }
}
