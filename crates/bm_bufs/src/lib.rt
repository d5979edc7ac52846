//! The two record buffers of a pass, the placing of a row's records in a load, and the moves of a
//! load's records within tiles.

#![tactic(auto)]

mod bufs;
mod placing;
mod record_copy;
mod runs;
mod tile_map;
mod tile_moves;
mod tile_steps;

pub use bufs::Bufs;
pub use placing::Placing;
pub use runs::run_bits;
pub use tile_map::TileMap;
