//! Positions, the bounds of a world and its division into sectors, and the shapes of regions.
#![tactic(auto)]

mod bad_shape;
mod bounds;
mod dir;
mod extent;
mod laws;
mod polygon;
mod pos;
mod shape;
mod shape_spec;

pub use bad_shape::BadShape;
pub use bounds::{
    Bounds, HIGH_HEIGHT, LOW_HEIGHT, MAX_CHUNKS_EACH_WAY, MAX_COLUMNS_EACH_WAY,
    MAX_SECTORS_EACH_WAY,
};
pub use dir::Dir;
pub use extent::Extent;
pub use laws::{
    extents_meet, indices_are_places, indices_differ, order_is_derived, positions_are_ordered,
    rows_hold_positions, sectors_divide, shapes_lie_within,
};
pub use pos::Pos;
pub use shape::Shape;
pub use shape_spec::ShapeSpec;
