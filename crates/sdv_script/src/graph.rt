//! The graph, under the path that the crates above name it by.

pub use sdv_graph::{Action, Case, Graph, Point, Target};
