//! Checkpoints, step by step.

pub use fuzzy_ckpt::{Ckpt, Gathered, Pages, Point, Txns};
