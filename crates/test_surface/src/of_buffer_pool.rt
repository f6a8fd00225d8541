//! Pages in memory.

pub use buffer_pool::Pool;
