//! The number that no page has.

/// What stands for a record that changes no page. No page has this number.
pub const NO_PAGE: u32 = 65_536;
