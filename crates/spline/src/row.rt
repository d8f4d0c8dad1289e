// The operations on rows.
pub use row_transform::transform;
pub use values::row::value;
pub use zoom::row::zoom;
