// The operations on pictures.
pub use enlarge::picture::enlarge;
pub use picture_transform::transform;
pub use values::picture::value;
