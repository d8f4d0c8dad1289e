// Values to bytes, part by part.
pub use printtext::parts::{BLOCK, PARTS, more_parts, print_part};
