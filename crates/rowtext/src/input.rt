// Text to values, and the arrays that a program lends for both.
pub use judgetext::judge_text;
pub use judgetext::room::{text_room, value_room};
pub use zoomtext::zoom_text;
