// The limits of the data. Callers size their buffers by these constants.

// The longest row.
pub const LONGEST_ROW: usize = 4096;

// The longest side of a picture.
pub const LONGEST_SIDE: usize = 512;

// The greatest distance from the start of one row of pixels to the next.
pub const GREATEST_PITCH: usize = 4096;

// The greatest factor.
pub const GREATEST_FACTOR: usize = 16;

// How far past each end of a line the recursions run.
pub const MARGIN: usize = 20;

// How many words of work a line takes beside as many as it has numbers: the two margins.
pub const MARGINS: usize = 2 * MARGIN;

// The words of work that the longest row takes, and that the longest side takes.
pub const LONGEST_ROW_WORK: usize = LONGEST_ROW + MARGINS;

pub const LONGEST_SIDE_WORK: usize = LONGEST_SIDE + MARGINS;

// How many values the longest row has at the greatest factor.
pub const MOST_VALUES: usize = (LONGEST_ROW - 1) * GREATEST_FACTOR + 1;

// The most values of an enlarged picture.
pub const MOST_ENLARGED: usize = 1048576;
