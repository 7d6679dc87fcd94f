// How many of each a plan may have.
pub const MOST_RESOURCES: usize = 32;

pub const MOST_APPLICATIONS: usize = 64;

// of one cost table
pub const MOST_POINTS: usize = 20;

pub const MOST_ACTIVITIES: usize = 512;

pub const MOST_CELLS: usize = 2048;

pub const MOST_EDGES: usize = 1024;
