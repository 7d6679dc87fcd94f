// How far a reader has come in a plan file.
ghost use Rattle.std.specs.Prelude.{◌≡◌, true};
ghost use Rattle.description.specs.Limits.{timing_right};

use costs::Points;

// An application whose points are being read.
#[derive(Clone, Copy)]
pub struct Draft {
    pub period: u32,
    pub bound: u32,
    pub points: Points,
    ghost timed: { timing_right period bound ≡ true },
}

// After a field of which kind. An application stays a draft until its last point is read.
#[derive(Clone, Copy)]
pub enum Stage {
    Header,
    Resource,
    Application(Draft),
    Activity,
    Edge,
}
