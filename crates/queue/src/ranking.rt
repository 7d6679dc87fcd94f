// Ranked records.
ghost use Rattle.std.specs.Prelude.{◌≡◌, Bool};
ghost use Rattle.queue.specs.Ranking.{Ranking};

// Kept: a bound `Ord` in its place would ask each record for an equality and a whole comparison besides this one test.
pub trait Ranked: Copy {
    ghost before: { Self → Self → Bool };

    // Whether this record ranks before the other.
    fn ranks_before(&self, other: &Self) -> bool
        ensures { result ≡ before self.now other.now };

    ghost ranking: { Ranking before };
}
