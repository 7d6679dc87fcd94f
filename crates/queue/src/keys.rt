// Rankings by keys: the first key that differs decides, the lower one first.
ghost use Rattle.std.specs.Prelude.{◌≡◌};
ghost use Rattle.queue.specs.Keys.{less};

// Whether the keys `a` rank before the keys `b`; a front of a list ranks before the whole.
#[tactic(auto, using(crate::proofs::Lexical::less_is))]
pub fn keys_before(a: &[u64], b: &[u64]) -> bool
    ensures { result ≡ less a.now b.now }
{
    a.cmp(b).is_lt()
}
