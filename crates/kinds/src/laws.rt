// What is proved of every kind: the function's contract is the law.
ghost use Rattle.kinds.specs.Laws.{Lasting};

use crate::kind::Kind;

// Any number of repeats later, an admitted start is still admitted and a bar is what it was.
pub fn laws_last<K: Kind>(kind: &K)
    ensures { Lasting (K.Kind.relations kind.now) }
{}
