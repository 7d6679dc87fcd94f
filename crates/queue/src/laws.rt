// What is proved of every ranking: the function's contract is the law.
ghost use Rattle.queue.specs.Order.{OrderIsDetermined};

use crate::ranking::Ranked;

// The records of a list in the order of their rank are the only list in order with the same elements.
pub fn order_is_determined<T: Ranked>(_some: &T)
    ensures { OrderIsDetermined T.Ranked.before }
{}
