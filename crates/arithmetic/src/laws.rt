// What is proved of the definitions themselves, for all whole numbers: each function's contract is the law.
ghost use Rattle.arithmetic.specs.Divisors.{DivisorIsDetermined};
ghost use Rattle.arithmetic.specs.Laws.{ApartIsOneAfterTheOther, FiniteTestDecides, MovingOnAltersNothing, OverlapsComeEarly, RestsMeetByTheDivisor, WindowsRepeatAfterTheDivisor};

// Any two numbers have exactly one greatest common divisor.
pub fn divisor_is_determined()
    ensures { DivisorIsDetermined }
{}

// Two occurrences keep apart exactly when one ends no later than the other begins.
pub fn apart_is_one_after_the_other()
    ensures { ApartIsOneAfterTheOther }
{}

// Two entries overlap some time exactly when they would with the divisor of their repeats as repeat.
pub fn windows_repeat_after_the_divisor()
    ensures { WindowsRepeatAfterTheDivisor }
{}

// If two entries ever overlap, they do so early.
pub fn overlaps_come_early()
    ensures { OverlapsComeEarly }
{}

// Two comparisons modulo the divisor of the repeats decide whether two entries ever overlap.
pub fn finite_test_decides()
    ensures { FiniteTestDecides }
{}

// Moving an entry on by its repeat does not alter whether it ever overlaps with another.
pub fn moving_on_alters_nothing()
    ensures { MovingOnAltersNothing }
{}

// Some number leaves given rests by two divisors exactly when the rests agree modulo their greatest common divisor.
pub fn rests_meet_by_the_divisor()
    ensures { RestsMeetByTheDivisor }
{}
