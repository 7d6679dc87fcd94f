// Each function's contract is a law; there is nothing to run.
ghost use Rattle.written.specs.Law.{OpeningIsExact, WrittenFormTells};

pub fn opening_is_exact()
    ensures { OpeningIsExact }
{}

pub fn written_form_tells()
    ensures { WrittenFormTells }
{}
