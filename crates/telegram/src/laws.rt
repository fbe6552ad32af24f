ghost use Rattle.telegram.specs.Laws.{DecodingGoesForward, DecodingIsLocal, RecordsAreSound, RefusalsArePlaced, TelegramsAreWhole, NumbersAgree};

pub fn decoding_goes_forward()
    ensures { DecodingGoesForward }
{}

pub fn decoding_is_local()
    ensures { DecodingIsLocal }
{}

pub fn records_are_sound()
    ensures { RecordsAreSound }
{}

pub fn refusals_are_placed()
    ensures { RefusalsArePlaced }
{}

pub fn telegrams_are_whole()
    ensures { TelegramsAreWhole }
{}

pub fn numbers_agree()
    ensures { NumbersAgree }
{}
