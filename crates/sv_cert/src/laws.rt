ghost use Rattle.sv_cert.specs.LogAnswers.{WrittenIsRead};
ghost use Rattle.sv_cert.specs.LogTextLaws.{TextsAreExact};

/// A text has one log, or one first faulty line, and not both.
pub fn texts_are_exact()
    ensures { TextsAreExact }
{}

/// The text of a log is read as that log.
pub fn a_written_log_is_read()
    ensures { WrittenIsRead }
{}
