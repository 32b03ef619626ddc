// Laws of the printed form.
ghost use Rattle.cf_core_text.specs.Laws.{MarksAreRead};

/// The tokens of the language are read with the same spellings of marks as are printed.
pub fn marks_are_read()
    ensures { MarksAreRead }
{}
