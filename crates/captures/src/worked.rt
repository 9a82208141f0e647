// Worked examples, proved.
ghost use Rattle.captures.specs.Worked.{WorkedExamples};

/// Does nothing. Its contract is a table: a capture of two packets byte by byte, what it is read as, and
/// what is answered where it is cut or its header is changed.
pub fn worked_examples_stand()
    ensures { WorkedExamples }
{}
