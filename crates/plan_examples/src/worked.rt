// The worked examples, proved.
ghost use Rattle.plan_examples.specs.Worked.{WorkedExamples};

/// Does nothing. Its contract is a table, over the bytes of the sample graph's file and of two plans:
/// which graph and chains they say, their rows and how many a store has to be able to hold, what nine
/// packets are read as without chains and with the tag taken in one look, and two ranges and their
/// blocks.
pub fn worked_examples_stand()
    ensures { WorkedExamples }
{}
