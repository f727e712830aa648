// Laws of the course of a turn over nodes, each the contract of a function that does nothing.

ghost use Rattle.ceal_theory.specs.Course.{BareLaw, MovesLaw, WorkLaw, TurnCourseLaw, TurnKnownLaw};
ghost use Rattle.ceal_theory.specs.Groves.{TakingLaw, OpenedLaw};

/// Steps between the items of what is left over do not matter.
pub fn bare_law()
    ensures law { BareLaw }
{}

/// What an engine does to its nodes is what the machine does in its moves.
pub fn moves_law()
    ensures law { MovesLaw }
{}

/// Taking is kept by revoking what is before.
pub fn taking_law()
    ensures law { TakingLaw }
{}

/// Nodes after a read are those inside it, its end, and those after that.
pub fn opened_law()
    ensures law { OpenedLaw }
{}

/// Work and written steps only grow along a course.
pub fn work_law()
    ensures law { WorkLaw }
{}

/// A course that has ended is a turn; one with too much work is out of fuel.
pub fn turn_course_law()
    ensures law { TurnCourseLaw }
{}

/// What the machine of a turn knows at its beginning.
pub fn turn_known_law()
    ensures law { TurnKnownLaw }
{}
