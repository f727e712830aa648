// Laws of the machine of repair and of its flat old items, each the contract of a function that does nothing.

ghost use Rattle.ceal_theory.specs.FlatMachine.{FlatMachineLaw};
ghost use Rattle.ceal_theory.specs.Levels.{FlatLevelsLaw, FlatTakeLaw};
ghost use Rattle.ceal_theory.specs.Segments.{SegmentLaw};
ghost use Rattle.ceal_theory.specs.Moves.{MachineLaw};

/// The machine of repair, one move at a time.
pub fn machine_law()
    ensures law { MachineLaw }
{}

/// To take from what is left over is to find in flat items.
pub fn flat_take_law()
    ensures law { FlatTakeLaw }
{}

/// A part of flat items that begins with whole items.
pub fn flat_levels_law()
    ensures law { FlatLevelsLaw }
{}

/// What is found in an interval of flat items.
pub fn segment_law()
    ensures law { SegmentLaw }
{}

/// The machine of repair over the flat list of old items.
pub fn flat_machine_law()
    ensures law { FlatMachineLaw }
{}
