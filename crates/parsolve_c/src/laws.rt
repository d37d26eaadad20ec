//! Laws that follow from the definitions. Each function states one in its contract, and does nothing.

ghost use Rattle.parsolve_c.specs.Codes.{TellsFaultsApart};
ghost use Rattle.parsolve_c.specs.Commands.{NumbersTellApart};

/// The code and the vertex of a fault determine the fault.
pub fn codes_tell_apart()
    ensures { TellsFaultsApart }
{}

/// Each command number of the header stands for its command, and no other number does.
pub fn numbers_tell_apart()
    ensures { NumbersTellApart }
{}
