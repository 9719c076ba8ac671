//! Laws of coordinates, addresses and neighbours. Each function does nothing; what it ensures is the law.

ghost use Rattle.paris_geometry.specs.Laws.{AddressUndoesCoordinates, CoordinatesUndoAddress, StepAndBack, OneSender};

/// The address of a processor's coordinates is the processor.
pub fn address_undoes_coordinates()
    ensures { AddressUndoesCoordinates }
{}

/// The coordinates of an address are those that it was made of.
pub fn coordinates_undo_address()
    ensures { CoordinatesUndoAddress }
{}

/// One step along an axis and one back is where one was.
pub fn step_and_back()
    ensures { StepAndBack }
{}

/// A receiver has exactly one neighbour that sends to it.
pub fn one_sender()
    ensures { OneSender }
{}
