//! Laws of lines: what a line asks for is what it was written for.
ghost use Rattle.bq_simulate.specs.LineLaws.{AreLines, EventsAreRead, ImagesAreRead, MachinesAreRead};

/// The line that is written for an event asks for that event.
pub fn events_are_read()
    ensures { EventsAreRead }
{}

/// The line that is written for a machine asks for that machine.
pub fn machines_are_read()
    ensures { MachinesAreRead }
{}

/// The hex that is written for an image is read as its bytes.
pub fn images_are_read()
    ensures { ImagesAreRead }
{}

/// A line that is written is one line of a text.
pub fn are_lines()
    ensures { AreLines }
{}
