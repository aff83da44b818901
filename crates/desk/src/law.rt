//! Laws of all legal histories.
ghost use Rattle.desk.specs.DueTold.{DueAreTold};
ghost use Rattle.desk.specs.Once.{AtMostOnce};
ghost use Rattle.desk.specs.Rising.{LiveNamesRise};

/// Law: in a legal history each operation and name has at most one Finish.
pub fn at_most_once()
    ensures { AtMostOnce }
{}

/// Law: after a legal history the live names are in ascending order.
pub fn live_names_rise()
    ensures { LiveNamesRise }
{}

/// Law: while a handshake is the only open request, it is the next one to arm a due thread's poll for, unless that poll
/// was armed for it before.
pub fn due_are_told()
    ensures { DueAreTold }
{}
