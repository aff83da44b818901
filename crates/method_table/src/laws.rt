// Laws of a table's edits.
ghost use Rattle.method_table.specs.Forward.{StatesGoForward};

/// A law: whatever calls change a table, each installed code keeps its serial, slot and method, and its state only goes
/// forward: in use, not entrant, zombie, freed.
pub fn states_go_forward()
    ensures { StatesGoForward }
{}
