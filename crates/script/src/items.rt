/// The action of an item that isn't a loop.
#[derive(Clone, Copy, Debug, PartialEq, Eq)]
pub enum Action {
    /// Into native code and back.
    Native,
    /// Into the VM and back.
    Vm,
    /// A wait, from inside the VM.
    Block,
    /// A tick for an observer of the run.
    Tick,
    /// A call of the method of this number.
    Call(u64),
}

/// One item of a method, or of a loop's body.
#[derive(Debug, Drop)]
pub enum Item {
    Action(Action),
    Loop { turns: u64, body: Vec<Item> },
}

/// A method: its items, in order.
#[derive(Debug, Drop)]
pub struct Method {
    pub items: Vec<Item>,
}

/// A script as its text spells it. A run starts with method 0. Calls and loops aren't checked yet.
#[derive(Debug, Drop)]
pub struct Script {
    pub methods: Vec<Method>,
}
