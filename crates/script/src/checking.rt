ghost use Rattle.std.specs.Prelude.{◌≡◌, ◌+◌, ◌≤◌, [], ◌∷◌, ◌++◌, length, map, IfOk, IfErr, OnOk};
ghost use Rattle.script.specs.Body.{Body};
ghost use Rattle.script.specs.Checked.{AreChecked};
ghost use Rattle.script.specs.Checks.{action_faults, body_faults, bodies_faults, script_faults};
ghost use Rattle.script.specs.Faults.{IsFirst};
ghost use Rattle.script.specs.Layout.{ops as layout, routine};
ghost use Rattle.script.specs.View.{item_view, body_view, bodies};

use crate::code::{Code, Op, Routine};
use crate::fault::{Fault, ScriptFault};
use crate::items::{Action, Item, Method, Script};
use crate::walk::Walk;
use std::alloc::Global;

/// The most turns of a loop.
pub const MAX_TURNS: u64 = 1_000_000;

/// A loop is nested in fewer than so many others.
pub const MAX_LEVELS: usize = 8;

/// A script as flat code, or its first fault. `NoMemory` is returned only if a growth was refused.
pub fn check(alloc: Global, script: &Script) -> Result<Code, ScriptFault>
    ensures code { IfOk result (λ code. code ≡ map routine (bodies script.now)) }
    ensures clean { OnOk result (script_faults (bodies script.now) ≡ []) }
    ensures checked { OnOk result (AreChecked (bodies script.now)) }
    ensures first { IfErr result (IsFirst (script_faults (bodies script.now))) }
{
    let mut walk = Walk::new(alloc);
    let count = script.methods.len();
    let mut methods = Vec::new(alloc);
    for (number, method) in script.methods.iter().enumerate() {
        methods.push(lay_method(number, method, count, &mut walk)?)?;
    }
    Ok(Code::new(methods))
}

fn lay_method(
    number: usize,
    method: &Method,
    count: usize,
    walk: &mut Walk,
) -> Result<Routine, ScriptFault>
    requires { walk.old.place ≡ [] }
    ensures ops { IfOk result (λ r. r ≡ routine (body_view method.now.items.items)) }
    ensures clean { OnOk result (body_faults count 0 (number ∷ []) 0
        (body_view method.now.items.items) ≡ []) }
    ensures place { OnOk result (walk.new.place ≡ []) }
    ensures err { IfErr result (IsFirst
        (body_faults count 0 (number ∷ []) 0 (body_view method.now.items.items))) }
{
    walk.place.enter(number)?;
    let mut ops = Vec::new(walk.alloc);
    lay_items(&method.items, 0, count, walk, &mut ops)?;
    walk.place.leave();
    Ok(Routine::new(ops))
}

#[cycle(laying)]
fn lay_items(
    items: &Vec<Item>,
    level: usize,
    count: usize,
    walk: &mut Walk,
    ops: &mut Vec<Op>,
) -> Result<(), ScriptFault>
    requires { level ≤ MAX_LEVELS }
    ensures ops { OnOk result (ops.new.items ≡ ops.old.items
        ++ layout (length ops.old.items) level (body_view items.now.items)) }
    ensures clean { OnOk result (body_faults count level walk.old.place 0
        (body_view items.now.items) ≡ []) }
    ensures place { OnOk result (walk.new.place ≡ walk.old.place) }
    ensures err { IfErr result (IsFirst
        (body_faults count level walk.old.place 0 (body_view items.now.items))) }
{
    for (number, item) in items.iter().enumerate() {
        lay_item(number, item, level, count, walk, ops)?;
    }
    Ok(())
}

#[cycle(laying)]
fn lay_item(
    number: usize,
    item: &Item,
    level: usize,
    count: usize,
    walk: &mut Walk,
    ops: &mut Vec<Op>,
) -> Result<(), ScriptFault>
    requires { level ≤ MAX_LEVELS }
    ensures ops { OnOk result ((rest : Body)
        → ops.old.items ++ layout (length ops.old.items) level (item_view item.now rest)
        ≡ ops.new.items ++ layout (length ops.new.items) level rest) }
    ensures clean { OnOk result ((rest : Body)
        → body_faults count level walk.old.place number (item_view item.now rest)
        ≡ body_faults count level walk.old.place (number + 1) rest) }
    ensures place { OnOk result (walk.new.place ≡ walk.old.place) }
    ensures err { IfErr result (λ e. (rest : Body)
        → IsFirst (body_faults count level walk.old.place number (item_view item.now rest)) e) }
{
    walk.place.enter(number)?;
    match item {
        Item::Action(action) => lay_action(*action, count, walk, ops)?,
        Item::Loop { turns, body } => {
            let turns = *turns;
            if turns == 0 || turns > MAX_TURNS {
                return Err(walk.refuse(Fault::BadLoop));
            }
            if level >= MAX_LEVELS {
                return Err(walk.refuse(Fault::TooDeep));
            }
            let start = ops.len();
            lay_items(body, level + 1, count, walk, ops)?;
            ops.push(Op::Edge {
                turns,
                start,
                level,
            })?;
        }
    }
    walk.place.leave();
    Ok(())
}

fn lay_action(
    action: Action,
    count: usize,
    walk: &mut Walk,
    ops: &mut Vec<Op>,
) -> Result<(), ScriptFault>
    ensures ops { OnOk result (ops.new.items ≡ ops.old.items ++ Op.Action action ∷ []) }
    ensures clean { OnOk result (action_faults count walk.old.place action ≡ []) }
    ensures place { OnOk result (walk.new.place ≡ walk.old.place) }
    ensures err { IfErr result (IsFirst (action_faults count walk.old.place action)) }
{
    if let Action::Call(method) = action
        && method >= count as u64
    {
        return Err(walk.refuse(Fault::BadCall));
    }
    ops.push(Op::Action(action))?;
    Ok(())
}
