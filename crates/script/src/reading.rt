ghost use Rattle.std.specs.Prelude.{◌≡◌, ◌+◌, ◌<◌, ◌≤◌, [], length, map, option_map, IfOk, IfErr, OnOk, Err};
ghost use Rattle.serde_json.specs.Find.{as_array};
ghost use Rattle.serde_json.specs.View.{view, items_view};
ghost use Rattle.script.specs.Body.{Body};
ghost use Rattle.script.specs.Outline.{Outline, sound, count};
ghost use Rattle.script.specs.Json.{sketch, outline, method_outlines, methods_in, some_sound};
ghost use Rattle.script.specs.Faults.{faults, method_faults, method_count, methods_faults, IsFirst};
ghost use Rattle.script.specs.Reads.{longest, Reads, ReadsDocument};
ghost use Rattle.script.specs.View.{item_view, body_view, bodies};
ghost use Rattle.script.specs.declared.fault.Fault.TheVariants.{TooLong};
ghost use Rattle.script.specs.declared.fault.ScriptFault.TheVariants.{Refused};

use crate::fault::{Fault, ScriptFault};
use crate::items::{Item, Method, Script};
use crate::shape::{Shape, array_at, shape_of};
use crate::walk::Walk;
use serde_json::Value;
use std::alloc::Global;

/// The longest text that is read, in bytes.
pub const MAX_BYTES: usize = 1_048_576;

/// The most methods of a script.
pub const MAX_METHODS: usize = 256;

/// The most items of a script, those of loops' bodies among them.
pub const MAX_ITEMS: usize = 65_536;

/// The script that a text of JSON is, or its first fault. `NoMemory` is returned only if a growth was
/// refused.
pub fn read_script(alloc: Global, text: &[u8]) -> Result<Script, ScriptFault>
    ensures too_long { longest < length text.now → result ≡ Err (Refused TooLong []) }
    ensures reads { length text.now ≤ longest → Reads text.now result }
{
    let mut walk = Walk::new(alloc);
    if text.len() > MAX_BYTES {
        return Err(walk.refuse(Fault::TooLong));
    }
    let document = match Value::from_slice(alloc, text) {
        Ok(document) => document,
        Err(error) => {
            if error.is_memory() {
                return Err(ScriptFault::NoMemory);
            }
            return Err(walk.refuse(Fault::NotJson));
        }
    };
    read_document(&document, &mut walk)
}

fn read_document(document: &Value, walk: &mut Walk) -> Result<Script, ScriptFault>
    requires place { walk.old.place ≡ [] }
    requires items { walk.old.items ≡ 0 }
    ensures { ReadsDocument (view document.now) result }
{
    let Some(methods) = methods_of(document) else {
        return Err(walk.refuse(Fault::BadShape));
    };
    if methods.is_empty() {
        return Err(walk.refuse(Fault::NoMethods));
    }
    if methods.len() > MAX_METHODS {
        return Err(walk.refuse(Fault::TooManyMethods));
    }
    read_methods(methods, walk)
}

/// The array at the one key `methods`.
fn methods_of(document: &Value) -> Option<&Vec<Value>>
    ensures { option_map (λ v. items_view v.now.items) result ≡ methods_in (view document.now) }
{
    match document {
        Value::Object(members) => {
            if members.len() == 1 {
                array_at(document, "methods")
            } else {
                None
            }
        }
        _ => None,
    }
}

fn read_methods(values: &Vec<Value>, walk: &mut Walk) -> Result<Script, ScriptFault>
    requires place { walk.old.place ≡ [] }
    requires items { walk.old.items ≡ 0 }
    ensures ok { IfOk result
        (λ s. method_outlines (items_view values.now.items) ≡ map some_sound (bodies s)) }
    ensures clean { OnOk result (methods_faults 0 0 (items_view values.now.items) ≡ []) }
    ensures err { IfErr result (IsFirst (methods_faults 0 0 (items_view values.now.items))) }
{
    let mut methods = Vec::new(walk.alloc);
    for (number, value) in values.iter().enumerate() {
        methods.push(read_method(number, value, walk)?)?;
    }
    Ok(Script { methods })
}

fn read_method(number: usize, value: &Value, walk: &mut Walk) -> Result<Method, ScriptFault>
    requires { walk.old.place ≡ [] }

    ensures ok { IfOk result
        (λ m. option_map outline (as_array (view value.now))
        ≡ some_sound (body_view m.items.items)) }
    ensures clean { OnOk result (method_faults number walk.old.items (as_array (view value.now))
        ≡ []) }
    ensures items { OnOk result (walk.new.items
        ≡ walk.old.items + method_count (as_array (view value.now))) }
    ensures place { OnOk result (walk.new.place ≡ []) }
    ensures err { IfErr result (IsFirst
        (method_faults number walk.old.items (as_array (view value.now)))) }
{
    walk.place.enter(number)?;
    let Some(values) = value.as_array() else {
        return Err(walk.refuse(Fault::BadShape));
    };
    let items = read_items(values, walk)?;
    walk.place.leave();
    Ok(Method { items })
}

#[cycle(reading)]
fn read_items(values: &Vec<Value>, walk: &mut Walk) -> Result<Vec<Item>, ScriptFault>
    ensures ok { IfOk result
        (λ is. outline (items_view values.now.items) ≡ sound (body_view is.items)) }
    ensures clean { OnOk result (faults walk.old.place 0 walk.old.items
        (outline (items_view values.now.items)) ≡ []) }
    ensures items { OnOk result (walk.new.items
        ≡ walk.old.items + count (outline (items_view values.now.items))) }
    ensures place { OnOk result (walk.new.place ≡ walk.old.place) }
    ensures err { IfErr result (IsFirst
        (faults walk.old.place 0 walk.old.items (outline (items_view values.now.items)))) }
{
    let mut items = Vec::new(walk.alloc);
    for (number, value) in values.iter().enumerate() {
        items.push(read_item(number, value, walk)?)?;
    }
    Ok(items)
}

#[cycle(reading)]
fn read_item(number: usize, value: &Value, walk: &mut Walk) -> Result<Item, ScriptFault>
    ensures ok { IfOk result (λ i. (b : Body)
        → sketch (view value.now) (sound b) ≡ sound (item_view i b)) }
    ensures clean { OnOk result ((rest : Outline)
        → faults walk.old.place number walk.old.items (sketch (view value.now) rest)
        ≡ faults walk.old.place (number + 1) walk.new.items rest) }
    ensures items { OnOk result ((rest : Outline)
        → walk.old.items + count (sketch (view value.now) rest) ≡ walk.new.items + count rest) }
    ensures place { OnOk result (walk.new.place ≡ walk.old.place) }
    ensures err { IfErr result (λ e. (rest : Outline)
        → IsFirst (faults walk.old.place number walk.old.items (sketch (view value.now) rest)) e) }
{
    walk.place.enter(number)?;
    let Some(shape) = shape_of(value) else {
        return Err(walk.refuse(Fault::BadShape));
    };
    if walk.items >= MAX_ITEMS {
        return Err(walk.refuse(Fault::TooManyItems));
    }
    walk.items += 1;
    let item = match shape {
        Shape::Action(action) => Item::Action(action),
        Shape::Loop { turns, body } => Item::Loop {
            turns,
            body: read_items(body, walk)?,
        },
    };
    walk.place.leave();
    Ok(item)
}
