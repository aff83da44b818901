ghost use Rattle.std.specs.Prelude.{◌≡◌, option_map};
ghost use Rattle.serde_json.specs.View.{view, items_view};
ghost use Rattle.script.specs.Shape.{action_named, shape, call_in as call_shape, loop_in as loop_shape, number_at as number_under, array_at as array_under};
ghost use Rattle.script.specs.Seen.{shape_view};

use crate::items::Action;
use serde_json::Value;

/// What a JSON value is as an item, with a loop's body unread.
#[derive(Clone, Copy, Drop)]
pub enum Shape<'a> {
    Action(Action),
    Loop { turns: u64, body: &'a Vec<Value> },
}

/// The item that a JSON value spells; none if it spells no item.
pub fn shape_of(value: &Value) -> Option<Shape<'_>>
    ensures { option_map shape_view result ≡ shape (view value.now) }
{
    match value {
        Value::String(word) => Some(Shape::Action(word_of(word.as_str())?)),
        Value::Object(members) => match members.len() {
            1 => call_in(value),
            2 => loop_in(value),
            _ => None,
        },
        _ => None,
    }
}

fn call_in(value: &Value) -> Option<Shape<'_>>
    ensures { option_map shape_view result ≡ call_shape (view value.now) }
{
    number_at(value, "call").map(|method| Shape::Action(Action::Call(method)))
}

fn loop_in(value: &Value) -> Option<Shape<'_>>
    ensures { option_map shape_view result ≡ loop_shape (view value.now) }
{
    match (number_at(value, "loop"), array_at(value, "body")) {
        (Some(turns), Some(body)) => Some(Shape::Loop { turns, body }),
        _ => None,
    }
}

/// The whole number below 2^64 at a key.
fn number_at(value: &Value, key: &str) -> Option<u64>
    ensures { result ≡ number_under key.now (view value.now) }
{
    value.get(key).and_then(Value::as_u64)
}

/// The array at a key.
pub fn array_at<'a>(value: &'a Value, key: &str) -> Option<&'a Vec<Value>>
    ensures { option_map (λ v. items_view v.now.items) result
        ≡ array_under key.now (view value.now) }
{
    value.get(key).and_then(Value::as_array)
}

fn word_of(word: &str) -> Option<Action>
    ensures { result ≡ action_named word.now }
{
    match word {
        "native" => Some(Action::Native),
        "vm" => Some(Action::Vm),
        "block" => Some(Action::Block),
        "tick" => Some(Action::Tick),
        _ => None,
    }
}
