//! Reading an order.
ghost use Rattle.std.specs.Prelude.{◌≡◌, ◌++◌, ◌∷◌, [], decimal, IfOk, IfErr, IfSome, OnOk, option_map};
ghost use Rattle.call_log.specs.Tokens.{token_of};
ghost use Rattle.replay.specs.Grammar.{command_of};
ghost use Rattle.replay.specs.Spelling.{spelling};
ghost use Rattle.replay.specs.declared.grammar.Command.TheVariants.{Do};
ghost use Rattle.confirm.specs.Orders.{owner_in, event_in, event_line, deed_of, deed_text, IsRead, IsOrder, IsOrderFault};

use crate::fault::Fault;
use crate::parts::cut;
use call_log::tokens::Token;
use replay::grammar::{Command, parse};
use replay::spelling::lines_spell_commands;
use std::alloc::{AllocError, Global};
use system::events::Event;

/// An order of events.
#[derive(Debug, Drop)]
pub struct Order {
    pub events: Vec<Event>,
    /// For each event the number of its call.
    pub owners: Vec<usize>,
    /// The lines of the events, as `monitor replay` reads them.
    pub lines: Vec<u8>,
}

/// An event with the number of its call.
#[derive(Debug, Drop)]
struct Deed<'a> {
    owner: usize,
    event: Event,
    /// The spelling of the event.
    spelled: &'a [u8],
}

/// The number that the bytes spell.
fn owner_of(bytes: &[u8]) -> Option<usize>
    ensures owner { result ≡ owner_in (token_of bytes.now) }
    ensures spelled { IfSome result (λ owner. bytes.now ≡ decimal owner) }
{
    match Token::of(bytes) {
        Token::Number(n) => Some(n as usize),
        _ => None,
    }
}

/// The event that the bytes spell.
fn event_of(alloc: Global, bytes: &[u8]) -> Result<Option<Event>, AllocError>
    ensures event { IfOk result (λ event. event ≡ event_in (command_of bytes.now)) }
    ensures spelled { IfOk result
        (λ event. IfSome event (λ event. bytes.now ≡ spelling (Do event))) }
    ensures read { IfOk result (λ event. IfSome event IsRead) }
{
    lines_spell_commands();
    match parse(alloc, bytes)? {
        Some(Command::Do(event)) => Ok(Some(event)),
        Some(Command::Size(_, _, _)) => Ok(None),
        None => Ok(None),
    }
}

/// The number and the event of a line of an order.
fn read_line(alloc: Global, line: &[u8]) -> Result<Option<Deed<'_>>, AllocError>
    ensures deed { IfOk result
        (λ deed. option_map (λ deed. (deed.owner, deed.event)) deed ≡ deed_of line.now) }
    ensures spelled { IfOk result
        (λ deed. IfSome deed (λ deed. line.now ≡ deed_text deed.owner deed.event)) }
    ensures event { IfOk result
        (λ deed. IfSome deed (λ deed. deed.spelled.now ≡ spelling (Do deed.event))) }
    ensures read { IfOk result (λ deed. IfSome deed (λ deed. IsRead deed.event)) }
{
    let Some((number, spelled)) = cut(b' ', line) else {
        return Ok(None);
    };
    let Some(owner) = owner_of(number) else {
        return Ok(None);
    };
    match event_of(alloc, spelled)? {
        None => Ok(None),
        Some(event) => Ok(Some(Deed {
            owner,
            event,
            spelled,
        })),
    }
}

impl Order {
    fn push(&mut self, deed: Deed) -> Result<(), AllocError>
        ensures owners { OnOk result (self.new.owners.items ≡ self.old.owners.items
            ++ deed.entry.owner ∷ []) }
        ensures events { OnOk result (self.new.events.items ≡ self.old.events.items
            ++ deed.entry.event ∷ []) }
        ensures lines { OnOk result (self.new.lines.items ≡ self.old.lines.items
            ++ (deed.entry.spelled.now ++ 10 ∷ [])) }
    {
        self.owners.push(deed.owner)?;
        self.events.push(deed.event)?;
        self.lines.extend_from_slice(deed.spelled)?;
        Ok(self.lines.push(b'\n')?)
    }
}

/// The order that the text spells: a line for each event, with its newline. The result has the lines of the events after the head.
pub fn read_order(alloc: Global, text: &[u8], head: Vec<u8>) -> Result<Order, Fault>
    ensures order { IfOk result
        (λ order. IsOrder text.now head.items order.owners.items order.events.items
        order.lines.items) }
    ensures fault { IfErr result (IsOrderFault text.now) }
{
    let mut order = Order {
        events: Vec::new(alloc),
        owners: Vec::new(alloc),
        lines: head,
    };
    let mut rest = text;
    while !rest.is_empty() {
        let number = order.events.len() as u64 + 1;
        let Some((line, behind)) = cut(b'\n', rest) else {
            return Err(Fault::BadOrder(number));
        };
        match read_line(alloc, line)? {
            None => return Err(Fault::BadOrder(number)),
            Some(deed) => order.push(deed)?,
        }
        rest = behind;
    }
    Ok(order)
}
