//! The outputs and handlers of a file, each kind numbered in text order.
ghost use Rattle.std.specs.Prelude.{◌≡◌, ◌+◌, ◌++◌, ◌∷◌, List, map, IfOk, OnOk};
ghost use Rattle.tower_syntax.specs.RawTree.{Link, RawPart, RawItem};
ghost use Rattle.tower_syntax.specs.NamedView.{named_part_of, named_item_of};
ghost use Rattle.arch_types.specs.Outline.{part_listeners, handlers_in, listeners};

use sqlite_items::Items;
use std::alloc::Global;
use tower_syntax::{Listener, NamedItem, NamedPart};
use tower_types::NoMemory;

/// How many outputs and handlers there were so far.
#[derive(Clone, Copy)]
struct Numbers {
    outputs: u32,
    handlers: u32,
}

/// One more. More than a 32-bit number tells is want of memory.
pub fn next(number: u32) -> Result<u32, NoMemory>
    ensures { IfOk result (λ n. n ≡ number + 1) }
{
    match number.checked_add(1) {
        Some(number) => Ok(number),
        None => Err(NoMemory),
    }
}

fn add_part(made: &mut Items<Listener>, number: u32, part: &NamedPart) -> Result<u32, NoMemory>
    ensures listeners { IfOk result (λ n. (rest : List (RawPart Link)) → made.old ++ part_listeners number (named_part_of part.now ∷ rest) ≡ made.new ++ part_listeners n rest) }
    ensures number { IfOk result (λ n. (rest : List (RawPart Link)) → number + handlers_in (named_part_of part.now ∷ rest) ≡ n + handlers_in rest) }
{
    match part {
        NamedPart::State { .. } => Ok(number),
        NamedPart::Handler { .. } => {
            let after = next(number)?;
            made.push(Listener::Handler(number))?;
            Ok(after)
        }
    }
}

/// Adds the handlers of a monitor, which are numbered from `first` on. The number behind them is answered.
fn add_parts(made: &mut Items<Listener>, first: u32, parts: &[NamedPart]) -> Result<u32, NoMemory>
    ensures listeners { OnOk result (made.new ≡ made.old ++ part_listeners first (map named_part_of parts.now)) }
    ensures number { IfOk result (λ n. n ≡ first + handlers_in (map named_part_of parts.now)) }
{
    let mut number = first;
    for part in parts {
        number = add_part(made, number, part)?;
    }
    Ok(number)
}

fn add_item(
    made: &mut Items<Listener>,
    numbers: Numbers,
    item: &NamedItem,
) -> Result<Numbers, NoMemory>
    ensures { IfOk result (λ n. (rest : List (RawItem Link)) → made.old ++ listeners numbers.outputs numbers.handlers (named_item_of item.now ∷ rest) ≡ made.new ++ listeners n.outputs n.handlers rest) }
{
    match item {
        NamedItem::Output { .. } => {
            let outputs = next(numbers.outputs)?;
            made.push(Listener::Output(numbers.outputs))?;
            Ok(Numbers { outputs, ..numbers })
        }
        NamedItem::Monitor { parts, .. } => {
            let handlers = add_parts(made, numbers.handlers, parts.as_slice())?;
            Ok(Numbers {
                handlers,
                ..numbers
            })
        }
        _ => Ok(numbers),
    }
}

/// Every output and every handler, in file order.
pub fn listeners(alloc: Global, items: &[NamedItem]) -> Result<Items<Listener>, NoMemory>
    ensures { IfOk result (λ made. made ≡ listeners 0 0 (map named_item_of items.now)) }
{
    let mut made = Items::new(alloc);
    let mut numbers = Numbers {
        outputs: 0,
        handlers: 0,
    };
    for item in items {
        numbers = add_item(&mut made, numbers, item)?;
    }
    Ok(made)
}
