//! The items of a generated file.
ghost use Rattle.std.specs.Prelude.{◌≡◌, ◌+◌, ◌++◌, ◌%◌, ◌<◌, IfOk, OnOk, map};
ghost use Rattle.tower_syntax.specs.RawView.{raw_item_of};
ghost use Rattle.tower_gen.specs.Words.{after, words_of};
ghost use Rattle.tower_gen.specs.Draws.{drawn_by};
ghost use Rattle.tower_gen.specs.File.{upto, period_with, period_item, channel_item, channel_items, output_item, output_items, monitor_with};

use crate::draws::draw;
use crate::monitor::monitor;
use crate::names::numbered;
use rand_pcg::Lcg64Xsh32;
use sqlite_items::Items;
use std::alloc::Global;
use tower_syntax::{RawItem, RawType};
use tower_types::{NoMemory, Scalar};

/// Period `i`.
fn period(alloc: Global, ms: u32, priority: u8, i: u32) -> Result<RawItem, NoMemory>
    ensures { IfOk result (λ x. raw_item_of x ≡ period_with ms priority i) }
{
    let name = numbered(alloc, b'p', i)?;
    Ok(RawItem::Period {
        at: 0,
        name,
        ms,
        priority,
        depth: None,
    })
}

/// Period `i`, with the next draws.
fn draw_period(alloc: Global, generator: &mut Lcg64Xsh32, i: u32) -> Result<RawItem, NoMemory>
    ensures made { IfOk result (λ x. raw_item_of x ≡ period_with (10 + words_of generator.old 0 % 20) (words_of generator.old 1 % 256) i) }
    ensures moved { OnOk result (generator.new ≡ after 2 generator.old) }
{
    let ms = 10 + draw(generator, 20);
    let priority = draw(generator, 256) as u8;
    period(alloc, ms, priority, i)
}

/// Adds the periods.
pub fn draw_periods(
    alloc: Global,
    generator: &mut Lcg64Xsh32,
    items: &mut Items<RawItem>,
) -> Result<(), NoMemory>
    ensures added { OnOk result (map raw_item_of items.new
        ≡ map raw_item_of items.old ++ map (period_item (drawn_by (words_of generator.old))) (upto 32)) }
    ensures moved { OnOk result (generator.new ≡ after 64 generator.old) }
{
    for i in 0..32 {
        let next = draw_period(alloc, generator, i)?;
        items.push(next)?;
    }
    Ok(())
}

/// Channel `i`.
fn channel(alloc: Global, i: u32) -> Result<RawItem, NoMemory>
    ensures { IfOk result (λ x. raw_item_of x ≡ channel_item i) }
{
    let name = numbered(alloc, b'c', i)?;
    let message = RawType::Word {
        at: 0,
        scalar: Scalar::U32,
    };
    Ok(RawItem::Channel {
        at: 0,
        name,
        message,
    })
}

/// Adds the channels.
pub fn add_channels(alloc: Global, items: &mut Items<RawItem>) -> Result<(), NoMemory>
    ensures { OnOk result (map raw_item_of items.new ≡ map raw_item_of items.old ++ channel_items) }
{
    for i in 0..16 {
        let next = channel(alloc, i)?;
        items.push(next)?;
    }
    Ok(())
}

/// Output `i`, of one of the last four channels.
fn output(alloc: Global, i: u32) -> Result<RawItem, NoMemory>
    requires { i < 4 }
    ensures { IfOk result (λ x. raw_item_of x ≡ output_item i) }
{
    let name = numbered(alloc, b'o', i)?;
    let last = 12 + i;
    let channel = numbered(alloc, b'c', last)?;
    Ok(RawItem::Output {
        at: 0,
        name,
        channel,
    })
}

/// Adds the outputs.
pub fn add_outputs(alloc: Global, items: &mut Items<RawItem>) -> Result<(), NoMemory>
    ensures { OnOk result (map raw_item_of items.new ≡ map raw_item_of items.old ++ output_items) }
{
    for i in 0..4 {
        let next = output(alloc, i)?;
        items.push(next)?;
    }
    Ok(())
}

/// Monitor `i`, with the next draw.
fn draw_monitor(alloc: Global, generator: &mut Lcg64Xsh32, i: u32) -> Result<RawItem, NoMemory>
    ensures made { IfOk result (λ x. raw_item_of x ≡ monitor_with (words_of generator.old 0 % 1000) i) }
    ensures moved { OnOk result (generator.new ≡ after 1 generator.old) }
{
    let factor = draw(generator, 1000);
    monitor(alloc, factor, i)
}

/// Adds the monitors.
pub fn draw_monitors(
    alloc: Global,
    generator: &mut Lcg64Xsh32,
    items: &mut Items<RawItem>,
) -> Result<(), NoMemory>
    ensures added { OnOk result (map raw_item_of items.new
        ≡ map raw_item_of items.old ++ map (λ i. monitor_with (words_of generator.old i % 1000) i) (upto 64)) }
    ensures moved { OnOk result (generator.new ≡ after 64 generator.old) }
{
    for i in 0..64 {
        let next = draw_monitor(alloc, generator, i)?;
        items.push(next)?;
    }
    Ok(())
}
