//! The file.
ghost use Rattle.std.specs.Prelude.{◌≡◌, IfOk, OnOk};
ghost use Rattle.tower_syntax.specs.RawView.{raw_of};
ghost use Rattle.tower_gen.specs.Words.{after, words_of};
ghost use Rattle.tower_gen.specs.Draws.{drawn_by};
ghost use Rattle.tower_gen.specs.File.{made};

use crate::items::{add_channels, add_outputs, draw_monitors, draw_periods};
use crate::names::called;
use rand_pcg::Lcg64Xsh32;
use sqlite_items::Items;
use std::alloc::Global;
use tower_syntax::Raw;
use tower_types::NoMemory;

/// The file, with the next 128 draws.
pub fn file(alloc: Global, generator: &mut Lcg64Xsh32) -> Result<Raw, NoMemory>
    ensures made { IfOk result (λ raw. raw_of raw ≡ made (drawn_by (words_of generator.old))) }
    ensures moved { OnOk result (generator.new ≡ after 128 generator.old) }
{
    let mut items = Items::new(alloc);
    draw_periods(alloc, generator, &mut items)?;
    add_channels(alloc, &mut items)?;
    add_outputs(alloc, &mut items)?;
    draw_monitors(alloc, generator, &mut items)?;
    let name = called(alloc, b"gen")?;
    Ok(Raw {
        at: 0,
        version: 1,
        name,
        items,
    })
}
