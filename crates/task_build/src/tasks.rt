//! The task of a source.

ghost use Rattle.std.specs.Prelude.{◌≡◌, ◌<◌, ◌++◌, length, map, slice_get, Some, All, IfOk, OnOk};
ghost use Rattle.tower_syntax.specs.Arch.{Source as Origin};
ghost use Rattle.tower_syntax.specs.WellNumbered.{IsWellNumbered};
ghost use Rattle.task_code.specs.Piece.{listed};
ghost use Rattle.thread_split.specs.Plans.{plan_of};
ghost use Rattle.emit_code.specs.Delivery.{entry_of};
ghost use Rattle.emit_code.specs.Framed.{entries_in, HasEntry};
ghost use Rattle.emit_code.specs.Heard.{AreHeard};
ghost use Rattle.task_build.specs.CodeOf.{handler_code, task_of};
ghost use Rattle.task_build.specs.Tables.{placed_behind, code_behind};

use crate::heads::add_head;
use crate::sizes::all_buffers;
use crate::tables::{frames, room, table};
use emit_code::{message_words, own_frame, place_delivery};
use sqlite_items::Items;
use std::alloc::Global;
use stmt_code::{Measured, place_body};
use task_code::{Code, Frames, Instr, Task};
use thread_split::TaskPlan;
use tower_syntax::{Listener, On};
use tower_types::NoMemory;

/// The code of a task, and the place of each of its handlers.
#[derive(Drop)]
struct Written {
    code: Code,
    places: Items<u32>,
}

/// Adds the code of a handler.
fn add_handler(
    arch: &Measured<'_>,
    heard: &[Items<Listener>],
    h: u32,
    table: &Frames,
    code: &mut Code,
) -> Result<(), NoMemory>
    requires handler { h < length arch.now.handlers }
    requires heard { AreHeard arch.now heard.now }
    requires entry { HasEntry table.now h }
    ensures { OnOk result (code.new ≡ code.old ++ listed (handler_code
        arch.now (entries_in table.now) h (entry_of (entries_in table.now) h).frame (length code.old))) }
{
    place_body(arch, h, own_frame(table, h), code)?;
    place_delivery(arch.checked(), heard, h, table, code)?;
    code.push(Instr::Ret)?;
    Ok(())
}

/// The code of the plan's task, where frames and places are those of the table.
fn write_code(
    alloc: Global,
    arch: &Measured<'_>,
    heard: &[Items<Listener>],
    plan: &TaskPlan,
    table: &Frames,
) -> Result<Written, NoMemory>
    requires source { plan.now.source < length arch.now.sources }
    requires heard { AreHeard arch.now heard.now }
    requires below { All (λ h. h < length arch.now.handlers) plan.now.handlers }
    requires has { All (HasEntry table.now) plan.now.handlers }
    ensures code { IfOk result (λ w. w.code
        ≡ listed (code_behind arch.now (entries_in table.now) plan.now.source plan.now.handlers)) }
    ensures places { IfOk result (λ w. w.places
        ≡ map (λ e. e.place) (placed_behind arch.now (entries_in table.now) plan.now.source plan.now.handlers)) }
{
    let mut code = Code::new(alloc);
    let mut places = Items::new(alloc);
    add_head(alloc, arch.arch(), plan.source, table, &mut code)?;
    for h in plan.handlers.as_slice() {
        places.push(code.place())?;
        add_handler(arch, heard, *h, table, &mut code)?;
    }
    Ok(Written { code, places })
}

/// The code of the plan's task. It is made once with no places yet, for the places, and once with these.
fn code_of(
    alloc: Global,
    arch: &Measured<'_>,
    heard: &[Items<Listener>],
    plan: &TaskPlan,
) -> Result<Items<Instr>, NoMemory>
    requires heard { AreHeard arch.now heard.now }
    requires source { plan.now.source < length arch.now.sources }
    requires numbered { IsWellNumbered arch.now }
    requires plan { plan.now ≡ plan_of arch.now plan.now.source }
    ensures { IfOk result (λ code. (source : Origin) → code ≡ (task_of arch.now plan.now.source source).code) }
{
    let handlers = plan.handlers.as_slice();
    let zeros = vec![in alloc; 0u32; handlers.len()]?;
    let bare = table(alloc, arch, handlers, zeros.as_slice())?;
    let first = write_code(alloc, arch, heard, plan, &bare)?;
    let full = table(alloc, arch, handlers, first.places.as_slice())?;
    let second = write_code(alloc, arch, heard, plan, &full)?;
    let Written { code, places: _ } = second;
    Ok(code.instrs())
}

/// The task of the plan.
pub(crate) fn task_of(
    alloc: Global,
    arch: &Measured<'_>,
    heard: &[Items<Listener>],
    plan: &TaskPlan,
) -> Result<Task, NoMemory>
    requires heard { AreHeard arch.now heard.now }
    requires source { plan.now.source < length arch.now.sources }
    requires numbered { IsWellNumbered arch.now }
    requires plan { plan.now ≡ plan_of arch.now plan.now.source }
    ensures { IfOk result (λ task. (source : Origin) → slice_get arch.now.sources plan.now.source ≡ Some source
        → task ≡ task_of arch.now plan.now.source source) }
{
    let handlers = plan.handlers.as_slice();
    let width = message_words(arch.arch(), On::Source(plan.source))?;
    let laid = frames(alloc, arch, handlers)?;
    let buffers = all_buffers(alloc, arch.arch(), handlers)?;
    let code = code_of(alloc, arch, heard, plan)?;
    Ok(Task {
        priority: plan.priority,
        message: width,
        room: room(width, laid.as_slice()),
        buffers,
        code,
    })
}
