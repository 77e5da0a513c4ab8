ghost use Rattle.std.specs.Prelude.{◌≡◌, ◌+◌, ◌<◌, ◌^◌, ◌∷◌, ◌&&◌, ℕ, pos, suc, nat_lt, slice_get, slice_set, length, All, MatchOption, IfSome, IfNone, None, Some, IsTrue, is_some, take, drop, slice_index, ◌≤◌};
ghost use Rattle.tower_types.specs.Value.{fits_scalar, has_numbers};
ghost use Rattle.tower_types.specs.Arithmetic.{wrap_to, binary_of, unary_of, applies, applies_one, is_number};
ghost use Rattle.task_code.specs.Program.{Program as ProgramOf};
ghost use Rattle.task_code.specs.declared.program.Task.{Task as TaskOf};
ghost use Rattle.task_code.specs.declared.program.Buffer.{Buffer};
ghost use Rattle.task_code.specs.Own.{Filled, Held};
ghost use Rattle.task_code.specs.Rules.{IsInstr};
ghost use Rattle.task_code.specs.Does.{Does, Stuck, Private as PrivateOf, Takes, Locks, Unlocks, Writes, need, popped, returned, indexed, without_lock, with_lock, with_buffer, at_zero, word_at, slot, with_word, with_count, with_words, to_stack, to_words, to_buffer, pushed, on, executes, does};
ghost use Rattle.task_machine.specs.Action.{effect, private_effect, with_message, with_lock_of, without_held, HasRoom, IsWithin, CanGoOn, holds_lock, stored_held, jumped_to, buffer_at};

use crate::action::{Action, Change};
use crate::operations::{applies_to, applies_to_both};
use crate::own::Own;
use task_code::{Buffer, Instr, Program, Task};
use tower_types::{BinOp, Scalar, UnOp, binary, unary, wrap};

/// The number as an index below `n`, where it is one.
fn index(i: i128, n: u32) -> Option<usize>
    ensures place { MatchOption result ((go : ℕ → Does) → indexed i n go ≡ Stuck) (λ k. (go : ℕ → Does) → indexed i n go ≡ go k) }
    ensures below { IfSome result (λ k. k < n) }
{
    if 0 <= i && i < i128::from(n) {
        Some(i as usize)
    } else {
        None
    }
}

fn push(own: &Own, word: i128) -> Option<Change>
    ensures effect { private_effect result own.now ≡ pushed own.now word }
    ensures room { IfSome result (λ c. HasRoom c own.now) }
{
    if own.is_stack_full() {
        None
    } else {
        Some(Change::Push { pops: 0, word })
    }
}

fn pop(own: &Own) -> Option<Change>
    ensures effect { private_effect result own.now ≡ popped own.now.stack (λ v rest. to_stack own.now rest) }
    ensures room { IfSome result (λ c. HasRoom c own.now) }
{
    own.top(0)?;
    Some(Change::Pop { pops: 1 })
}

fn push_again(own: &Own) -> Option<Change>
    ensures effect { private_effect result own.now ≡ popped own.now.stack (λ v rest. pushed own.now v) }
    ensures room { IfSome result (λ c. HasRoom c own.now) }
{
    let word = own.top(0)?;
    push(own, word)
}

fn load(own: &Own, at: u32) -> Option<Change>
    ensures effect { private_effect result own.now ≡ pushed own.now (word_at own.now.words at) }
    ensures room { IfSome result (λ c. HasRoom c own.now) }
{
    let word = own.word(at as usize);
    push(own, word)
}

fn store(own: &Own, at: u32) -> Option<Change>
    ensures effect { private_effect result own.now ≡ popped own.now.stack (λ v rest. to_words own.now rest (slice_set own.now.words at v)) }
    ensures room { IfSome result (λ c. HasRoom c own.now) }
{
    let word = own.top(0)?;
    Some(Change::Store {
        pops: 1,
        at: at as usize,
        word,
    })
}

fn load_indexed(own: &Own, at: u32, n: u32) -> Option<Change>
    ensures effect { private_effect result own.now ≡ popped own.now.stack (λ i rest. indexed i n (λ k. to_stack own.now (word_at own.now.words (at + k) ∷ rest))) }
    ensures room { IfSome result (λ c. HasRoom c own.now) }
{
    let i = own.top(0)?;
    let k = index(i, n)?;
    let word = own.word(at as usize + k);
    Some(Change::Push { pops: 1, word })
}

fn store_indexed(own: &Own, at: u32, n: u32) -> Option<Change>
    ensures effect { private_effect result own.now ≡ popped own.now.stack (λ v below. popped below (λ i rest. indexed i n (λ k. to_words own.now rest (slice_set own.now.words (at + k) v)))) }
    ensures room { IfSome result (λ c. HasRoom c own.now) }
{
    let i = own.top(1)?;
    let word = own.top(0)?;
    let k = index(i, n)?;
    Some(Change::Store {
        pops: 2,
        at: at as usize + k,
        word,
    })
}

/// Does the task hold the lock of this monitor.
fn holds(own: &Own, monitor: u32) -> bool
    ensures { result ≡ holds_lock own.now.held monitor }
{
    match own.held() {
        Some(held) => held == monitor,
        None => false,
    }
}

fn load_held(own: &Own, monitor: u32, at: u32, n: u32) -> Option<Change>
    ensures effect { private_effect result own.now ≡ popped own.now.stack (λ i rest. with_lock own.now.held monitor (λ h. indexed i n (λ k. to_stack own.now (word_at h.words (at + k) ∷ rest)))) }
    ensures room { IfSome result (λ c. HasRoom c own.now) }
{
    let i = own.top(0)?;
    if !holds(own, monitor) {
        return None;
    }
    let k = index(i, n)?;
    let word = own.held_word(at as usize + k);
    Some(Change::Push { pops: 1, word })
}

fn store_held(own: &Own, monitor: u32, at: u32, n: u32) -> Option<Change>
    ensures effect { private_effect result own.now ≡ popped own.now.stack (λ v below. popped below (λ i rest. with_lock own.now.held monitor (λ h. indexed i n (λ k. stored_held own.now rest (with_words h (slice_set h.words (at + k) v)))))) }
    ensures room { IfSome result (λ c. HasRoom c own.now) }
{
    let i = own.top(1)?;
    let word = own.top(0)?;
    if !holds(own, monitor) {
        return None;
    }
    let k = index(i, n)?;
    Some(Change::StoreHeld {
        pops: 2,
        at: at as usize + k,
        word,
    })
}

fn one_operand(own: &Own, op: UnOp, t: Scalar) -> Option<Change>
    ensures effect { private_effect result own.now ≡ popped own.now.stack (λ a rest. need (applies_one op t && fits_scalar t a) (to_stack own.now (unary_of op t a ∷ rest))) }
    ensures room { IfSome result (λ c. HasRoom c own.now) }
{
    let a = own.top(0)?;
    if !applies_to(op, t, a) {
        return None;
    }
    let word = unary(op, t, a);
    Some(Change::Push { pops: 1, word })
}

fn two_operands(own: &Own, op: BinOp, t: Scalar) -> Option<Change>
    ensures effect { private_effect result own.now ≡ popped own.now.stack (λ b below. popped below (λ a rest. need (applies op t && (fits_scalar t a && fits_scalar t b)) (to_stack own.now (binary_of op t a b ∷ rest)))) }
    ensures room { IfSome result (λ c. HasRoom c own.now) }
{
    let a = own.top(1)?;
    let b = own.top(0)?;
    if !applies_to_both(op, t, a, b) {
        return None;
    }
    let word = binary(op, t, a, b);
    Some(Change::Push { pops: 2, word })
}

fn cast(own: &Own, t: Scalar) -> Option<Change>
    requires number { IsTrue (is_number t) }
    requires some { IsTrue (has_numbers t) }
    ensures effect { private_effect result own.now ≡ popped own.now.stack (λ a rest. to_stack own.now (wrap_to t a ∷ rest)) }
    ensures room { IfSome result (λ c. HasRoom c own.now) }
{
    let a = own.top(0)?;
    let word = wrap(t, a);
    Some(Change::Push { pops: 1, word })
}

fn jump_at_zero(own: &Own, to: u32) -> Option<Change>
    ensures effect { private_effect result own.now ≡ popped own.now.stack (λ a rest. at_zero a (jumped_to own.now rest to) (to_stack own.now rest)) }
    ensures room { IfSome result (λ c. HasRoom c own.now) }
{
    let a = own.top(0)?;
    if a == 0 {
        Some(Change::Jump {
            pops: 1,
            to: to as usize,
        })
    } else {
        Some(Change::Pop { pops: 1 })
    }
}

fn call(own: &Own, to: u32) -> Option<Change>
    ensures effect { private_effect result own.now ≡ need (nat_lt (length own.now.calls) 256) (PrivateOf (record own.now { calls = suc own.now.place ∷ own.now.calls; place = to })) }
    ensures room { IfSome result (λ c. HasRoom c own.now) }
{
    if own.is_calls_full() {
        None
    } else {
        Some(Change::Call { to: to as usize })
    }
}

fn leave(own: &Own) -> Option<Change>
    ensures effect { private_effect result own.now ≡ returned own.now.calls (λ to calls. PrivateOf (record own.now { calls = calls; place = to })) }
    ensures room { IfSome result (λ c. HasRoom c own.now) }
{
    let to = own.caller()?;
    Some(Change::Return { to })
}

/// A buffer's shape and count.
fn buffer(own: &Own, buffers: &[Buffer], at: u32) -> Option<(Buffer, u32)>
    ensures none { IfNone result ((go : Buffer → Filled → Does) → with_buffer (slice_get buffers.now at) (slice_get own.now.buffers at) go ≡ Stuck) }
    ensures some { IfSome result (λ r. (go : Buffer → Filled → Does) → with_buffer (slice_get buffers.now at) (slice_get own.now.buffers at) go ≡ go r.0 (buffer_at own.now at)) }
    ensures count { IfSome result (λ r. (buffer_at own.now at).count ≡ r.1) }
{
    let shape = sqlite_items::at(buffers, at as usize)?;
    let count = own.count(at as usize)?;
    Some((*shape, count))
}

fn clear(own: &Own, buffers: &[Buffer], at: u32) -> Option<Change>
    ensures effect { private_effect result own.now ≡ with_buffer (slice_get buffers.now at) (slice_get own.now.buffers at) (λ s f. to_buffer own.now own.now.stack at (with_count f 0)) }
    ensures room { IfSome result (λ c. HasRoom c own.now) }
{
    buffer(own, buffers, at)?;
    Some(Change::Count {
        buffer: at as usize,
        count: 0,
    })
}

fn fill(own: &Own, buffers: &[Buffer], at: u32) -> Option<Change>
    ensures effect { private_effect result own.now ≡ popped own.now.stack (λ v below. popped below (λ j rest. with_buffer (slice_get buffers.now at) (slice_get own.now.buffers at) (λ s f. need (nat_lt f.count s.bound) (indexed j s.width (λ k. to_buffer own.now rest at (with_word f f.count k v)))))) }
    ensures room { IfSome result (λ c. HasRoom c own.now) }
{
    let j = own.top(1)?;
    let word = own.top(0)?;
    let (shape, count) = buffer(own, buffers, at)?;
    if count >= shape.bound {
        return None;
    }
    let k = index(j, shape.width)?;
    Some(Change::Fill {
        pops: 2,
        buffer: at as usize,
        at: k,
        word,
    })
}

fn add(own: &Own, buffers: &[Buffer], at: u32) -> Option<Change>
    ensures effect { private_effect result own.now ≡ with_buffer (slice_get buffers.now at) (slice_get own.now.buffers at) (λ s f. need (nat_lt f.count s.bound) (to_buffer own.now own.now.stack at (with_count f (suc f.count)))) }
    ensures room { IfSome result (λ c. HasRoom c own.now) }
{
    let (shape, count) = buffer(own, buffers, at)?;
    if count >= shape.bound {
        return None;
    }
    Some(Change::Count {
        buffer: at as usize,
        count: count + 1,
    })
}

fn read(own: &Own, buffers: &[Buffer], at: u32) -> Option<Change>
    ensures effect { private_effect result own.now ≡ popped own.now.stack (λ j below. popped below (λ i rest. with_buffer (slice_get buffers.now at) (slice_get own.now.buffers at) (λ s f. indexed i f.count (λ n. indexed j s.width (λ k. to_stack own.now (word_at (slot f n) k ∷ rest)))))) }
    ensures room { IfSome result (λ c. HasRoom c own.now) }
{
    let i = own.top(1)?;
    let j = own.top(0)?;
    let (shape, count) = buffer(own, buffers, at)?;
    let n = index(i, count)?;
    let k = index(j, shape.width)?;
    let word = own.message_word(at as usize, n, k);
    Some(Change::Push { pops: 2, word })
}

fn count(own: &Own, buffers: &[Buffer], at: u32) -> Option<Change>
    ensures effect { private_effect result own.now ≡ with_buffer (slice_get buffers.now at) (slice_get own.now.buffers at) (λ s f. pushed own.now (pos f.count)) }
    ensures room { IfSome result (λ c. HasRoom c own.now) }
{
    let (_, count) = buffer(own, buffers, at)?;
    let word = i128::from(count);
    push(own, word)
}

/// The action of a change, and being stuck where there is none.
fn private(own: &Own, change: Option<Change>) -> Action
    requires { IfSome change (λ c. HasRoom c own.now) }
    ensures effect { effect result own.now ≡ private_effect change own.now }
    ensures within { (p : ProgramOf) → (t : TaskOf) → IsWithin p t own.now result }
{
    match change {
        Some(change) => Action::Private(change),
        None => Action::Stuck,
    }
}

fn is_lock_held(own: &Own) -> bool
    ensures { result ≡ is_some own.now.held }
{
    own.held().is_some()
}

fn take(own: &Own, at: u32) -> Action
    ensures effect { effect result own.now ≡ without_lock own.now.held (Takes (with_message at own.now)) }
    ensures within { (p : ProgramOf) → (t : TaskOf) → at + t.message ≤ t.room → IsWithin p t own.now result }
{
    if is_lock_held(own) {
        Action::Stuck
    } else {
        Action::Take(at as usize)
    }
}

fn lock(own: &Own, monitor: u32) -> Action
    ensures effect { effect result own.now ≡ without_lock own.now.held (Locks monitor (with_lock_of monitor own.now)) }
    ensures within { (p : ProgramOf) → (t : TaskOf) → monitor < length p.monitors → IsWithin p t own.now result }
{
    if is_lock_held(own) {
        Action::Stuck
    } else {
        Action::Lock(monitor)
    }
}

fn unlock(own: &Own, monitor: u32) -> Action
    ensures effect { effect result own.now ≡ with_lock own.now.held monitor (λ h. Unlocks h (without_held own.now)) }
    ensures within { (p : ProgramOf) → (t : TaskOf) → monitor < length p.monitors → IsWithin p t own.now result }
{
    if holds(own, monitor) {
        Action::Unlock
    } else {
        Action::Stuck
    }
}

fn out(own: &Own, outputs: &[u32], output: u32, at: u32) -> Action
    ensures effect { effect result own.now ≡ without_lock own.now.held (Writes output (take (slice_index outputs.now output) (drop at own.now.words)) (on own.now)) }
    ensures within { (p : ProgramOf) → (t : TaskOf) → output < length p.outputs → IsWithin p t own.now result }
{
    if is_lock_held(own) {
        return Action::Stuck;
    }
    let words = if (output as usize) < outputs.len() {
        outputs[output as usize]
    } else {
        0
    };
    Action::Out(output, at as usize, words as usize)
}

/// What an instruction comes to.
fn execute(own: &Own, program: &Program, task: &Task, instr: Instr) -> Action
    requires { IsInstr program.now task.now instr }
    ensures effect { effect result own.now ≡ executes program.now task.now own.now instr }
    ensures within { IsWithin program.now task.now own.now result }
{
    let buffers = task.buffers.as_slice();
    match instr {
        Instr::Push(n) => private(own, push(own, n)),
        Instr::Drop => private(own, pop(own)),
        Instr::Dup => private(own, push_again(own)),
        Instr::Ld(at) => private(own, load(own, at)),
        Instr::St(at) => private(own, store(own, at)),
        Instr::Ldx(at, n) => private(own, load_indexed(own, at, n)),
        Instr::Stx(at, n) => private(own, store_indexed(own, at, n)),
        Instr::Ldm(m, at, n) => private(own, load_held(own, m, at, n)),
        Instr::Stm(m, at, n) => private(own, store_held(own, m, at, n)),
        Instr::Un(op, t) => private(own, one_operand(own, op, t)),
        Instr::Bin(op, t) => private(own, two_operands(own, op, t)),
        Instr::Cast(t) => private(own, cast(own, t)),
        Instr::Jmp(to) => Action::Private(Change::Jump {
            pops: 0,
            to: to as usize,
        }),
        Instr::Jz(to) => private(own, jump_at_zero(own, to)),
        Instr::Call(to) => private(own, call(own, to)),
        Instr::Ret => private(own, leave(own)),
        Instr::Take(at) => take(own, at),
        Instr::Lock(m) => lock(own, m),
        Instr::Unlock(m) => unlock(own, m),
        Instr::Out(o, at) => out(own, program.outputs(), o, at),
        Instr::Bclr(b) => private(own, clear(own, buffers, b)),
        Instr::Bput(b) => private(own, fill(own, buffers, b)),
        Instr::Badd(b) => private(own, add(own, buffers, b)),
        Instr::Bget(b) => private(own, read(own, buffers, b)),
        Instr::Bcnt(b) => private(own, count(own, buffers, b)),
    }
}

/// What the next instruction of a task comes to.
pub fn next(own: &Own, program: &Program, task: &Task) -> Action
    requires { All (IsInstr program.now task.now) task.now.code }
    ensures effect { effect result own.now ≡ does program.now task.now own.now }
    ensures within { IsWithin program.now task.now own.now result }
    ensures place { CanGoOn own.now result }
{
    let code = task.code.as_slice();
    let place = own.place();
    if place < code.len() {
        execute(own, program, task, code[place])
    } else {
        Action::Stuck
    }
}
