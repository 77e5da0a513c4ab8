use std::alloc::Global;
use std::marker::Model;
use tower_types::NoMemory;

/// Some of a number of tasks, as bits in 64-bit words.
#[derive(Drop)]
pub struct Bits {
    words: Vec<u64>,
}

impl Model for Bits {
    ghost use Rattle.std.specs.Prelude.{ℕ, List};

    ghost Value = { List ℕ };

    ghost view = { λ b. b.words.items };
}

impl Bits {
    ghost use Rattle.std.specs.Prelude.{◌≡◌, ◌<◌, ◌/◌, ℕ, length, replicate, IfOk};
    ghost use Rattle.task_machine.specs.Bits.{words_for, bit};

    /// None of so many tasks.
    pub fn none(alloc: Global, tasks: usize) -> Result<Bits, NoMemory>
        ensures { IfOk result (λ b. b ≡ replicate (words_for tasks) 0) }
    {
        Ok(Bits {
            words: vec![in alloc; 0; tasks.div_ceil(64)]?,
        })
    }

    pub fn words(&self) -> &[u64]
        ensures { result.now ≡ self.now }
    {
        self.words.as_slice()
    }

    /// Task `t` is one of them.
    pub fn add(&mut self, t: usize)
        requires { t / 64 < length self.old }
        ensures here { bit self.new t ≡ 1 }
        ensures others { (y : ℕ) → (y ≡ t → ⊥) → bit self.new y ≡ bit self.old y }
        ensures count { length self.new ≡ length self.old }
    {
        self.words[t / 64] |= 1 << (t % 64);
    }

    /// Task `t` is none of them.
    pub fn remove(&mut self, t: usize)
        requires { t / 64 < length self.old }
        ensures here { bit self.new t ≡ 0 }
        ensures others { (y : ℕ) → (y ≡ t → ⊥) → bit self.new y ≡ bit self.old y }
        ensures count { length self.new ≡ length self.old }
    {
        self.words[t / 64] &= !(1 << (t % 64));
    }
}

ghost use Rattle.std.specs.Prelude.{◌≡◌, ◌+◌, ◌*◌, ◌<◌, ◌≤◌, ◌^◌, ℕ, Some, length, slice_get};
ghost use Rattle.std.specs.Int.{bit_at};
ghost use Rattle.task_machine.specs.Bits.{bit};

/// Notes of the tasks of word `k` whether they are ready.
fn mark_word(word: u64, k: usize, ready: &mut Vec<bool>, flag: bool)
    requires { (i : ℕ) → i < 64 → bit_at word i ≡ 1 → 64 * k + i < length ready.old.items }
    ensures marked { (i : ℕ) → i < 64 → bit_at word i ≡ 1 → slice_get ready.new.items (64 * k + i) ≡ Some flag }
    ensures others { (y : ℕ) → ((i : ℕ) → i < 64 → bit_at word i ≡ 1 → y ≡ 64 * k + i → ⊥) → slice_get ready.new.items y ≡ slice_get ready.old.items y }
    ensures count { length ready.new.items ≡ length ready.old.items }
{
    let mut left = word;
    for _ in 0..64u32 {
        if left == 0 {
            return;
        }
        let i = left.trailing_zeros() as usize;
        ready[64 * k + i] = flag;
        left &= !(1 << i);
    }
}

/// Notes of each of these tasks whether it is ready.
pub fn mark(bits: &[u64], ready: &mut Vec<bool>, flag: bool)
    requires { (y : ℕ) → bit bits.now y ≡ 1 → y < length ready.old.items }
    ensures marked { (y : ℕ) → bit bits.now y ≡ 1 → slice_get ready.new.items y ≡ Some flag }
    ensures others { (y : ℕ) → bit bits.now y ≡ 0 → slice_get ready.new.items y ≡ slice_get ready.old.items y }
    ensures count { length ready.new.items ≡ length ready.old.items }
{
    for k in 0..bits.len() {
        mark_word(bits[k], k, ready, flag);
    }
}
