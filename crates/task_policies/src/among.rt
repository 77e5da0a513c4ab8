//! Tasks among those that are given.
ghost use Rattle.std.specs.Prelude.{◌≡◌, ℕ, ◌<◌, ◌^◌, ◌≤◌, Bool, IfSome, filter, length, slice_get, slice_index};
ghost use Rattle.task_code.specs.Policy.{places_from, at_turn};

/// A test of tasks.
pub trait Test {
    ghost passes: { Self → ℕ → Bool };

    /// Whether task `x` passes.
    fn passes(&self, x: usize) -> bool
        ensures { result ≡ passes self.now x };
}

/// The number that a list has for task `x`; 0 where it has none.
pub fn number_of(numbers: &[u8], x: usize) -> u8
    ensures { result ≡ slice_index numbers.now x }
{
    if x < numbers.len() { numbers[x] } else { 0 }
}

/// How many of the given tasks pass a test.
pub fn count<T: Test>(given: &[bool], test: &T) -> usize
    ensures count { result ≡ length (filter (T.passes test.now) (places_from 0 given.now)) }
    ensures few { result ≤ length given.now }
{
    let mut count = 0;
    for x in 0..given.len() {
        if given[x] && test.passes(x) {
            count += 1;
        }
    }
    count
}

/// The given task that passes a test and that so many others that pass come before.
pub fn at_position<T: Test>(given: &[bool], test: &T, position: usize) -> Option<usize>
    ensures task { result ≡ slice_get (filter (T.passes test.now) (places_from 0 given.now)) position }
    ensures below { IfSome result (λ x. x < length given.now) }
{
    let mut left = position;
    for x in 0..given.len() {
        if given[x] && test.passes(x) {
            if left == 0 {
                return Some(x);
            }
            left -= 1;
        }
    }
    None
}

/// Of the given tasks that pass a test, in task order, the one at position `k` modulo their number.
pub fn pick_among<T: Test>(given: &[bool], test: &T, k: u32) -> Option<u32>
    requires { length given.now < 2 ^ 32 }
    ensures { result ≡ at_turn k (filter (T.passes test.now) (places_from 0 given.now)) }
{
    let count = count(given, test);
    if count == 0 {
        return None;
    }
    match at_position(given, test, k as usize % count) {
        Some(x) => Some(x as u32),
        None => None,
    }
}
