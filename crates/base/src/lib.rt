// Counted loops and choices: their laws in proofs/. Of code, a choice and a difference of whole numbers that every crate takes from here.
#![tactic(auto)]

ghost use Rattle.std.specs.Prelude.{◌≡◌, cond, ◌-◌};

// a where the test holds, else b.
pub fn choose<T: Copy>(test: bool, a: T, b: T) -> T
    ensures { result ≡ cond test a b }
{
    if test { a } else { b }
}

// a - b, or 0 where b is larger.
pub fn less(a: usize, b: usize) -> usize
    ensures { result ≡ a - b }
{
    a.saturating_sub(b)
}
