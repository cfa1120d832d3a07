// What goes along a whole chain: the two walks that the check makes, the read into a lent buffer, and the emptying of a list.
#![tactic(auto)]

pub mod clear;
mod idle;
mod met;
pub mod reads;
pub mod walk;

ghost use Rattle.std.specs.Prelude.{◌≡◌, ◌⊎◌, ◌≤◌};

// The lesser of the two. By `min` the compiler compares them in every call, though they are equal there.
fn least(a: usize, b: usize) -> usize
    ensures { (result ≤ a) × (result ≤ b) × ((result ≡ a) ⊎ (result ≡ b)) }
{
    if a < b {
        return a;
    }
    b
}
