// Whether given tables are ones that an accepted reading of some text leaves.
#![tactic(auto)]

ghost use Rattle.std.specs.Prelude.{◌≡◌};
ghost use Rattle.std.specs.List.{list_all};

pub mod circuits;
pub mod formulas;

// Whether each entry is this one. As a function of its own in the machine's code: where it is inlined in the audit, its loop takes
// half as much time again.
#[inline(never)]
fn all_are<T: PartialEq>(entries: &[T], this: &T) -> bool
    ensures { result ≡ list_all (λ x. T.eq x this.now) entries.now }
{
    entries.iter().all(|entry| *entry == *this)
}
