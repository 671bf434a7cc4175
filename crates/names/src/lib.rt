// Environments: slices of named entries, in which the first entry with a name counts. One code for every kind of definition.
#![tactic(auto)]

ghost use Rattle.std.specs.Prelude.{◌≡◌, ℕ, ◌↔◌, None};
ghost use Rattle.names.specs.Env.{lookup, stacked, Apart, first_in, Laws};

#[cfg(test)]
mod tests;

// What has a symbol for its name.
pub trait Named {
    ghost symbol: { Self → ℕ };

    fn name(&self) -> u16
        ensures { result ≡ symbol self.now };
}

// The first entry with that name.
pub fn find<D: Named + Copy>(entries: &[D], name: u16) -> Option<D>
    ensures { result ≡ lookup D.symbol entries.now name }
{
    entries.iter().find(|entry| entry.name() == name).copied()
}

// The first entry with that name in `upper`, and where there is none, in `lower`.
pub fn find_stacked<D: Named + Copy>(upper: &[D], lower: &[D], name: u16) -> Option<D>
    ensures { result ≡ stacked (lookup D.symbol upper.now) (lookup D.symbol lower.now) name }
{
    find(upper, name).or_else(|| find(lower, name))
}

// The first entry whose name `taken` has too. Where there is none, the disjoint union of the two environments is defined: it is
// the two lists one behind the other, in either order.
pub fn first_shared<D: Named + Copy, E: Named + Copy>(entries: &[D], taken: &[E]) -> Option<D>
    ensures value { result ≡ first_in D.Named.symbol entries.now (lookup E.Named.symbol taken.now) }
    ensures union { Apart (lookup D.Named.symbol entries.now) (lookup E.Named.symbol taken.now) ↔ (result ≡ None) }
{
    let shared = |candidate: &&D| find(taken, candidate.name()).is_some();
    entries.iter().find(shared).copied()
}

// The laws of environments stand.
pub fn environments_stand<D, E>()
    ensures { Laws D E }
{}
