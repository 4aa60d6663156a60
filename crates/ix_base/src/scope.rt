//! What is bound in an element. What an element declares is in byte order of the prefixes, so that a prefix is found by halving.
ghost use Rattle.std.specs.Prelude.{◌≡◌, ◌≤◌, ◌<◌, ◌&&◌, [], true, IfSome, bytes_eq, length, map, option_map};
ghost use Rattle.std.specs.List.{Contains};
ghost use Rattle.ix_base.specs.Bindings.{bound, are_ordered, place_of, has_at};
ghost use Rattle.ix_base.specs.Scope.{namespace_of, bound_as};
ghost use Rattle.ix_base.specs.Spaces.{space_bound, spaces_above, spaces_bound};
ghost use Rattle.ix_base.specs.Trees.{bindings_in, bindings_above};

use crate::tree::{Binding, Declared, Level, Scope};

/// The index of the first of some bindings whose prefix isn't below this one. It compares as many texts as their number has
/// binary digits.
fn place_in(bindings: &[Binding<'_>], prefix: &str) -> usize
    requires { are_ordered (map bound bindings.now) ≡ true }
    ensures value { result ≡ place_of (map bound bindings.now) prefix.now }
    ensures within { result ≤ length bindings.now }
{
    let mut low = 0;
    let mut high = bindings.len();
    while low < high {
        let middle = low + (high - low) / 2;
        if bindings[middle].prefix < prefix {
            low = middle + 1;
        } else {
            high = middle;
        }
    }
    low
}

fn is_bound_at(bindings: &[Binding<'_>], at: usize, prefix: &str) -> bool
    requires { at ≤ length bindings.now }
    ensures value { result ≡ has_at (map bound bindings.now) at prefix.now }
    ensures within { result ≡ true → at < length bindings.now }
{
    if at == bindings.len() {
        return false;
    }
    bindings[at].prefix == prefix
}

/// Whether a declaration takes the default namespace away.
fn takes_default(binding: &Binding<'_>) -> bool
    ensures { result ≡ (bytes_eq binding.now.prefix.now [] && bytes_eq binding.now.ns.now []) }
{
    binding.prefix == "" && binding.ns == ""
}

/// What a prefix is bound to where it is declared so: to nothing where that takes the default namespace away.
fn kept<'a>(binding: Binding<'a>) -> Option<Binding<'a>>
    ensures value { option_map (λ b. b.ns.now) result ≡ bound_as binding.entry.prefix.now binding.entry.ns.now }
    ensures same { IfSome result (λ b. b ≡ binding.entry) }
{
    if takes_default(&binding) {
        return None;
    }
    Some(binding)
}

/// The binding of a prefix at this level or above it. Where there is none, nothing is bound.
#[tactic(auto, using(crate::proofs::UnderLemmas::bound_here, crate::proofs::UnderLemmas::bound_above))]
fn bound_from<'a>(first: Option<&'a Level<'a>>, prefix: &str) -> Option<Binding<'a>>
    ensures value { option_map (λ b. b.ns.now) result ≡ namespace_of (bindings_above first.entry) prefix.now }
    ensures space { IfSome result (λ b. Contains (spaces_above first.entry) (space_bound b)) }
{
    let mut at = first;
    while let Some(level) = at {
        if let Some(binding) = level.own.binding_of(prefix) {
            return kept(binding);
        }
        at = level.above;
    }
    None
}

/// How many declarations of an element are compared one by one. Among more a prefix is looked for by halving.
const FEW: usize = 8;

/// The first of some bindings of a prefix.
fn first_of<'a>(bindings: &'a [Binding<'a>], prefix: &str) -> Option<Binding<'a>>
    ensures value { option_map (λ b. b.ns.now) result ≡ namespace_of (map bound bindings.entry.now) prefix.now }
    ensures prefix { IfSome result (λ b. b.prefix.now ≡ prefix.now) }
    ensures listed { IfSome result (λ b. Contains bindings.entry.now b) }
{
    for binding in bindings {
        if binding.prefix == prefix {
            return Some(*binding);
        }
    }
    None
}

impl<'a> Declared<'a> {
    /// The declaration of a prefix.
    fn binding_of(self, prefix: &str) -> Option<Binding<'a>>
        ensures value { option_map (λ b. b.ns.now) result ≡ namespace_of (map bound self.entry.list.now) prefix.now }
        ensures prefix { IfSome result (λ b. b.prefix.now ≡ prefix.now) }
        ensures listed { IfSome result (λ b. Contains self.entry.list.now b) }
    {
        if self.list.len() <= FEW {
            return first_of(self.list, prefix);
        }
        let at = place_in(self.list, prefix);
        if is_bound_at(self.list, at, prefix) {
            return Some(self.list[at]);
        }
        None
    }
}

impl<'a> Scope<'a> {
    /// A scope in which nothing is bound.
    pub const fn empty() -> Scope<'a>
        ensures { bindings_in result ≡ [] }
    {
        Scope { level: None }
    }

    /// What binds a prefix. The empty prefix is the default namespace. At each element from this one up that declares anything,
    /// until one declares the prefix, it compares as many texts as their number has binary digits.
    pub fn binding_of(self, prefix: &str) -> Option<Binding<'a>>
        ensures value { option_map (λ b. b.ns.now) result ≡ namespace_of (bindings_in self.entry) prefix.now }
        ensures space { IfSome result (λ b. Contains (spaces_bound self.entry) (space_bound b)) }
    {
        bound_from(self.level, prefix)
    }

    /// The namespace to which a prefix is bound. The empty prefix is the default namespace. It costs what `binding_of` costs.
    pub fn namespace_of(self, prefix: &str) -> Option<&'a str>
        ensures { option_map (λ ns. ns.now) result ≡ namespace_of (bindings_in self.entry) prefix.now }
    {
        Some(self.binding_of(prefix)?.ns)
    }
}
