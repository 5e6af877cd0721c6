ghost use Rattle.std.specs.Prelude.{◌≡◌, ◌<◌, ◌≤◌, ℕ, length, IfOk, slice_index};
ghost use Rattle.component_split.specs.Classes.{root, AreApart, AreParents};
ghost use Rattle.component_split.specs.Split.{merged};

use oi_base::NoMemory;
use std::alloc::Global;

/// The lowest number of a number's class. The way up to it gets shorter.
pub fn find(parents: &mut Vec<usize>, of: usize) -> usize
    requires parents { AreParents parents.old.items }
    requires within { of < length parents.old.items }
    ensures root { result ≡ root parents.old.items of }
    ensures low { result ≤ of }
    ensures same { (f : ℕ) → root parents.new.items f ≡ root parents.old.items f }
    ensures parents { AreParents parents.new.items }
    ensures length { length parents.new.items ≡ length parents.old.items }
{
    let mut at = of;
    while parents[at] != at {
        let above = parents[parents[at]];
        parents[at] = above;
        at = above;
    }
    at
}

/// The classes of two numbers become one.
pub fn join(parents: &mut Vec<usize>, x: usize, y: usize)
    requires parents { AreParents parents.old.items }
    requires x { x < length parents.old.items }
    requires y { y < length parents.old.items }
    ensures roots { (f : ℕ) → root parents.new.items f ≡ merged (root parents.old.items x) (root parents.old.items y) (root parents.old.items f) }
    ensures parents { AreParents parents.new.items }
    ensures length { length parents.new.items ≡ length parents.old.items }
{
    let a = find(parents, x);
    let b = find(parents, y);
    if a < b {
        parents[b] = a;
    } else if b < a {
        parents[a] = b;
    }
}

/// The numbers below a count.
pub fn numbers(alloc: Global, count: usize) -> Result<Vec<usize>, NoMemory>
    ensures length { IfOk result (λ v. length v.items ≡ count) }
    ensures each { IfOk result (λ v. (k : ℕ) → k < count → slice_index v.items k ≡ k) }
{
    let mut numbers = Vec::new(alloc);
    for n in 0..count {
        numbers.push(n)?;
    }
    Ok(numbers)
}

/// The first numbers become classes of their own.
pub fn part(parents: &mut Vec<usize>, n: usize)
    requires parents { AreParents parents.old.items }
    requires room { n ≤ length parents.old.items }
    ensures apart { AreApart n parents.new.items }
    ensures length { length parents.new.items ≡ length parents.old.items }
{
    for k in 0..n {
        parents[k] = k;
    }
}
