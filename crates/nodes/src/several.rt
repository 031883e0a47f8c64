// Several children of an element by their names, in one walk that ends when all are found.
ghost use Rattle.std.specs.Prelude.{◌≡◌, List, ℕ, ◌<◌, ◌≤◌, ◌≢◌, ◌↔◌, IsTrue, IfSome, [], map, length, get_or, drop};
ghost use Rattle.std.specs.List.{All};
ghost use Rattle.laws.specs.Lists.{same};
ghost use Rattle.markup.specs.NamesAndValues.Read.{read};
ghost use Rattle.markup.specs.Elements.{Inside, Tree, content, element, kids};
ghost use Rattle.markup.specs.View.{part};
ghost use Rattle.nodes.specs.Stands.{Stands};
ghost use Rattle.nodes.specs.Several.{node_at, meets, EachFirst, Unfinished};

use crate::children::{enter, next_kid};
use crate::{MISSING, Node, Opened, Walked};
use markup::bytes::{part, same};
use reading::skips::{head, skip};

// A node that is missing is the child that is met, where that has the name.
#[tactic(auto, unfolding(crate::specs::Several::meets))]
fn met(n: Node, named: bool, here: Node) -> Node
    ensures { result ≡ meets named here n }
{
    if named && n.levels == 0 { here } else { n }
}

// A child of the name x takes the places that are its own. By an index: over `found.iter_mut().zip(names)` the proof knows nothing of what was written.
fn meet(found: &mut [Node], names: &[&[u8]], x: &[u8], here: Node)
    ensures { (k : ℕ) → k < length found.old → k < length (map (λ y. y.now) names.now) → node_at found.new k ≡ meets (same (get_or (map (λ y. y.now) names.now) k []) x.now) here (node_at found.old k) }
{
    for (i, name) in names.iter().enumerate() {
        if i < found.len() {
            found[i] = met(found[i], same(name, x), here);
        }
    }
}

fn all_there(found: &[Node]) -> bool
    ensures { IsTrue result ↔ All (λ n. n.levels ≢ 0) found.now }
{
    found.iter().all(|n| n.levels != 0)
}

// From the place where an element opens on.
fn several_from<const N: usize>(s: &[u8], inside: Opened, names: &[&[u8]]) -> Walked<N>
    ensures { ((i : Inside) (m : List ℕ) → content (element inside.levels) (part s.now inside.name inside.name_end) (drop inside.from s.now) ≡ read i m → EachFirst s.now (kids i) (map (λ y. y.now) names.now) result.found × Unfinished s.now result.rest m) × IfSome result.rest (λ p. inside.from ≤ p) }
{
    let mut at = inside.from;
    let mut found = [MISSING; N];
    loop {
        let Some(q) = next_kid(s, inside, at) else {
            return Walked {
                found,
                rest: Some(at),
            };
        };
        let Some(name) = head(s, q) else {
            return Walked {
                found,
                rest: Some(q),
            };
        };
        let here = Node {
            at: q,
            levels: inside.levels,
        };
        meet(&mut found, names, part(s, name.start, name.end), here);
        if all_there(&found) {
            return Walked {
                found,
                rest: Some(q),
            };
        }
        let Some(done) = skip(s, q) else {
            return Walked {
                found,
                rest: Some(q),
            };
        };
        at = done.at;
    }
}

// The first children of some names, and where the walk ended.
pub fn walk<const N: usize>(s: &[u8], n: Node, names: &[&[u8]]) -> Walked<N>
    ensures { ((t : Tree) → Stands n.levels (drop n.at s.now) t → EachFirst s.now (kids t.inside) (map (λ y. y.now) names.now) result.found) × ((t : Tree) (m : List ℕ) → element n.levels (drop n.at s.now) ≡ read t m → Unfinished s.now result.rest m) × IfSome result.rest (λ p. n.at ≤ p) }
{
    match enter(s, n) {
        Some(inside) => several_from(s, inside, names),
        None => Walked {
            found: [MISSING; N],
            rest: None,
        },
    }
}
