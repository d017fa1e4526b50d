//! Heirs of declarations.
#![tactic(auto)]

ghost use Rattle.std.specs.Prelude.{◌≡◌, None};
ghost use Rattle.sv_heirs.specs.Heirs.{place_of, heir, IsBreach, IsLeast};
ghost use Rattle.sv_heirs.specs.Sooner.{has, is_behind, later, sooner, pair_breach, least_from, line_breach};

use sqlite_items::Items;

/// The place of a contract's declaration.
fn place_of(places: &[Option<u32>], c: u32) -> Option<u32>
    ensures { result ≡ place_of places.now c }
{
    match places.get(c as usize) {
        Some(place) => *place,
        None => None,
    }
}

/// The last contract of a line that has a declaration of a name, or None where none has. `places` has for each contract the place of its
/// declaration, where it has one; a contract behind its end has none.
pub fn heir(places: &[Option<u32>], line: &[u32]) -> Option<u32>
    ensures { result ≡ heir places.now line.now }
{
    let mut last = None;
    for c in line {
        if place_of(places, *c).is_some() {
            last = Some(*c);
        }
    }
    last
}

fn has(line: &[u32], d: u32) -> bool
    ensures { result ≡ has line.now d }
{
    for x in line {
        if *x == d {
            return true;
        }
    }
    false
}

/// Whether a contract is the other, or has it in its line.
fn is_behind(lines: &[Option<Items<u32>>], c: u32, d: u32) -> bool
    ensures { result ≡ is_behind lines.now c d }
{
    if d == c {
        return true;
    }
    match lines.get(c as usize) {
        Some(Some(line)) => has(line.as_slice(), d),
        _ => false,
    }
}

/// The later of two places, where both are there.
fn later(a: Option<u32>, b: Option<u32>) -> Option<u32>
    ensures { result ≡ later a b }
{
    match (a, b) {
        (Some(a), Some(b)) => Some(a.max(b)),
        _ => None,
    }
}

/// The first of two places, where one is there.
fn sooner(a: Option<u32>, b: Option<u32>) -> Option<u32>
    ensures { result ≡ sooner a b }
{
    match (a, b) {
        (Some(a), Some(b)) => Some(a.min(b)),
        (Some(a), None) => Some(a),
        (None, b) => b,
    }
}

/// The place at which heir c and contract d break the rule.
fn pair_breach(places: &[Option<u32>], lines: &[Option<Items<u32>>], c: u32, d: u32) -> Option<u32>
    ensures { result ≡ pair_breach places.now lines.now c d }
{
    match later(place_of(places, c), place_of(places, d)) {
        Some(place) if !is_behind(lines, c, d) => Some(place),
        _ => None,
    }
}

/// The first place at which heir c and a contract of a line break the rule.
fn under(places: &[Option<u32>], lines: &[Option<Items<u32>>], c: u32, line: &[u32]) -> Option<u32>
    ensures { result ≡ least_from (pair_breach places.now lines.now c) None line.now }
{
    let mut found = None;
    for d in line {
        found = sooner(found, pair_breach(places, lines, c, *d));
    }
    found
}

/// The first place at which the rule is broken along a line.
fn line_breach(
    places: &[Option<u32>],
    lines: &[Option<Items<u32>>],
    line: &Option<Items<u32>>,
) -> Option<u32>
    ensures { result ≡ line_breach places.now lines.now line.now }
{
    match line {
        Some(line) => match heir(places, line.as_slice()) {
            Some(c) => under(places, lines, c, line.as_slice()),
            None => None,
        },
        None => None,
    }
}

/// The first place at which the rule on overrides along a line is broken, or None where it is kept: of each line, the last contract
/// that has a declaration of a name derives from every other that has one, and where it doesn't, the later of the two declarations breaks the
/// rule. `lines` has the line of each contract, and `places` the place of its declaration, where it has one; a contract derives from those in its line.
pub fn first_breach(places: &[Option<u32>], lines: &[Option<Items<u32>>]) -> Option<u32>
    ensures { IsLeast (IsBreach places.now lines.now) result }
{
    let mut found = None;
    for line in lines {
        found = sooner(found, line_breach(places, lines, line));
    }
    found
}
