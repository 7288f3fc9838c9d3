//! Which connections have a rule that fits, of those that stand at some places.

ghost use Rattle.std.specs.Prelude.{◌≡◌, ◌≤◌, ◌<◌, ◌+◌, ◌||◌, ℕ, [], true, length, count_by, IfSome, if◌then◌else◌};
ghost use Rattle.std.specs.List.{AllByRecursion, list_any};
ghost use Rattle.names.specs.UniqueName.{unique_text};
ghost use Rattle.match_rules.specs.OwnedRules.{has_fitting};
ghost use Rattle.match_index.specs.Collecting.{AreAmong, AreOwned, IsKnown, connections_of, entries_at, is_tested, is_wanted, is_wanting};
ghost use Rattle.match_index.specs.Entries.{ArePlaced, by_code, live};
ghost use Rattle.match_index.specs.Indexes.{AreFiled, AreShaped};
ghost use Rattle.match_index.specs.Near.{near_rules};
ghost use Rattle.match_index.specs.PlaceIndexes.{places_in};
ghost use Rattle.match_index.specs.Sets.{AreRising, is_in};

use crate::buckets::{Parts, SHAPES, is_near};
use crate::conn_set::ConnSet;
use crate::entries::Entry;
use crate::place_index::{KeyedPlace, PlaceIndex};
use crate::steps::Steps;
use match_rules::laws::rules_are_read_again;
use match_rules::{Facts, Owners};
use names::ConnectionName;
use std::sync::ledger::Ledger;

/// Adds the connections that have a rule that fits a message. Only the rules of the buckets that
/// the message may be for are looked at, and each that is tested is a step.
pub(crate) fn collect<O: Owners, L: Ledger>(
    entries: &[Entry],
    by_bucket: &PlaceIndex,
    shapes: &[bool],
    facts: &Facts<'_>,
    owners: &O,
    found: &mut ConnSet,
    steps: &mut Steps<L>,
)
    requires coded { ArePlaced by_code entries.now by_bucket.now.places }
    requires filed { AreFiled entries.now }
    requires shaped { AreShaped shapes.now entries.now }
    requires all_shapes { length shapes.now ≡ SHAPES }
    requires empty { found.old ≡ [] }
    requires few { length (connections_of (live entries.now)) ≤ ConnSet.MAX }
    ensures found { (c : ℕ) → is_in c found.new
        ≡ has_fitting (O.heads owners.now) (live entries.now) facts.now c }
    ensures rising { AreRising found.new }
    ensures cost { steps.new ≤ steps.old + near_rules facts.now (live entries.now) }
{
    let name = ConnectionName::of(facts.sender);
    let sender = name.as_str();
    let parts = Parts::of(facts, sender);
    for shape in 0..SHAPES {
        if shapes[shape] {
            let places = by_bucket.of(parts.code_for(shape));
            collect_at(entries, places, shape, facts, sender, owners, found, steps);
        }
    }
}

/// Adds the connections that have a rule of this shape at these places that fits. Once a connection
/// is found, its other rules are passed over. The sender has this unique name.
pub(crate) fn collect_at<O: Owners, L: Ledger>(
    entries: &[Entry],
    places: &[KeyedPlace],
    shape: usize,
    facts: &Facts<'_>,
    sender: &str,
    owners: &O,
    found: &mut ConnSet,
    steps: &mut Steps<L>,
)
    requires named { sender.now ≡ unique_text facts.now.sender }
    requires there { AllByRecursion (λ p. p.place < length entries.now) places.now }
    requires few { length (connections_of (live entries.now)) ≤ ConnSet.MAX }
    requires owned { AreOwned (live entries.now) (entries_at entries.now (places_in places.now)) }
    requires among { AreAmong (live entries.now) found.old }
    ensures found { (c : ℕ) → is_in c found.new
        ≡ (is_in c found.old || list_any (is_wanting (O.heads owners.now) shape facts.now c)
        (entries_at entries.now (places_in places.now))) }
    ensures among { AreAmong (live entries.now) found.new }
    ensures cost { steps.new
        ≤ steps.old + count_by (is_tested shape facts.now) (entries_at entries.now
        (places_in places.now)) }
{
    let mut last = None;
    for place in places {
        let entry = &entries[place.place];
        if !found.contains(entry.connection)
            && is_wanted(entry, shape, facts, sender, owners, &mut last, steps)
        {
            found.insert(entry.connection);
        }
    }
}

/// The rule that was tested last, and whether it is wanted. Many connections add equal rules.
#[derive(Clone, Copy)]
struct Tested<'a> {
    entry: &'a Entry,
    is_wanted: bool,
}

/// Whether a rule is of this shape, near, and fits. One that equals the last is not tested again.
/// The sender has this unique name.
fn is_wanted<'a, O: Owners, L: Ledger>(
    entry: &'a Entry,
    shape: usize,
    facts: &Facts<'_>,
    sender: &str,
    owners: &O,
    last: &mut Option<Tested<'a>>,
    steps: &mut Steps<L>,
) -> bool
    requires named { sender.now ≡ unique_text facts.now.sender }
    requires last { IfSome last.old (IsKnown (O.heads owners.now) shape facts.now) }
    ensures value { result ≡ is_wanted (O.heads owners.now) shape facts.now entry.now }
    ensures last { IfSome last.new (IsKnown (O.heads owners.now) shape facts.now) }
    ensures cost { steps.new ≤ steps.old + (if is_tested shape facts.now entry.now then 1 else 0) }
{
    if let Some(tested) = *last
        && is_alike(tested.entry, entry)
    {
        return tested.is_wanted;
    }
    let is_wanted = test(entry, shape, facts, sender, owners, steps);
    *last = Some(Tested { entry, is_wanted });
    is_wanted
}

/// Whether two entries have one rule, and buckets of one shape.
fn is_alike(a: &Entry, b: &Entry) -> bool
    ensures shape { result ≡ true → a.now.bucket.shape ≡ b.now.bucket.shape }
    ensures rule { result ≡ true → a.now.rule ≡ b.now.rule }
{
    if a.bucket.shape == b.bucket.shape && a.rule == b.rule {
        // Rules that have texts are one where `==` says so.
        rules_are_read_again(&a.rule);
        rules_are_read_again(&b.rule);
        return true;
    }
    false
}

/// Tests a rule. It is a step where the rule is of this shape and near. The sender has this unique
/// name.
fn test<O: Owners, L: Ledger>(
    entry: &Entry,
    shape: usize,
    facts: &Facts<'_>,
    sender: &str,
    owners: &O,
    steps: &mut Steps<L>,
) -> bool
    requires named { sender.now ≡ unique_text facts.now.sender }
    ensures value { result ≡ is_wanted (O.heads owners.now) shape facts.now entry.now }
    ensures cost { steps.new ≤ steps.old + (if is_tested shape facts.now entry.now then 1 else 0) }
{
    if !is_tested(entry, shape, facts, sender) {
        return false;
    }
    steps.tick();
    entry.rule.fits(facts, owners)
}

/// Whether a rule is of this shape and near.
fn is_tested(entry: &Entry, shape: usize, facts: &Facts<'_>, sender: &str) -> bool
    requires { sender.now ≡ unique_text facts.now.sender }
    ensures { result ≡ is_tested shape facts.now entry.now }
{
    entry.bucket.shape == shape && is_near(&entry.rule, facts, sender)
}
