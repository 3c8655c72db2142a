//! Proofs that are built out of the nodes of a tree, or of those that batches make.

use crate::shelves::{Shelves, named, put_proof};
use crate::stop::{Answer, Stop, bad_line, or_stop};
use crate::told;
use crate::words::{self, Hash};
use merkle_core::building::{element_proof, historical_range_proof, multi_proof, range_proof};
use merkle_core::multi::multi_proof_positions;
use merkle_core::{ElementPlan, Proof, Provable, RangePlan, Readable};
use merkle_forest::hasher::Standard;
use merkle_forest::{ByteHash, Family, Location};
use std::alloc::Global;
use std::ops::Range;

/// A proof, or the stop of the call that was to build it.
type Built<F> = Result<Proof<F, Hash>, Stop>;

impl<F: Family> Shelves<F> {
    /// Builds a proof out of a tree, or of the nodes that a batch and those below it make, and gives it a name.
    pub fn prove(&mut self, alloc: Global, name: &str, call: &[&str]) -> Answer {
        match call {
            [kind, nodes, what, words @ ..] => {
                let proof = self.proved(alloc, kind, nodes, what, words);
                put_proof(alloc, &mut self.proofs, name, proof)
            }
            _ => bad_line(),
        }
    }

    // The proof that a call asks for, out of the nodes that have this name.
    fn proved(
        &self,
        alloc: Global,
        kind: &str,
        name: &str,
        what: &str,
        words: &[&str],
    ) -> Built<F> {
        match kind {
            "tree" => proved(alloc, &self.hasher, named(&self.trees, name), what, words),
            "made" => proved(alloc, &self.hasher, named(&self.made, name), what, words),
            _ => bad_line(),
        }
    }
}

// The proof that a call asks for, out of these nodes if they are there.
fn proved<F: Family, R: Provable<F> + Readable<F, Digest = Hash>>(
    alloc: Global,
    hasher: &Standard<ByteHash>,
    nodes: Result<&R, Stop>,
    what: &str,
    words: &[&str],
) -> Built<F> {
    let nodes = nodes?;
    let numbers = words::numbers(alloc, words)?;
    match what {
        "many" => of_many(alloc, nodes, &numbers),
        what => of_few(alloc, hasher, nodes, what, &numbers),
    }
}

// The proof of several elements.
fn of_many<F: Family, R: Readable<F, Digest = Hash>>(
    alloc: Global,
    nodes: &R,
    numbers: &[u64],
) -> Built<F> {
    match numbers {
        [inactive, locations @ ..] => {
            let locations = words::locations(alloc, locations)?;
            or_stop(multi_proof(alloc, nodes, &locations, *inactive as usize))
        }
        [] => bad_line(),
    }
}

// The proof of an element or a range.
fn of_few<F: Family, R: Provable<F> + Readable<F, Digest = Hash>>(
    alloc: Global,
    hasher: &Standard<ByteHash>,
    nodes: &R,
    what: &str,
    numbers: &[u64],
) -> Built<F> {
    match numbers {
        [location, inactive] => {
            let location = Location::new(*location);
            of_element(alloc, hasher, nodes, what, location, *inactive as usize)
        }
        [start, stop, inactive] => {
            let range = Location::new(*start)..Location::new(*stop);
            of_range(alloc, hasher, nodes, what, range, *inactive as usize)
        }
        [leaves, start, stop, inactive] => {
            let range = Location::new(*start)..Location::new(*stop);
            let leaves = Location::new(*leaves);
            of_earlier(
                alloc,
                hasher,
                nodes,
                what,
                leaves,
                range,
                *inactive as usize,
            )
        }
        _ => bad_line(),
    }
}

// The proof of an element.
fn of_element<F: Family, R: Provable<F> + Readable<F, Digest = Hash>>(
    alloc: Global,
    hasher: &Standard<ByteHash>,
    nodes: &R,
    what: &str,
    location: Location<F>,
    inactive: usize,
) -> Built<F> {
    match what {
        "element" => or_stop(element_proof(alloc, hasher, nodes, location, inactive)),
        "own-element" => or_stop(nodes.proof(alloc, hasher, location, inactive)),
        _ => bad_line(),
    }
}

// The proof of a range.
fn of_range<F: Family, R: Provable<F> + Readable<F, Digest = Hash>>(
    alloc: Global,
    hasher: &Standard<ByteHash>,
    nodes: &R,
    what: &str,
    range: Range<Location<F>>,
    inactive: usize,
) -> Built<F> {
    match what {
        "range" => or_stop(range_proof(alloc, hasher, nodes, range, inactive)),
        "own-range" => or_stop(nodes.range_proof(alloc, hasher, range, inactive)),
        _ => bad_line(),
    }
}

// The proof of a range in the tree of the first leaves, of so many.
fn of_earlier<F: Family, R: Readable<F, Digest = Hash>>(
    alloc: Global,
    hasher: &Standard<ByteHash>,
    nodes: &R,
    what: &str,
    leaves: Location<F>,
    range: Range<Location<F>>,
    inactive: usize,
) -> Built<F> {
    match what {
        "earlier" => {
            or_stop(historical_range_proof(alloc, hasher, nodes, leaves, range, inactive))
        }
        "planned" => {
            let plan = RangePlan::new(alloc, leaves, range)?;
            by_plan(hasher, nodes, &plan, inactive)
        }
        _ => bad_line(),
    }
}

// The proof that is built by a plan.
fn by_plan<F: Family, R: Readable<F, Digest = Hash>>(
    hasher: &Standard<ByteHash>,
    nodes: &R,
    plan: &RangePlan<F>,
    inactive: usize,
) -> Built<F> {
    let get_node = |position| nodes.node_digest(position);
    or_stop(plan.build(hasher, inactive, &get_node))
}

/// Plans a proof, before digests are looked up: what is planned, the leaves, and the locations.
pub fn call_plan<F: Family>(alloc: Global, kind: &str, call: &[&str]) -> Answer {
    let numbers = words::numbers(alloc, call)?;
    match kind {
        "many" => plan_many::<F>(alloc, &numbers),
        "range" => plan_range::<F>(alloc, &numbers),
        kind => plan_element::<F>(alloc, kind, &numbers),
    }
}

// The positions of the nodes of a proof of some elements.
fn plan_many<F: Family>(alloc: Global, numbers: &[u64]) -> Answer {
    match numbers {
        [leaves, locations @ ..] => {
            let locations = words::locations(alloc, locations)?;
            planned_many::<F>(alloc, Location::new(*leaves), &locations)
        }
        [] => bad_line(),
    }
}

// The positions of the nodes of a proof of the elements at these locations.
fn planned_many<F: Family>(
    alloc: Global,
    leaves: Location<F>,
    locations: &[Location<F>],
) -> Answer {
    let positions = multi_proof_positions(alloc, leaves, locations)?;
    told::positions(alloc, &positions)
}

// The plan of an element, or what it is as the plan of a range.
fn plan_element<F: Family>(alloc: Global, kind: &str, numbers: &[u64]) -> Answer {
    match numbers {
        [leaves, location] => {
            let location = Location::new(*location);
            planned_element::<F>(
                alloc,
                kind,
                ElementPlan::new(alloc, Location::new(*leaves), location)?,
            )
        }
        _ => bad_line(),
    }
}

// The location of the plan of an element, and then its positions; or what it tells as the plan of a range.
fn planned_element<F: Family>(alloc: Global, kind: &str, plan: ElementPlan<F>) -> Answer {
    match kind {
        "element" => {
            told::number_and_positions(alloc, plan.location().as_u64(), plan.positions())
        }
        "element-as-range" => told_plan(alloc, &RangePlan::from(plan)),
        _ => bad_line(),
    }
}

// The plan of a range.
fn plan_range<F: Family>(alloc: Global, numbers: &[u64]) -> Answer {
    match numbers {
        [leaves, start, stop] => {
            let range = Location::new(*start)..Location::new(*stop);
            told_plan::<F>(
                alloc,
                &RangePlan::new(alloc, Location::new(*leaves), range)?,
            )
        }
        _ => bad_line(),
    }
}

// The leaves of a plan, and then its positions.
fn told_plan<F: Family>(alloc: Global, plan: &RangePlan<F>) -> Answer {
    told::number_and_positions(alloc, plan.leaves().as_u64(), plan.positions())
}
