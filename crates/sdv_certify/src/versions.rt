//! Which version of certificates a script has, and what is carried so that the version can say it.

ghost use Rattle.std.specs.Prelude.{◌≡◌, option_map};
ghost use Rattle.sdv_graph.specs.Graph.{seen_point};
ghost use Rattle.sdv_certify.specs.VersionOf.{is_boot, takes_boot, version_of, told};

use sdv_facts::{Numbers, Version};
use sdv_graph::{Action, Atom, Graph, Point};

fn is_boot(atom: Atom) -> bool
    ensures { result ≡ is_boot atom }
{
    match atom {
        Atom::ExtBoot => true,
        Atom::Number(_) | Atom::Variable(_) | Atom::CsdBlocks | Atom::ExtBlocks => false,
    }
}

/// The point's statement is a `let` that takes the capacity of a boot partition.
fn takes_boot(point: &Point<'_>) -> bool
    ensures { result ≡ takes_boot (seen_point point.now).action }
{
    match &point.action {
        Action::Let(set, _) => is_boot(set.atom),
        Action::Send(_, _, _) | Action::Phase(_, _, _) | Action::If(_, _, _) => false,
        Action::Flag(_, _, _) | Action::Lines(_, _) | Action::Loop(_, _, _) => false,
        Action::Break(_) | Action::Done | Action::Fault(_) => false,
    }
}

/// Version 2 where the script takes the capacity of a boot partition, also where no run comes, and else version 1.
pub fn version_of(graph: &Graph) -> Version
    ensures { result ≡ version_of graph.now }
{
    for number in 0..graph.len() {
        if takes_boot(graph.point(number)) {
            return Version::Two;
        }
    }
    Version::One
}

/// As much of these numbers as a certificate of the version can say.
pub fn told(version: Version, numbers: Numbers) -> Numbers
    ensures { result ≡ told version numbers }
{
    match version {
        Version::One => numbers.without_boot(),
        Version::Two => numbers,
    }
}

/// The same of numbers that an edge carries; nothing where there is no edge.
pub fn told_if_carried(version: Version, carried: Option<Numbers>) -> Option<Numbers>
    ensures { result ≡ option_map (told version) carried }
{
    match carried {
        None => None,
        Some(numbers) => Some(told(version, numbers)),
    }
}
