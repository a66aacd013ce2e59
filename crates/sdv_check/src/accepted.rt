//! A script that was accepted.

use sdv_graph::Graph;
use std::marker::Model;

/// A script that was verified: its graph, for which a certificate is closed, and the bound of that certificate.
#[derive(Drop)]
pub struct Accepted<'a> {
    graph: Graph<'a>,
    bound: u64,
}

impl<'a> Model for Accepted<'a> {
    ghost use Rattle.sdv_check.specs.Verified.{Acceptance, WasAccepted};

    ghost Value = { Acceptance };

    ghost view = { λ a. record { graph = a.graph; bound = a.bound } };

    ghost invariant = { λ a. WasAccepted (record { graph = a.graph; bound = a.bound }) };
}

impl<'a> Accepted<'a> {
    ghost use Rattle.std.specs.Prelude.{◌≡◌};
    ghost use Rattle.sdv_check.specs.Verified.{Acceptance, WasAccepted};

    /// What was verified.
    pub(crate) fn new(graph: Graph<'a>, bound: u64) -> Accepted<'a>
        requires { WasAccepted (record { graph = graph; bound = bound }) }
        ensures { result ≡ record { graph = graph.entry; bound = bound } }
    {
        Accepted { graph, bound }
    }

    /// The bound of the certificate: the commands that it allows from point 0 on.
    pub fn bound(&self) -> u64
        ensures { result ≡ self.now.bound }
    {
        self.bound
    }

    /// The graph of the script. A certificate is closed for it, with that bound.
    pub fn graph(&self) -> &Graph<'a>
        ensures graph { result.now ≡ self.now.graph }
        ensures accepted { WasAccepted self.now }
    {
        &self.graph
    }
}
