// The awaited subtrees.
ghost use Rattle.std.specs.Prelude.{◌≡◌, ◌∷◌, [], nat_lt, length, ◌<◌, ◌^◌, IfOk, OnOk, Some, false};
ghost use Rattle.certificate_text.specs.Standing.{after_node, next_place, outermost, proving, row_below};
ghost use Rattle.certificate_text.specs.Tests.{is_too_deep};

use certificates::CertificateNode;
use std::alloc::{AllocError, Global};
use std::marker::Model;

/// Where a subtree stands: the number of added rows above it, and whether it is in the proof of a
/// lemma.
#[derive(Clone, Copy, PartialEq, Eq)]
pub struct Place {
    pub(crate) rows: u32,
    pub(crate) in_proof: bool,
}

impl Place {
    // That of the whole tree.
    fn outermost() -> Place
        ensures { result ≡ outermost }
    {
        Place {
            rows: 0,
            in_proof: false,
        }
    }

    // Below one row more.
    fn row_below(self) -> Place
        requires { self.rows < 2 ^ 16 }
        ensures { result ≡ row_below self }
    {
        Place {
            rows: self.rows + 1,
            in_proof: self.in_proof,
        }
    }

    // In the proof of a lemma.
    fn proving(self) -> Place
        ensures { result ≡ proving self }
    {
        Place {
            rows: self.rows,
            in_proof: true,
        }
    }
}

/// The places of the awaited subtrees, the next one last.
#[derive(Drop)]
pub struct Places {
    places: Vec<Place>,
}

impl Model for Places {
    ghost use Rattle.std.specs.Prelude.{List, reverse};
    ghost use Rattle.certificate_text.specs.declared.places.Place.{Place as PlaceValue};

    ghost Value = { List PlaceValue };

    ghost view = { λ p. reverse p.places.items };
}

impl Places {
    /// The whole tree is awaited.
    pub(crate) fn new(alloc: Global) -> Result<Places, AllocError>
        ensures { IfOk result (λ p. p ≡ outermost ∷ []) }
    {
        let mut places = Vec::new(alloc);
        places.push(Place::outermost())?;
        Ok(Places { places })
    }

    /// Whether a subtree is awaited.
    pub(crate) fn has_next(&self) -> bool
        ensures { result ≡ nat_lt 0 (length self.now) }
    {
        !self.places.is_empty()
    }

    /// Where the next subtree stands.
    pub(crate) fn next(&self) -> Place
        ensures { result ≡ next_place self.now }
    {
        match self.places.last() {
            Some(place) => *place,
            None => Place::outermost(),
        }
    }

    // Two subtrees are awaited, before the others.
    fn begin(&mut self, first: Place, second: Place) -> Result<(), AllocError>
        ensures { OnOk result (self.new ≡ first ∷ second ∷ self.old) }
    {
        self.places.push(second)?;
        self.places.push(first)?;
        Ok(())
    }

    /// A node of the next subtree has come.
    pub(crate) fn take(&mut self, node: &CertificateNode) -> Result<(), AllocError>
        requires { is_too_deep (next_place self.old).rows (Some node.now) ≡ false }
        ensures { OnOk result (self.new ≡ after_node self.old node.now) }
    {
        let Some(place) = self.places.pop() else {
            return Ok(());
        };
        match node {
            CertificateNode::Split(_, _) => self.begin(place, place),
            CertificateNode::Plane(_, _) => self.begin(place.row_below(), place.row_below()),
            CertificateNode::Lemma(_, _) => self.begin(place.proving(), place.row_below()),
            CertificateNode::Duals(_) | CertificateNode::Weights(_) => Ok(()),
        }
    }
}
