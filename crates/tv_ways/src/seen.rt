//! What the faces of texts show, as a contract.

ghost use Rattle.tv_ways.specs.Seen.{KindTells};

use tv_model::Kind;

/// A theorem, as a function without a body: a text is told to be cut exactly where its face lacks a character of it that is no
/// space, and a marked letter where its column isn't shown.
pub fn cuts_are_lost(_kind: &Kind)
    ensures { KindTells _kind.now }
{}
