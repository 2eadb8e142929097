//! The options of a run that its command line states.
ghost use Rattle.std.specs.Prelude.{◌≡◌};
ghost use Rattle.script_model.specs.Options.{plain};

use lake_model::Keys;
use std::marker::Model;

/// A piece of an order: the lanes that take turns in a batch, one after another, where 0 is the merger. Its model is
/// the list of the lanes.
#[derive(Drop)]
pub struct Piece {
    lanes: Vec<u32>,
}

impl Model for Piece {
    ghost use Rattle.std.specs.Prelude.{List, ℕ};

    ghost Value = { List ℕ };

    ghost view = { λ p. p.lanes.items };
}

impl Piece {
    /// Returns the piece of these lanes. It takes no memory.
    pub fn new(lanes: Vec<u32>) -> Piece
        ensures { result ≡ lanes.items }
    {
        Piece { lanes }
    }

    /// Returns the lanes.
    pub fn list(&self) -> &[u32]
        ensures { result.now ≡ self.now }
    {
        &self.lanes
    }
}

/// A stated order: a piece for each batch. Its model is the list of the pieces.
#[derive(Drop)]
pub struct Order {
    pieces: Vec<Piece>,
}

impl Model for Order {
    ghost use Rattle.std.specs.Prelude.{List, ℕ};

    ghost Value = { List (List ℕ) };

    ghost view = { λ o. o.pieces.items };
}

impl Order {
    /// Returns the order of these pieces. It takes no memory.
    pub fn new(pieces: Vec<Piece>) -> Order
        ensures { result ≡ pieces.items }
    {
        Order { pieces }
    }

    /// Returns the pieces.
    pub fn list(&self) -> &[Piece]
        ensures { result.now ≡ self.now }
    {
        &self.pieces
    }
}

/// What a command line states of a run: the number of lanes, the order of their steps if one is stated, whether a
/// merger runs beside them, whether replies are written with a trace, and by which kind of keys values are compared.
#[derive(Drop)]
pub struct Options {
    pub lanes: u32,
    pub order: Option<Order>,
    pub merge: bool,
    pub trace: bool,
    pub keys: Keys,
}

impl Model for Options {
    ghost use Rattle.script_model.specs.Options.{Options as OptionsOf, options_with};

    ghost Value = { OptionsOf };

    ghost view = { λ o. options_with o.lanes o.order o.merge o.trace o.keys };
}

impl Options {
    /// Returns the options of one lane, with no stated order, no merger and no trace, where values are compared by
    /// canonical caseless matching. It takes no memory.
    pub fn plain() -> Options
        ensures { result ≡ plain }
    {
        Options {
            lanes: 1,
            order: None,
            merge: false,
            trace: false,
            keys: Keys::Canonical,
        }
    }
}
