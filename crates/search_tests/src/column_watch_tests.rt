//! Tests the rows of watched queries, and whether an entry changed them: runs whose rows were worked out by hand.
mod entries;
mod worked;
