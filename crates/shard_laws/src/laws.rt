//! The law of shards, which is the contract of a function that does nothing.

ghost use Rattle.shard_laws.specs.ShardLaws.{MergedIsAnswer, PlacedIsAnswer};

/// States that the first k of the shards' answers, merged in answer order, are the answer over all their tables, if
/// each shard was asked the same: for k rows, and with the same table left out. So if each table of a lake is placed by
/// its name, by whatever rule, this is the answer of one lake over all tables. Names need not be distinct.
pub fn shards_law()
    ensures joined { MergedIsAnswer }
    ensures placed { PlacedIsAnswer }
{}
