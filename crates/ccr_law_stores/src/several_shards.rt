//! What the answers of several shards come to as one.

ghost use Rattle.std.specs.Prelude.{ℕ, List, Option};
ghost use Rattle.ccr_op.specs.Operation.{Operation};
ghost use Rattle.ccr_model.specs.Given.{IsAmong};
ghost use Rattle.ccr_model.specs.Answers.{IsIn};
ghost use Rattle.ccr_law_stores.specs.ShardsJoined.{FrontsJoin, JoinsTwo};

/// Where each of several shards answers a search truly over its own operations, whether those that its copy was
/// given or those of its line, a search of them all is answered from the fronts of their answers alone, each as
/// long as the place from which hits are wanted and their number together: by the hits of the fronts, sorted
/// together by the keys, then the ids and then the shards, from that place on; the sum of the totals; and the
/// counts and gaps by shard.
pub fn fronts_join()
    ensures given { (given : ℕ → ℕ → Option Operation) → FrontsJoin (λ shard. IsAmong (given shard)) }
    ensures lines { (lines : ℕ → List Operation) → FrontsJoin (λ shard. IsIn (lines shard)) }
    ensures example { JoinsTwo }
{}
