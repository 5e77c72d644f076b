//! What a search of one copy answers, over what the copy was given and over the leader's line.

ghost use Rattle.ccr_law_stores.specs.Searchable.{AnswersOverGiven, AnswersOverLine, LeaderAnswers, FollowerAnswers};
ghost use Rattle.ccr_law_stores.specs.SearchPlaces.{AnswersAtPlaces};

/// A search of a copy answers by the greatest number per document over what the copy was given: its hits are the
/// live documents on which the query holds, in the order of the keys and then of the ids, none twice; its count is
/// the least number that was not given, and it tells of a gap where a greater one was. Where what was given is
/// exactly the line's operations below a count, the answer is the line's at that count: so a leader's copy that
/// was resynced answers, and each copy of a follower. At a place where the copies hold enough, each search of a
/// journal is answered so.
pub fn searches_answer()
    ensures given { AnswersOverGiven }
    ensures line { AnswersOverLine }
    ensures leader { LeaderAnswers }
    ensures follower { FollowerAnswers }
    ensures places { AnswersAtPlaces }
{}
