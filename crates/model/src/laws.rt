// The laws of a volume. Each is the contract of a function of its own name, so that the check asks for its proof; they share nothing else.
ghost use Rattle.model.specs.Bounds.{LimitsKept, LimitsReached};
ghost use Rattle.model.specs.Exactly.{Exactly};
ghost use Rattle.model.specs.Freed.{FreedRight, OneList, ToldBefore, Turning};
ghost use Rattle.model.specs.Gone.{GoneRight};
ghost use Rattle.model.specs.Moments.{Marking, Timing};
ghost use Rattle.model.specs.Reads.{ReadsRight};
ghost use Rattle.model.specs.Refusals.{Judgement, Meaning};
ghost use Rattle.model.specs.Stays.{HoldsStay, NamesOnce};
ghost use Rattle.model.specs.Streams.{StreamsCarry, StreamsTaken};

// After every list of calls exactly the blocks are in use that some disk or hold shows, and that a count from nothing finds.
pub fn exactly_in_use()
    ensures { Exactly }
{}

// What becomes free by a call is what was shown before and isn't after, each block once.
pub fn freed_right()
    ensures { FreedRight }
{}

// No block becomes free but from use; it may be used again after a sync, and only what may be used is written.
pub fn turned_in_order()
    ensures { Turning }
{}

// `would` tells how many blocks a release then frees.
pub fn told_before()
    ensures { ToldBefore }
{}

// A release looks at one list and one moment, and at nothing else.
#[tactic(auto, using(crate::proofs::Told::one_list))]
pub fn told_from_one_list()
    ensures { OneList }
{}

// No call but its own release changes a hold, its name, its moment, what it shows or the bytes of that.
pub fn holds_stay()
    ensures { HoldsStay }
{}

// Disks and holds together have each name once, and a name that is gone is never given again.
pub fn names_once()
    ensures { NamesOnce }
{}

// Each list of gone blocks has exactly what the one before shows and this one doesn't, each block once.
pub fn gone_right()
    ensures { GoneRight }
{}

// Moments count the changes: what is written is born, and what is held is made, at the moment of the call.
pub fn moments_count()
    ensures { Timing }
{}

// A disk has the mark of the stream that it took, until it is written.
pub fn marks_right()
    ensures { Marking }
{}

// What was written is read, a copy reads as its hold, and everything else as before.
pub fn reads_right()
    ensures { ReadsRight }
{}

// A stream has what changed between two holds of one disk, and nothing else.
pub fn streams_carry()
    ensures { StreamsCarry }
{}

// A stream taken by a disk that has what the older hold has leaves what the newer has, slot by slot with bytes, and isn't taken twice.
pub fn streams_taken()
    ensures { StreamsTaken }
{}

// A call is refused by the lowest number that applies, and changes nothing then; where none applies it is done.
#[tactic(auto, using(crate::proofs::Refused::judgement))]
pub fn judged()
    ensures { Judgement }
{}

// What the tests mean by which calls are refused, and which block is chosen.
pub fn tests_meant()
    ensures { Meaning }
{}

// What was accepted fits its bytes.
pub fn limits_kept()
    ensures { LimitsKept }
{}

// 8 disks and 16 holds can be there, and not one more.
#[tactic(auto, using(crate::proofs::Fits::limits_reached_lem))]
pub fn limits_reached()
    ensures { LimitsReached }
{}
