//! The definitions that the contracts of the workspace cite, and laws about them.
//!
//! The definitions stand in `specs/`. Each law is the contract of a function that does nothing, so that its proof is
//! asked for.
#![tactic(auto)]

ghost use Rattle.fc_spec.specs.laws.DateLaws.{
  AreReadAgain,
  CanonicalsAreTheirOwn,
  GapsAreSome,
  SumsAreLater,
  TextsAreInOrder,
};
ghost use Rattle.fc_spec.specs.laws.Blockwise.{
  AreSetsAgain,
  BasesAreBlockwise,
  BasesJoin,
  BasesOfShards,
  BucketsAreBlockwise,
  BucketsJoin,
  BucketsOfShards,
  ChangesAreBlockwise,
  ChangesJoin,
  ChangesOfShards,
  DocumentsJoin,
  DocumentsOfShards,
  KeepLengths,
  RebuiltAreBlockwise,
  RebuiltJoin,
  RebuiltOfShards,
};
ghost use Rattle.fc_spec.specs.laws.CertificateLaw.{CertifiedAreEnough, RanksAreReached, SharesAreEnough, TopsAreListed, TopsLookAtCounts};
ghost use Rattle.fc_spec.specs.laws.CombiningLaw.{CombinesLists, CombinesParts};
ghost use Rattle.fc_spec.specs.laws.FoldedNumbers.{FoldsIntoNumbers, FoldsSingleIndex};
ghost use Rattle.fc_spec.specs.laws.NumberedPaths.{AreNumberedPathsExact, AreNumberedTopsExact};
ghost use Rattle.fc_spec.specs.scripts.JsonValues.{TextsAreJson};
ghost use Rattle.fc_spec.specs.laws.LacksLaws.{
  FirstTellOnce,
  HeldIsEnough,
  HeldJoins,
  LacksAreThere,
  LacksAtDepth,
  LacksDiffer,
  LacksStandApart,
  OrderIsFree,
  RoundsOrderIsFree,
  RoundsTellOnce,
  SearchesTellOnce,
  ShapedAreFitting,
  WantsStandApart,
};
ghost use Rattle.fc_spec.specs.laws.LiveLaws.{LiveAreAtPositions, OperationsGoByLists};
ghost use Rattle.fc_spec.specs.laws.LiveSetLaws.{ChangesOnLive, PassingOfOnLive, PassingOnLive};
ghost use Rattle.fc_spec.specs.laws.Merging.{MergesIntoReply};
ghost use Rattle.fc_spec.specs.laws.PhaseLaws.{BookedAreOutputs, FirstAreWithin, PhasesAddUp, SentAscends, SessionsWeave};
ghost use Rattle.fc_spec.specs.laws.QueryReadingLaw.{HasOneReading};
ghost use Rattle.fc_spec.specs.laws.QuerySpellingLaw.{HasOneTree};
ghost use Rattle.fc_spec.specs.laws.RebuiltPaths.{RebuiltArePlaces};
ghost use Rattle.fc_spec.specs.laws.RefinedPaths.{AreRefinedPathsExact};
ghost use Rattle.fc_spec.specs.laws.ReplacedLaw.{HasTopBuckets, ReplacedAreSearchable, ReplacedHaveNoExact, RestoresReply};
ghost use Rattle.fc_spec.specs.laws.RequestLaws.{
  ReadAreValid,
  ReadAreValidWhole,
  ScriptsAskValid,
  ValidAreNamedApart,
  ExactAnswersNestLittle,
  OnlyExactAreSearchable,
  ValidAnswersNestLittle,
  ValidHaveFewDepths,
  ValidHaveFewRounds,
  ValidSortExactByCount,
};
ghost use Rattle.fc_spec.specs.laws.RoundsEnd.{NothingLacksBeyond, RoundsAnswer, RoundsAreFew, RoundsComplete, SearchesEnd};
ghost use Rattle.fc_spec.specs.laws.ScheduleLaw.{PhasesGoOn, PinsAreLegal, RunsAreLegal};
ghost use Rattle.fc_spec.specs.laws.ScriptLaws.{AddedAreWithin, EndsAreOutputs, IsOnlyOutput, SearchesAreFew, StandByPhase, WorldsAreWithin};
ghost use Rattle.fc_spec.specs.laws.ShapedAnswers.{AnswersAreShaped, LeastsAreShaped};
ghost use Rattle.fc_spec.specs.laws.ShardAlone.{AnswersFromItsBlocks, ExactFromItsBlocks};
ghost use Rattle.fc_spec.specs.laws.SortingLaw.{PagesAreCuts, RanksAreFronts, RestsKeepFronts, RestsKeepPages};
ghost use Rattle.fc_spec.specs.laws.SpellingLaw.{HasOneSpelling};
ghost use Rattle.fc_spec.specs.laws.SumsLaw.{AnswersFit};
ghost use Rattle.fc_spec.specs.laws.TopRoundsLaw.{LeastsAreSome, OnlyExactHasTops, RoundsTellTops, TopsAreTold};
ghost use Rattle.fc_spec.specs.laws.TopsLaw.{AreByOffers, AreTopPathsExact, AreTopsExact, IsExactWithTops, IsSingleWithTops};
ghost use Rattle.fc_spec.specs.laws.TraceLaws.{
  EntriesAreIn,
  OrderOfWantsIsFree,
  TracesAscend,
  ValidTracesAreListed,
  ValidTracesAreWithin,
  ValidWholeTracesAreListed,
  ValidWholeTracesAreWithin,
  WholeTracesAscend,
};
ghost use Rattle.fc_spec.specs.laws.WithoutLimits.{
  IsExactOverSingle,
  IsExactWithoutLimits,
  IsSingleWithoutLimits,
};

/// The statistics of two disjoint lists of places, combined, are those of both together.
pub fn statistics_combine()
    ensures lists { CombinesLists }
    ensures parts { CombinesParts }
{}

/// What ranks select is what sorting and cutting give, and what stands behind enough others plays no part in it.
pub fn ranks_are_sorting()
    ensures pages { PagesAreCuts }
    ensures fronts { RanksAreFronts }
    ensures rests { RestsKeepFronts }
    ensures pages_of_rests { RestsKeepPages }
{}

/// Without limits the distributed reply is the exact reply over the same world, and that of a single index.
pub fn without_limits()
    ensures same_world { IsExactWithoutLimits }
    ensures any_shards { IsExactOverSingle }
    ensures single_index { IsSingleWithoutLimits }
{}

/// Where numbers are asked for as they are spread, those that the folded reply prints are counted over the places of each
/// bucket, on refined paths over all shards, and its top buckets are those of a single index. Without limits it is the
/// folded reply of a single index.
pub fn folds_into_numbers()
    ensures numbers { FoldsIntoNumbers }
    ensures paths { AreNumberedPathsExact }
    ensures tops { AreNumberedTopsExact }
    ensures single_index { FoldsSingleIndex }
{}

/// Under facets that refine or have no limit, printed buckets are exact over all shards.
pub fn refined_paths_are_exact()
    ensures { AreRefinedPathsExact }
{}

/// Outermost facets that are exact, or have no limit, print the values, counts and statistics of a single index over their
/// own domain, and at refined paths buckets are exact over all shards. Where none is exact, that is the distributed reply; and
/// without limits it is the exact reply over the same world, and that of a single index.
pub fn tops_are_exact()
    ensures tops { AreTopsExact }
    ensures paths { AreTopPathsExact }
    ensures offers { AreByOffers }
    ensures same_world { IsExactWithTops }
    ensures single_index { IsSingleWithTops }
{}

/// The top values are among those that shards list down to a share of a count that is told, whatever they told first. A
/// page of values is the same without those that are not listed, where a count certifies that enough are; a share is enough
/// for that, and the count of a rank is reached. Where the greatest count comes first, nested statistics play no part.
pub fn top_values_are_certified()
    ensures enough { CertifiedAreEnough }
    ensures shares { SharesAreEnough }
    ensures ranks { RanksAreReached }
    ensures listed { TopsAreListed }
    ensures counts { TopsLookAtCounts }
{}

/// Three rounds of answers, each asked by what was told before, tell the top values of exact facets, in whatever order the
/// messages of a round come. The exact facets alone have the top values that they have in the whole request. No count that
/// shards are asked for is 0, where none was told.
pub fn rounds_tell_tops()
    ensures told { TopsAreTold }
    ensures rounds { RoundsTellTops }
    ensures alone { OnlyExactHasTops }
    ensures some { LeastsAreSome }
{}

/// A request with query facets in the place of exact ones, one for each bucket that they print, has their buckets; none of its
/// outermost facets is exact. Where no two statistics have one name, the reply can be put together again from its reply. Over
/// documents of the schema it is valid but for names, where the request is valid.
pub fn exact_facets_are_replaced()
    ensures buckets { HasTopBuckets }
    ensures restored { RestoresReply }
    ensures no_exact { ReplacedHaveNoExact }
    ensures searchable { ReplacedAreSearchable }
{}

/// A shard's answer is made from its own blocks, and its number plays no part.
pub fn shards_answer_alone()
    ensures answers { AnswersFromItsBlocks }
    ensures exact { ExactFromItsBlocks }
{}

/// A shard's answer has the shape of its ask, whatever is asked: in each list the keys are the facet's and ascend, buckets
/// have a place where they need one, and values are at most as many as a terms facet's shard may offer.
pub fn answers_are_shaped()
    ensures answers { AnswersAreShaped }
    ensures leasts { LeastsAreShaped }
{}

/// The base, also as it is rebuilt along a path, a domain change and the places of a bucket are made list of blocks by
/// list of blocks.
pub fn places_are_blockwise()
    ensures bases { BasesAreBlockwise }
    ensures rebuilt { RebuiltAreBlockwise }
    ensures changes { ChangesAreBlockwise }
    ensures buckets { BucketsAreBlockwise }
    ensures lengths { KeepLengths }
    ensures sets { AreSetsAgain }
{}

/// Where lists of blocks are joined, the sets that are made of them stand one behind the other.
pub fn sets_join()
    ensures bases { BasesJoin }
    ensures rebuilt { RebuiltJoin }
    ensures changes { ChangesJoin }
    ensures buckets { BucketsJoin }
    ensures documents { DocumentsJoin }
{}

/// What the base, a domain change and a bucket have on a shard is made from that shard's blocks.
pub fn shards_change_alone()
    ensures bases { BasesOfShards }
    ensures rebuilt { RebuiltOfShards }
    ensures changes { ChangesOfShards }
    ensures buckets { BucketsOfShards }
    ensures documents { DocumentsOfShards }
{}

/// Answers that lack nothing merge into the distributed reply.
pub fn answers_merge()
    ensures { MergesIntoReply }
{}

/// Answers that tell of what lacks complete one depth after another; rounds are such answers, and end with the
/// distributed reply.
pub fn rounds_end()
    ensures complete { RoundsComplete }
    ensures answer { RoundsAnswer }
    ensures beyond { NothingLacksBeyond }
    ensures end { SearchesEnd }
    ensures few { RoundsAreFew }
{}

/// Where messages have the shapes that their asks demand, what lacks names keys of facets of the request, and shards
/// that are there.
pub fn what_lacks_is_there()
    ensures fitting { ShapedAreFitting }
    ensures there { LacksAreThere }
{}

/// Whatever was told, within a round each shard is asked for a bucket once, and for none under another.
pub fn what_lacks_is_asked_once()
    ensures lacks { LacksStandApart }
    ensures differ { LacksDiffer }
    ensures wants { WantsStandApart }
{}

/// What lacks and the merged reply are made of what is held, whatever the order in which the messages of a round came.
pub fn order_of_arrival_is_free()
    ensures held { HeldIsEnough }
    ensures joins { HeldJoins }
    ensures messages { OrderIsFree }
    ensures rounds { RoundsOrderIsFree }
{}

/// No two buckets that a shard tells hold one bucket, whatever its messages hold, where it first tells of its root and
/// then, one depth after another, of what lacks there.
pub fn buckets_are_told_once()
    ensures depth { LacksAtDepth }
    ensures first { FirstTellOnce }
    ensures rounds { RoundsTellOnce }
    ensures searches { SearchesTellOnce }
{}

/// The counts and the numbers that the answers of shards within the limits on totals tell of a bucket can be added up,
/// where no shard tells it twice.
pub fn answers_fit()
    ensures { AnswersFit }
{}

/// No two messages have the same bytes, and no bytes of a message are the front of another's.
pub fn messages_have_one_spelling()
    ensures { HasOneSpelling }
{}

/// In the trace of a search each round and shard has one entry, and of a valid request rounds and shards are few. Entries
/// that are put into a map stand there, and are listed again from it. The order in which a shard is asked for buckets
/// changes no length.
pub fn traces_are_maps()
    ensures ascend { TracesAscend }
    ensures within { ValidTracesAreWithin }
    ensures entries { EntriesAreIn }
    ensures listed { ValidTracesAreListed }
    ensures wants { OrderOfWantsIsFree }
{}

/// So it is with the rounds that find what exact facets print, of which there are three at most.
pub fn whole_traces_are_maps()
    ensures ascend { WholeTracesAscend }
    ensures within { ValidWholeTracesAreWithin }
    ensures listed { ValidWholeTracesAreListed }
{}

/// No two trees of query texts have the same tokens.
pub fn query_trees_have_one_spelling()
    ensures { HasOneTree }
{}

/// The query or the fault of a text is the one that its trees give, and they give no other.
pub fn query_texts_have_one_meaning()
    ensures { HasOneReading }
{}

/// The JSON of a text has keys that differ and stand in the order of their bytes, and negative numbers of 64 bits.
pub fn texts_are_json()
    ensures { TextsAreJson }
{}

/// The request that JSON says is valid for the schema: each part of it where numbers are those of JSON, and the order of
/// its names where keys ascend too. So each search of a script that bytes spell asks a valid request, or has a fault.
pub fn what_is_read_is_valid()
    ensures parts { ReadAreValid }
    ensures whole { ReadAreValidWhole }
    ensures scripts { ScriptsAskValid }
{}

/// Along paths whose facets have no block step, as they stand around exclusions in a valid request, the base is rebuilt
/// to the places of the path where no more tags are excluded.
pub fn bases_are_rebuilt()
    ensures { RebuiltArePlaces }
{}

/// In a valid request exact facets are sorted by count, the greatest first, and no two statistics of the root have one name; and the request of
/// its exact facets alone is valid but for names.
pub fn valid_requests_sort_exact_by_count()
    ensures sorted { ValidSortExactByCount }
    ensures apart { ValidAreNamedApart }
    ensures alone { OnlyExactAreSearchable }
{}

/// A search has at most nine rounds, since at most eight terms facets stand around each other, where the request is valid but
/// for names.
pub fn valid_requests_have_few_rounds()
    ensures depths { ValidHaveFewDepths }
    ensures rounds { ValidHaveFewRounds }
{}

/// The messages that answer a request nest at most nine deep, the depth that bytes of messages can spell, where the request is
/// valid but for names; those of the rounds of exact facets too.
pub fn valid_answers_nest_little()
    ensures answers { ValidAnswersNestLittle }
    ensures exact { ExactAnswersNestLittle }
{}

/// Whatever the schedule of commits and pins, what the searches of a session pin is legal.
pub fn schedules_are_legal()
    ensures pins { PinsAreLegal }
    ensures runs { RunsAreLegal }
    ensures phases { PhasesGoOn }
{}

/// The searches of a script, one phase after another, are all of them in order. Whatever the replies, what they write
/// over the generations at the ends of their phases is an output.
pub fn phase_ends_are_outputs()
    ensures by_phase { StandByPhase }
    ensures ends { EndsAreOutputs }
{}

/// Where no phase has both a commit and a search, all outputs of the script are one: with `phase_ends_are_outputs`, it has
/// exactly one.
pub fn scripts_have_one_output()
    ensures { IsOnlyOutput }
{}

/// Where a script of at most 64 shards is within the limits, each of its worlds is, whatever the generations.
pub fn worlds_are_within_limits()
    ensures { WorldsAreWithin }
{}

/// So is all that its batches add, whether later ones leave it or not.
pub fn added_are_within_limits()
    ensures { AddedAreWithin }
{}

/// What the sessions of a phase write, each by itself, woven in the order of the searches, is what the phase may write; and
/// what the phases write, one after another, is an output of the script, in which what was sent for the searches is booked. What
/// was sent for a search ascends.
pub fn phases_write_outputs()
    ensures sessions { SessionsWeave }
    ensures phases { PhasesAddUp }
    ensures outputs { BookedAreOutputs }
    ensures ascend { SentAscends }
{}

/// A script has no more searches than it may have bytes.
pub fn searches_are_few()
    ensures { SearchesAreFew }
{}

/// Where all that the batches of all shards add is within the limits, what the first ones of each leave is, however many.
pub fn first_batches_are_within()
    ensures { FirstAreWithin }
{}

/// What operations leave of live blocks is found list of blocks by list of blocks: of earlier ones the blocks that no
/// operation names, and of those that are added the blocks that no later one names.
pub fn operations_go_by_lists()
    ensures lists { OperationsGoByLists }
    ensures positions { LiveAreAtPositions }
{}

/// Bases, domain changes and buckets are found on whole lists of blocks and kept at the live positions: that is what they
/// are on the live blocks.
pub fn sets_hold_on_live_blocks()
    ensures passing { PassingOnLive }
    ensures of_sets { PassingOfOnLive }
    ensures changes { ChangesOnLive }
{}

/// The byte order of canonical texts is the order of time, a canonical text says the moment that it is of, and what is a
/// gap later is later.
pub fn dates_are_in_order()
    ensures order { TextsAreInOrder }
    ensures again { AreReadAgain }
    ensures own { CanonicalsAreTheirOwn }
    ensures sums { SumsAreLater }
    ensures gaps { GapsAreSome }
{}
