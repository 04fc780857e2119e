// The turns of a round.
ghost use Rattle.std.specs.Prelude.{◌≡◌, ◌<◌, All, IfOk, OnOk, length, map, slice_index, vec_len};
ghost use Rattle.std.specs.Arc.{arc_value};
ghost use Rattle.fc_request.specs.RequestView.{request_view};
ghost use Rattle.fc_kind.specs.Names.{Covers};
ghost use Rattle.fc_round.specs.Askable.{AreAskable, world_of};
ghost use Rattle.fc_round.specs.Questions.{CanBeAsked, answered};
ghost use Rattle.fc_round.specs.QuestionView.{question_view};
ghost use Rattle.fc_round.specs.Responses.{SpellAnswers};
ghost use Rattle.fc_round.specs.Seats.{HasTold, IsSat, seat_answer};
ghost use Rattle.fc_round.specs.Waiting.{IsTurnAt, IsTurnOfOne, shard_at, waiting_places, waiting_shards};

use crate::seat::Seat;
use crate::seats::seats_of;
use crate::{Question, Response};
use fc_base::WantMemory;
use fc_hooks::Turns;
use fc_kind::FacetKind;
use fc_request::Request;
use fc_store::Generation;
use std::alloc::Global;
use std::sync::Arc;

// The places of the seats that wait.
fn waiting(alloc: Global, seats: &[Seat<'_>]) -> Result<Vec<usize>, WantMemory>
    ensures { IfOk result (λ places. places.items ≡ waiting_places seats.now) }
{
    let mut places = Vec::with_capacity(alloc, seats.len())?;
    for (place, seat) in seats.iter().enumerate() {
        if seat.bytes.is_some() {
            continue;
        }
        places.push(place)?;
    }
    Ok(places)
}

// The shards at these places.
fn shards_at(alloc: Global, seats: &[Seat<'_>], places: &[usize]) -> Result<Vec<u32>, WantMemory>
    requires { All (λ place. place < length seats.now) places.now }
    ensures { IfOk result (λ shards. shards.items ≡ map (shard_at seats.now) places.now) }
{
    let mut shards = Vec::with_capacity(alloc, places.len())?;
    for place in places {
        shards.push(seats[*place].shard)?;
    }
    Ok(shards)
}

// The seat at the place that is picked does a turn. It waits no longer, once its message is there.
fn turn_at(
    alloc: Global,
    seats: &mut [Seat<'_>],
    places: &mut Vec<usize>,
    shards: &mut Vec<u32>,
    picked: usize,
) -> Result<(), WantMemory>
    requires covers { All (λ seat. Covers (map (λ b. name (b.vtable, b.value)) seat.future.kinds.now)) seats.old }
    requires sat { All IsSat seats.old }
    requires places { places.old.items ≡ waiting_places seats.old }
    requires shards { shards.old.items ≡ waiting_shards seats.old }
    requires there { picked < length shards.old.items }
    ensures covers { OnOk result (All (λ seat. Covers (map (λ b. name (b.vtable, b.value)) seat.future.kinds.now)) seats.new) }
    ensures turn { OnOk result (IsTurnAt (slice_index places.old.items picked) seats.old seats.new) }
    ensures places { OnOk result (places.new.items ≡ waiting_places seats.new) }
    ensures shards { OnOk result (shards.new.items ≡ waiting_shards seats.new) }
{
    let place = places[picked];
    if !seats[place].turn(alloc)? {
        return Ok(());
    }
    places.remove(picked);
    shards.remove(picked);
    Ok(())
}

// Asks `turns` which of the shards that are not done is next; that one's seat does a turn.
fn step<T: Turns>(
    alloc: Global,
    seats: &mut [Seat<'_>],
    places: &mut Vec<usize>,
    shards: &mut Vec<u32>,
    turns: &mut T,
) -> Result<(), WantMemory>
    requires covers { All (λ seat. Covers (map (λ b. name (b.vtable, b.value)) seat.future.kinds.now)) seats.old }
    requires sat { All IsSat seats.old }
    requires places { places.old.items ≡ waiting_places seats.old }
    requires shards { shards.old.items ≡ waiting_shards seats.old }
    requires some { 0 < vec_len places.old }
    ensures covers { OnOk result (All (λ seat. Covers (map (λ b. name (b.vtable, b.value)) seat.future.kinds.now)) seats.new) }
    ensures turn { OnOk result (IsTurnOfOne seats.old seats.new) }
    ensures places { OnOk result (places.new.items ≡ waiting_places seats.new) }
    ensures shards { OnOk result (shards.new.items ≡ waiting_shards seats.new) }
{
    let picked = turns.next(shards);
    turn_at(alloc, seats, places, shards, picked)?;
    Ok(())
}

// The futures do their turns, one at a time, as `turns` says, until each message is there. `turns` is asked once for
// each turn.
fn drive<T: Turns>(alloc: Global, seats: &mut [Seat<'_>], turns: &mut T) -> Result<(), WantMemory>
    requires covers { All (λ seat. Covers (map (λ b. name (b.vtable, b.value)) seat.future.kinds.now)) seats.old }
    requires sat { All IsSat seats.old }
    ensures told { OnOk result (All HasTold seats.new) }
    ensures answers { OnOk result (map seat_answer seats.new ≡ map seat_answer seats.old) }
{
    let mut places = waiting(alloc, seats)?;
    let mut shards = shards_at(alloc, seats, &places)?;
    while !places.is_empty() {
        step(alloc, seats, &mut places, &mut shards, turns)?;
    }
    Ok(())
}

/// What each shard that is asked something sends, in the order of the questions: their futures do their turns as `turns` says.
pub(crate) fn responses_by_turns<T: Turns>(
    alloc: Global,
    generations: &[Arc<Generation>],
    request: &Request,
    kinds: &[Box<dyn FacetKind>],
    turns: &mut T,
    questions: &[Question<'_>],
) -> Result<Vec<Response>, WantMemory>
    requires covers { Covers (map name kinds.now) }
    requires askable { AreAskable request.now (map arc_value generations.now) }
    requires questions { All (λ question. CanBeAsked (request_view request.now) (length generations.now) (question_view question)) questions.now }
    ensures { IfOk result (λ responses. SpellAnswers responses.items
        (map (answered (request_view request.now) (world_of (map arc_value generations.now))) (map question_view questions.now))) }
{
    let mut seats = seats_of(alloc, generations, request, kinds, questions)?;
    drive(alloc, &mut seats, turns)?;
    let mut responses = Vec::with_capacity(alloc, seats.len())?;
    for seat in seats {
        let shard = seat.shard;
        let bytes = seat.into_bytes();
        responses.push(Response { shard, bytes })?;
    }
    Ok(responses)
}
