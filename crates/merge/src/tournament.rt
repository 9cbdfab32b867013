//! A tournament of cursors by their first entries, kept as the winners of its matches.
//!
//!              1             node 1 is the root, and holds the winner of all
//!            /   \
//!          2       3         the nodes below node n are 2n and 2n + 1
//!         / \     / \
//!        4   5   6   7       of n cursors, the last n nodes are their places
//!
//! A step changes one cursor's first entry. Only the matches above its place are played again, one
//! a round; a pass over all cursors would compare each of them.

ghost use Rattle.std.specs.Prelude.{◌≡◌, ◌+◌, ◌<◌, ◌≤◌, ◌⊎◌, [], map, length, slice_get, IfOk};
ghost use Rattle.std.specs.Prelude.{Some, drop, slice_index_or, if◌then◌else◌, IsOkUnless, OnOk};
ghost use Rattle.std.specs.Prelude.{OnErr};
ghost use Rattle.std.specs.List.{AllByRecursion};
ghost use Rattle.table.specs.Answers.{fault};
ghost use Rattle.table.specs.fault.FaultName.TheVariants.{Memory};
ghost use Rattle.table.specs.EntriesFrom.{NeverFalls};
ghost use Rattle.merge.specs.LeastList.{IsMerging};
ghost use Rattle.merge.specs.MergedLists.{merged};
ghost use Rattle.merge.specs.Tournament.{AreBeside, IsWinner, IsBracket, IsPlayed, IsMatch};
ghost use Rattle.merge.specs.Tournament.{IsAbove, IsTournament, first_head, AreHeads, IsHeaded};

use std::alloc::Global;
use std::cmp::Ordering;
use table::{Comparator, Cursor, Entries, Fault};

/// A bracket for `number` places: its last nodes are the places themselves, the others are yet to
/// be played.
pub(crate) fn bracket(alloc: Global, number: usize) -> Result<Vec<usize>, Fault>
    ensures ok { IfOk result (λ winners. IsBracket number winners.items) }
    ensures memory { IsOkUnless result (fault Memory) }
{
    let mut winners = Vec::from_elem(alloc, 0, number)?;
    winners.reserve(number)?;
    for place in 0..number {
        winners.push(place)?;
    }
    Ok(winners)
}

/// The lower of two places.
fn lower(one: usize, other: usize) -> usize
    ensures either { (result ≡ one) ⊎ (result ≡ other) }
    ensures one { result ≤ one }
    ensures other { result ≤ other }
{
    if one < other { one } else { other }
}

/// Which of two cursors wins: the one whose first key is smaller, and of equal keys the lower
/// place. A cursor at its end loses against any other.
fn winner<'c, C: Comparator, S: Cursor<'c, C>>(cursors: &[S], one: usize, other: usize) -> usize
    requires one { one < length cursors.now }
    requires other { other < length cursors.now }
    ensures { IsWinner C.cmp (map S.remaining cursors.now) one other result }
{
    let (left, right) = (&cursors[one], &cursors[other]);
    let right_has = right.valid();
    if !right_has {
        return one;
    }
    let left_has = left.valid();
    if !left_has {
        return other;
    }
    let (left_key, right_key) = (left.key(), right.key());
    match left_key.compare::<C>(&right_key) {
        Ordering::Less => one,
        Ordering::Greater => other,
        Ordering::Equal => lower(one, other),
    }
}

/// Plays the match at a node: the winner of the winners of the two nodes below it.
#[tactic(auto, using(crate::proofs::Tournaments::left_in, crate::proofs::Tournaments::right_in))]
fn play<'c, C: Comparator, S: Cursor<'c, C>>(cursors: &[S], winners: &mut [usize], node: usize)
    requires some { 0 < node }
    requires within { node < length cursors.now }
    requires bracket { IsBracket (length cursors.now) winners.old }
    ensures bracket { IsBracket (length cursors.now) winners.new }
    ensures played { IsMatch C.cmp (map S.remaining cursors.now) winners.old node winners.new }
{
    winners[node] = winner::<C, S>(cursors, winners[2 * node], winners[2 * node + 1]);
}

/// The head of the first key of a cursor; the greatest number if it is at its end.
#[inline]
pub(crate) fn first_head<'c, C: Comparator, S: Cursor<'c, C>>(cursor: &S) -> u128
    ensures head { result ≡ first_head C.head_of (S.remaining cursor.now) }
    ensures ordered { NeverFalls C.cmp (S.remaining cursor.now) }
{
    if !cursor.valid() {
        return u128::MAX;
    }
    C::head(cursor.key().user())
}

/// Takes off the first entry of a cursor. The result is the head of its first key then.
#[inline]
pub(crate) fn advance_cursor<'c, C: Comparator, S: Cursor<'c, C>>(
    cursor: &mut S,
) -> Result<u128, Fault>
    requires { 0 < length (S.remaining cursor.old) }
    ensures head { IfOk result (λ head. head ≡ first_head C.head_of (S.remaining cursor.new)) }
    ensures ok { OnOk result (S.remaining cursor.new ≡ drop 1 (S.remaining cursor.old)) }
    ensures err { OnErr result (S.remaining cursor.new ≡ S.remaining cursor.old) }
    ensures memory { IsOkUnless result (fault Memory) }
{
    cursor.advance()?;
    Ok(first_head::<C, S>(cursor))
}

/// Whether the cursor at `other`, with `head`, wins against the one at `best`, with `best_head`. If
/// the heads differ, no key is read.
#[inline]
fn wins<'c, C: Comparator, S: Cursor<'c, C>>(
    cursors: &[S],
    best: usize,
    best_head: u128,
    other: usize,
    head: u128,
) -> bool
    requires best { best < length cursors.now }
    requires other { other < length cursors.now }
    requires best_head { best_head
        ≡ first_head C.head_of (slice_index_or (map S.remaining cursors.now) best []) }
    requires head { head
        ≡ first_head C.head_of (slice_index_or (map S.remaining cursors.now) other []) }
    ensures { IsWinner C.cmp (map S.remaining cursors.now) best other
        (if result then other else best) }
{
    if head < best_head {
        return true;
    }
    if best_head < head {
        return false;
    }
    winner::<C, S>(cursors, best, other) == other
}

/// The other node below the node that this one is below.
fn beside(node: usize) -> usize
    requires { 0 < node }
    ensures { AreBeside node result }
{
    node ^ 1
}

/// Plays again the matches above `place`. All others were played.
pub(crate) fn play_path<'c, C: Comparator, S: Cursor<'c, C>>(
    cursors: &[S],
    heads: &[u128],
    winners: &mut [usize],
    place: usize,
)
    requires within { place < length cursors.now }
    requires heads { AreHeads C.head_of (map S.remaining cursors.now) heads.now }
    requires bracket { IsBracket (length cursors.now) winners.old }
    requires others { IsPlayed C.cmp (map S.remaining cursors.now) winners.old
        (λ node. IsAbove node (length cursors.now + place)) }
    ensures bracket { IsBracket (length cursors.now) winners.new }
    ensures played { IsPlayed C.cmp (map S.remaining cursors.now) winners.new (λ node. ⊥) }
{
    let mut node = cursors.len() + place;
    let mut best = place;
    let mut best_head = heads[place];
    while node > 1 {
        let other = winners[beside(node)];
        let head = heads[other];
        if wins::<C, S>(cursors, best, best_head, other, head) {
            best = other;
            best_head = head;
        }
        node /= 2;
        winners[node] = best;
    }
}

/// Plays all matches.
fn play_matches<'c, C: Comparator, S: Cursor<'c, C>>(cursors: &[S], winners: &mut [usize])
    requires { IsBracket (length cursors.now) winners.old }
    ensures bracket { IsBracket (length cursors.now) winners.new }
    ensures played { IsPlayed C.cmp (map S.remaining cursors.now) winners.new (λ node. ⊥) }
{
    let mut node = cursors.len();
    while node > 1 {
        node -= 1;
        play::<C, S>(cursors, winners, node);
    }
}

/// Notes the head of each cursor's first key. What each one answers also says that its keys never
/// fall.
fn note_heads<'c, C: Comparator, S: Cursor<'c, C>>(cursors: &[S], heads: &mut [u128])
    requires { length heads.old ≡ length cursors.now }
    ensures heads { AreHeads C.head_of (map S.remaining cursors.now) heads.new }
    ensures ordered { AllByRecursion (NeverFalls C.cmp) (map S.remaining cursors.now) }
{
    for place in 0..cursors.len() {
        heads[place] = first_head::<C, S>(&cursors[place]);
    }
}

/// Plays a whole tournament of these cursors.
pub(crate) fn play_all<'c, C: Comparator, S: Cursor<'c, C>>(
    cursors: &[S],
    heads: &mut [u128],
    winners: &mut [usize],
)
    requires heads { length heads.old ≡ length cursors.now }
    requires bracket { IsBracket (length cursors.now) winners.old }
    ensures { IsHeaded C.cmp C.head_of (map S.remaining cursors.now) winners.new heads.new }
{
    note_heads::<C, S>(cursors, heads);
    play_matches::<C, S>(cursors, winners);
}

/// The place of the cursor whose first entry comes next; None if no cursor has an entry.
pub(crate) fn next_place<'c, C: Comparator, S: Cursor<'c, C>>(
    cursors: &[S],
    winners: &[usize],
) -> Option<usize>
    requires { IsTournament C.cmp (map S.remaining cursors.now) winners.now }
    ensures { IsMerging C.cmp (map S.remaining cursors.now) result }
{
    let place = *winners.get(1)?;
    if cursors[place].valid() {
        Some(place)
    } else {
        None
    }
}

/// The place of the cursor whose first entry comes next.
pub(crate) fn first_place<C: Comparator, S: Entries>(cursors: &[S], winners: &[usize]) -> usize
    requires tournament { IsTournament C.cmp (map S.remaining cursors.now) winners.now }
    requires some { 0 < length (merged C.cmp (map S.remaining cursors.now)) }
    ensures { IsMerging C.cmp (map S.remaining cursors.now) (Some result) }
{
    winners[1]
}

/// The cursor whose first entry comes next.
pub(crate) fn next_cursor<'a, C: Comparator, S: Entries>(
    cursors: &'a [S],
    winners: &[usize],
) -> &'a S
    requires tournament { IsTournament C.cmp (map S.remaining cursors.now) winners.now }
    requires some { 0 < length (merged C.cmp (map S.remaining cursors.now)) }
    ensures some { 0 < length (S.remaining result.now) }
    ensures first { slice_get (S.remaining result.now) 0
        ≡ slice_get (merged C.cmp (map S.remaining cursors.now)) 0 }
{
    &cursors[winners[1]]
}
