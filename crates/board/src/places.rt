//! The results of all workers, each at the number of its job.

ghost use Rattle.std.specs.Prelude.{◌≡◌, ◌<◌, ◌≤◌, ℕ, [], map, All, length, vec_capacity};
ghost use Rattle.board.specs.Shares.{times};
ghost use Rattle.board.specs.RunAnswer.{AreResults, IsResult};
ghost use Rattle.board.specs.WorkerResult.{IsPlaced, HasPlace};

use crate::labour::Labour;

// Puts each result at the number of its job.
pub(crate) fn place<L: Labour>(
    labour: &L,
    places: &mut Vec<Option<L::Out>>,
    mut results: Vec<(u64, L::Out)>,
)
where
    L::Out: Drop,
    requires within { All (λ r. r.0 < length places.old.items) results.items }
    requires results { All (IsResult (L.refusal labour.now) (L.gives labour.now)) results.items }
    requires placed { IsPlaced (L.refusal labour.now) (L.gives labour.now) places.old.items }
    ensures placed { IsPlaced (L.refusal labour.now) (L.gives labour.now) places.new.items }
    ensures len { length places.new.items ≡ length places.old.items }
    ensures kept { (i : ℕ) → HasPlace places.old.items i → HasPlace places.new.items i }
    ensures new { (i : ℕ) → 0 < times i (map (λ r. r.0) results.items) →
        HasPlace places.new.items i }
{
    let _ = labour;
    while let Some((number, out)) = results.pop() {
        places[number as usize] = Some(out);
    }
    results.destroy_empty();
}

// The results in order. Each place has one.
pub(crate) fn take_all<L: Labour>(
    labour: &L,
    mut places: Vec<Option<L::Out>>,
    mut results: Vec<L::Out>,
) -> Vec<L::Out>
where
    L::Out: Drop,
    requires placed { IsPlaced (L.refusal labour.now) (L.gives labour.now) places.items }
    requires each { (i : ℕ) → i < length places.items → HasPlace places.items i }
    requires room { (results.items ≡ []) × (length places.items ≤ vec_capacity results) }
    ensures { AreResults (L.refusal labour.now) (L.gives labour.now) (length places.items)
        result.items }
{
    let _ = labour;
    for i in 0..places.len() {
        let Some(out) = places[i].take() else {
            unreachable!()
        };
        results.push_reserved(out);
    }
    results
}
