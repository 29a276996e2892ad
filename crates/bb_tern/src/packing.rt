//! Patterns turned into words once a pass, a transposition, so that gates work on whole words: pattern `k` is lane `k`.

ghost use Rattle.std.specs.Prelude.{◌≡◌, ◌≢◌, ◌<◌, ◌≤◌, ℕ, true, length, map, All, vec_items};
ghost use Rattle.bb_net.specs.Values.{bit_of};
ghost use Rattle.bb_tern.specs.Inside.Lanes.{lane, pattern_at, HasPattern};

/// A word for each input; lanes without a pattern are 0.
pub fn pack(patterns: &[Vec<bool>], ins: &mut [u64])
    requires count { length patterns.now ≤ 64 }
    requires inputs { All (λ p. length p.items ≡ length ins.old) patterns.now }
    ensures len { length ins.new ≡ length ins.old }
    ensures packed { (k : ℕ) → k < length patterns.now
        → HasPattern ins.new k (pattern_at (map vec_items patterns.now) k) }
{
    for i in 0..ins.len() {
        ins[i] = column(patterns, i);
    }
}

fn column(patterns: &[Vec<bool>], i: usize) -> u64
    requires count { length patterns.now ≤ 64 }
    requires inside { All (λ p. i < length p.items) patterns.now }
    ensures { (k : ℕ) → k < length patterns.now → lane result k ≡ bit_of (pattern_at (map vec_items patterns.now) k) i }
{
    let mut word = 0;
    for (k, pattern) in patterns.iter().enumerate() {
        if pattern[i] {
            word = with_lane(word, k);
        }
    }
    word
}

#[tactic(auto, using(crate::proofs::LaneLemmas::lane_set_same, crate::proofs::LaneLemmas::lane_set_other))]
fn with_lane(word: u64, k: usize) -> u64
    requires { k < 64 }
    ensures same { lane result k ≡ true }
    ensures others { (i : ℕ) → i ≢ k → lane result i ≡ lane word i }
{
    word | 1 << k
}
