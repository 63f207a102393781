//! Draws from a stream of a generator.
ghost use Rattle.std.specs.Prelude.{◌≡◌, ◌<◌};
ghost use Rattle.gp_random.specs.Draws.{draw, stream_of};

use rand_chacha::ChaCha20Rng;
use rand_core::SeedableRng;
use rand_core::utils::NextWord;

// A stream of the generator of a seed, from its first word on.
pub(crate) fn stream_of(seed: u64, stream: u64) -> ChaCha20Rng
    ensures { result ≡ stream_of seed stream }
{
    let mut key = [0; 32];
    key[..8].copy_from_slice(&seed.to_le_bytes());
    let mut rng = ChaCha20Rng::from_seed(key);
    rng.set_stream(stream);
    rng
}

// The next word, modulo n.
#[tactic(auto, unfolding(crate::specs::Draws::draw))]
pub(crate) fn draw(rng: &mut ChaCha20Rng, n: u32) -> u32
    requires { 0 < n }
    ensures drawn { (result, rng.new) ≡ draw rng.old n }
    ensures below { result < n }
{
    rng.next_word() % n
}
