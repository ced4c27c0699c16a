//! The words of a seed's streams, in order.
ghost use Rattle.std.specs.Prelude.{◌≡◌, ◌+◌, ◌*◌, ◌<◌, ◌^◌};
ghost use Rattle.rand_chacha.specs.ChaCha.{word_at, key_of};

use rand_chacha::ChaCha20Rng;
use rand_core::SeedableRng;
use rand_core::utils::{NextWord, next_u64_via_u32};

// The words of a stream of the seed, from the first on.
pub(crate) fn open(seed: &[u8; 32], stream: u64) -> ChaCha20Rng
    ensures { result ≡ record { key = key_of seed.now; stream = stream; word_pos = 0 } }
{
    let mut words = ChaCha20Rng::from_seed(*seed);
    words.set_stream(stream);
    words
}

// The next word.
pub(crate) fn next(words: &mut ChaCha20Rng) -> u32
    requires { words.now.word_pos + 1 < 2 ^ 68 }
    ensures word { result ≡ word_at 10 words.old.key words.old.stream words.old.word_pos }
    ensures moved { words.new ≡ record words.old { word_pos = words.old.word_pos + 1 } }
{
    words.next_word()
}

// The number of the next two words, the low word first.
pub(crate) fn next_two(words: &mut ChaCha20Rng) -> u64
    requires { words.now.word_pos + 2 < 2 ^ 68 }
    ensures words { result ≡ word_at 10 words.old.key words.old.stream words.old.word_pos
        + word_at 10 words.old.key words.old.stream (words.old.word_pos + 1) * 2 ^ 32 }
    ensures moved { words.new ≡ record words.old { word_pos = words.old.word_pos + 2 } }
{
    next_u64_via_u32(words)
}
