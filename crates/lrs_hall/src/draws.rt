ghost use Rattle.std.specs.Prelude.{◌≡◌, ◌+◌, ◌*◌, ◌/◌, ◌%◌, ◌^◌, ◌<◌};
ghost use Rattle.lrs_hall.specs.Draws.{draw_at, four_words, Draws as SpecDraws, next_draws, start_of};

use lrs_names::Draw;
use rand_chacha::ChaCha20Rng;
use rand_core::SeedableRng;
use rand_core::utils::NextWord;
use std::marker::Model;

/// The draws of one stream, seen as where the next one stands: the seed's key, the stream and the draw's number.
///
/// A stream is that of the ChaCha20 cipher with a counter and a stream number of 64 bits each. It has 2^65 draws,
/// and begins again after the last.
#[derive(Drop)]
pub struct Draws {
    words: ChaCha20Rng,
}

impl Model for Draws {
    ghost Value = { SpecDraws };

    ghost view = { λ d. record { key = d.words.key; stream = d.words.stream; number = d.words.word_pos / 8 } };

    ghost invariant = { λ d. (d.words.word_pos % 8 ≡ 0) × (d.words.word_pos < 2 ^ 68) };
}

impl Draws {
    /// The draws of a stream under a seed, from the first one on.
    pub fn new(seed: [u8; 32], stream: u64) -> Draws
        ensures { result ≡ start_of seed stream }
    {
        let mut words = ChaCha20Rng::from_seed(seed);
        words.set_stream(stream);
        words.set_word_pos(0);
        Draws { words }
    }

    /// The next draw. It can't fail.
    #[allow(clippy::should_implement_trait)]
    pub fn next(&mut self) -> Draw
        ensures drawn { result ≡ draw_at self.old }
        ensures moved { self.new ≡ next_draws self.old }
    {
        let name = number(&mut self.words);
        let secret = number(&mut self.words);
        Draw { name, secret }
    }
}

// The next four words as one number, the first most significant.
fn number(words: &mut ChaCha20Rng) -> u128
    requires { words.old.word_pos + 4 < 2 ^ 68 + 1 }
    ensures value { result ≡ four_words words.old.key words.old.stream words.old.word_pos }
    ensures moved { words.new ≡ record words.old { word_pos = (words.old.word_pos + 4) % 2 ^ 68 } }
{
    let first = u128::from(words.next_word());
    let second = u128::from(words.next_word());
    let third = u128::from(words.next_word());
    let fourth = u128::from(words.next_word());
    ((first * (1 << 32) + second) * (1 << 32) + third) * (1 << 32) + fourth
}
