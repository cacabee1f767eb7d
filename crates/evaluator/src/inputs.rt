// The words that a run is given: whether they fit the main term, and how they go into an array of
// 16. docs/READING.md: "Refusal numbers".
ghost use Rattle.std.specs.Prelude.{◌≡◌, ◌≤◌, length};
ghost use Rattle.meaning.specs.Choices.{«padded»};
ghost use Rattle.meaning.specs.Answers.{words_fit};

use words::Width;

// 11: as many words as are taken, each of the width.
pub fn fit(width: Width, taken: usize, input: &[u32]) -> bool
    ensures { result ≡ words_fit width.bits taken input.now }
{
    input.len() == taken && width.all_fit(input)
}

// The words, and zeros after them.
pub fn padded(input: &[u32]) -> [u32; 16]
    requires { length input.now ≤ 16 }
    ensures { result ≡ «padded» 16 input.now }
{
    let mut words = [0; 16];
    words[..input.len()].copy_from_slice(input);
    words
}
